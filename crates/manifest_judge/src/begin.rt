// What is decided of a manifest before anything of it is run.
ghost use Rattle.std.specs.Prelude.{◌≡◌, IfOk, None};
ghost use Rattle.manifest_judge.specs.Openings.{IsTarget, Enters, Begins, IsFresh};
ghost use Rattle.manifest_judge.specs.Answers.{DigestEnters, SequenceEnters, Carries};

use crate::candidate::{Candidate, Entry, Target};
use crate::kept::{is_free, is_newer};
use crate::word::Word;
use base_types::{List, MANIFESTS_LIMIT, NoMemory, Octets, OrMemory};
use device_config::Config;
use device_state::RowHead;
use std::alloc::Global;
use suit_commands::SequenceFault;
use suit_engine::Engine;
use suit_envelope::{Envelope, EnvelopeFault, Manifest, Plan};
use trust_anchors::{Role, SignFault};

impl Candidate {
    /// Opens the manifest at a place of an Update, counted from 0, for a device with this configuration
    /// that keeps these manifests so far (RFC 9397, "Update"; draft-ietf-suit-manifest, "Manifest
    /// Processing").
    ///
    /// `Goes` with what is run, and nothing of it is run yet. `Fails` with the first word that holds:
    /// `Form` for the ninth or a later place, and where `Envelope::read` refuses the bytes; `Digest`
    /// where the digest is not that of the manifest; `Signature` where no block is signed by an author's
    /// anchor over the bytes of the digest; `Sequence` where a number that is kept for the manifest is
    /// not below its own; `Command` where `Manifest::commands` refuses the sequences. Refused for want of
    /// memory alone.
    ///
    /// The bytes are read once, the payloads that are attached are copied twice, and of the other bytes
    /// nothing is kept but identifiers and sequences.
    pub fn begin(
        alloc: Global,
        place: usize,
        bytes: &[u8],
        config: &Config,
        rows: &[RowHead],
    ) -> OrMemory<Entry>
        // It is what is decided before anything is run.
        ensures entry { IfOk result (Begins (record { place = place; bytes = bytes.now; config = config.now; rows = rows.now })) }
        // What may be run may be run with whatever was fetched.
        ensures fresh { IfOk result IsFresh }
    {
        if place >= MANIFESTS_LIMIT {
            return Ok(Entry::Fails(Word::Form));
        }
        match Envelope::read(alloc, bytes) {
            Ok(envelope) => open(alloc, envelope, config, rows),
            Err(fault) => refuse_form(&fault),
        }
    }
}

/// Bytes that are no envelope, for this reason, fail by `Form`, unless it is want of memory.
fn refuse_form(fault: &EnvelopeFault) -> OrMemory<Entry>
    ensures { IfOk result (λ it. (fault.now ≡ EnvelopeFault.NoMemory → ⊥) × (it ≡ Entry.Fails Word.Form)) }
{
    if *fault == EnvelopeFault::NoMemory {
        return Err(NoMemory);
    }
    Ok(Entry::Fails(Word::Form))
}

/// What becomes of an envelope, which goes with it.
fn open(alloc: Global, envelope: Envelope, config: &Config, rows: &[RowHead]) -> OrMemory<Entry>
    ensures entry { IfOk result (DigestEnters config.now rows.now envelope) }
    ensures fresh { IfOk result IsFresh }
{
    verify(alloc, &envelope, config, rows)
}

/// The same, from its digest and its signature on.
fn verify(alloc: Global, envelope: &Envelope, config: &Config, rows: &[RowHead]) -> OrMemory<Entry>
    ensures entry { IfOk result (DigestEnters config.now rows.now envelope.now) }
    ensures fresh { IfOk result IsFresh }
{
    if !envelope.digest_holds() {
        return Ok(Entry::Fails(Word::Digest));
    }
    let payload = envelope.digest_bytes.as_slice();
    let anchors = &config.anchors;
    match anchors.verified_any(alloc, Role::Author, &envelope.blocks, payload) {
        Ok(_) => enter(alloc, envelope, config, rows),
        Err(SignFault::NotSigned) => Ok(Entry::Fails(Word::Signature)),
        Err(SignFault::NoMemory) => Err(NoMemory),
    }
}

/// The same, from its sequence number on.
fn enter(alloc: Global, envelope: &Envelope, config: &Config, rows: &[RowHead]) -> OrMemory<Entry>
    ensures entry { IfOk result (SequenceEnters config.now rows.now envelope.now) }
    ensures fresh { IfOk result IsFresh }
{
    if !is_newer(rows, &envelope.manifest) {
        return Ok(Entry::Fails(Word::Sequence));
    }
    match envelope.manifest.commands(alloc) {
        Ok(plan) => start(alloc, envelope, plan, config, rows),
        Err(fault) => refuse_command(&fault),
    }
}

/// Sequences that are refused, for this reason, fail by `Command`, unless it is want of memory.
fn refuse_command(fault: &SequenceFault) -> OrMemory<Entry>
    ensures { IfOk result (λ it. (fault.now ≡ SequenceFault.NoMemory → ⊥) × (it ≡ Entry.Fails Word.Command)) }
{
    if *fault == SequenceFault::NoMemory {
        return Err(NoMemory);
    }
    Ok(Entry::Fails(Word::Command))
}

/// What is run of an envelope that was found good, with its plan.
fn start(
    alloc: Global,
    envelope: &Envelope,
    plan: Plan,
    config: &Config,
    rows: &[RowHead],
) -> OrMemory<Entry>
    ensures entry { IfOk result (Enters config.now.device rows.now envelope.now plan) }
    ensures fresh { IfOk result IsFresh }
{
    let manifest = &envelope.manifest;
    let engine = Engine::start(alloc, manifest, plan, &envelope.attached, &config.device)?;
    with_engine(alloc, manifest, engine, rows)
}

/// A manifest with its run.
fn with_engine(
    alloc: Global,
    manifest: &Manifest,
    engine: Engine,
    rows: &[RowHead],
) -> OrMemory<Entry>
    ensures { IfOk result (Carries rows.now manifest.now engine) }
{
    match target_of(alloc, manifest, rows) {
        Ok(target) => Ok(Entry::Goes(Candidate { target, engine })),
        Err(NoMemory) => Err(NoMemory),
    }
}

/// Copies of identifiers.
fn copied_ids(alloc: Global, ids: &[Octets]) -> OrMemory<List<Octets>>
    ensures { IfOk result (λ copies. copies ≡ ids.now) }
{
    let mut copies = List::new(alloc);
    for id in ids {
        copies.push(id.try_clone(alloc)?)?;
    }
    Ok(copies)
}

/// What the row of a manifest is made of.
fn target_of(alloc: Global, manifest: &Manifest, rows: &[RowHead]) -> OrMemory<Target>
    ensures { IfOk result (IsTarget rows.now manifest.now) }
{
    let id = manifest.id.try_clone(alloc)?;
    let components = copied_ids(alloc, manifest.components.as_slice())?;
    let free = is_free(rows, manifest);
    Ok(Target {
        id,
        sequence: manifest.sequence,
        components,
        free,
    })
}
