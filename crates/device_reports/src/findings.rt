// What an audit finds of components, and the report of that.
ghost use Rattle.std.specs.Prelude.{◌≡◌, ◌++◌, ℕ, List, count_by, length, string_bytes, IfOk, OnOk, OnErr};
ghost use Rattle.std.specs.List.{flat_map};
ghost use Rattle.device_state.specs.Places.{Ascend, put_by};
ghost use Rattle.device_reports.specs.Audit.{found, is_bad, word, finding_line, counts_line, report_of};

use crate::lines::{push_hex, push_number};
use base_types::{Octets, OrMemory, Utf8};
use device_state::{HasId, put};
use std::alloc::Global;
use suit_commands::Digest;

/// What an audit finds of an image.
#[derive(Clone, Copy, Debug, Eq, PartialEq)]
pub(crate) enum Finding {
    /// It has the digest that is kept.
    Good,
    /// It has another.
    Bad,
    /// No digest is kept.
    Unknown,
}

impl Finding {
    /// What is found of an image, by the digest that is kept.
    pub(crate) fn of(digest: &Option<Digest>, image: &[u8]) -> Finding
        ensures { result ≡ found digest.now image.now }
    {
        match digest {
            Some(digest) => {
                if digest.matches(image) {
                    Finding::Good
                } else {
                    Finding::Bad
                }
            }
            None => Finding::Unknown,
        }
    }

    /// As a word.
    fn word(self) -> &'static str
        ensures { result.now ≡ word self }
    {
        match self {
            Finding::Good => "ok",
            Finding::Bad => "bad",
            Finding::Unknown => "unknown",
        }
    }
}

/// A component that was audited.
#[derive(Debug, Drop)]
pub(crate) struct Audited {
    /// The encoding of its identifier.
    pub(crate) id: Octets,
    pub(crate) finding: Finding,
}

impl HasId for Audited {
    ghost id_of = { λ audited. audited.id };

    fn id(&self) -> &[u8] {
        self.id.as_slice()
    }
}

impl Audited {
    /// Whether its image has another digest than the one that is kept.
    fn is_bad(&self) -> bool
        ensures { result ≡ is_bad self.now }
    {
        matches!(self.finding, Finding::Bad)
    }
}

/// Puts one that was audited in its place among others.
pub(crate) fn keep(all: &mut Vec<Audited>, audited: Audited) -> OrMemory<()>
    requires { Ascend (λ a. a.id) all.old.items }
    ensures put { OnOk result (all.new.items ≡ put_by (λ a. a.id) audited all.old.items) }
    ensures ascend { Ascend (λ a. a.id) all.new.items }
{
    all.reserve(1)?;
    put(all, audited);
    Ok(())
}

/// Writes the line of a component.
fn push_finding(alloc: Global, out: &mut String, audited: &Audited) -> OrMemory<()>
    ensures { OnOk result (string_bytes out.new ≡ string_bytes out.old ++ finding_line audited.now) }
{
    push_hex(alloc, out, audited.id.as_slice())?;
    out.push_str(" ")?;
    out.push_str(audited.finding.word())?;
    out.push_str("\n")?;
    Ok(())
}

/// Writes how many components were audited, and how many images are bad.
fn push_counts(out: &mut String, audited: usize, bad: usize) -> OrMemory<()>
    ensures { OnOk result (string_bytes out.new ≡ string_bytes out.old ++ counts_line audited bad) }
{
    out.push_str("audited ")?;
    push_number(out, audited as u64)?;
    out.push_str(" bad ")?;
    push_number(out, bad as u64)?;
    out.push_str("\n")?;
    Ok(())
}

/// How many images are bad.
fn bad_count(all: &[Audited]) -> usize
    ensures { result ≡ count_by is_bad all.now }
{
    all.iter().filter(|audited| audited.is_bad()).count()
}

/// The report of components that were audited.
pub(crate) fn report(alloc: Global, all: &[Audited]) -> OrMemory<Utf8>
    ensures { IfOk result (λ text. text ≡ report_of all.now) }
{
    let mut out = String::new(alloc);
    for audited in all {
        push_finding(alloc, &mut out, audited)?;
    }
    push_counts(&mut out, all.len(), bad_count(all))?;
    Ok(Utf8::from_string(out))
}
