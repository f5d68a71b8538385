ghost use Rattle.std.specs.Prelude.{◌≡◌, ◌⊎◌, IfOk, Ok, Err};
ghost use Rattle.cbor_core.specs.Views.{field};
ghost use Rattle.item_codec.specs.Answers.{Answers, IsAnswer};
ghost use Rattle.suit_commands.specs.declared.fault.SequenceFault.{SequenceFault};
ghost use Rattle.suit_commands.specs.Sequences.{sequence_in};
ghost use Rattle.suit_envelope.specs.declared.plan.Plan.{Plan};
ghost use Rattle.suit_envelope.specs.Plans.{PlanIs, PlanRefusedAs, plan_of, sequences_of, with_indices, member_sequence, shared_sequence};
ghost use Rattle.suit_envelope.specs.Plans as Plans;

use crate::indices::first_index;
use crate::labels::{DEPENDENCIES, FETCH, INSTALL, VALIDATE};
use crate::manifest::Manifest;
use crate::plan::Plan;
use base_types::{List, Octets};
use cbor_core::{Pair, field};
use std::alloc::Global;
use suit_commands::{Sequence, SequenceFault, read};

impl Manifest {
    /// The sequences of the manifest, read, each empty where it is not there.
    ///
    /// A refusal is the first in this order. `Shape` where the common part has dependencies (label 1).
    /// Then the sequences, shared, payload-fetch, install and validate: `Shape` where the member is no
    /// byte string; what `suit_commands::read` says of its bytes; `Index` with the first index, of a
    /// component that is set or copied from, that is not below the number of components, in the order
    /// of the commands, those of sequences inside in their places. `NoMemory` where no memory is left.
    pub fn commands(&self, alloc: Global) -> Result<Plan, SequenceFault>
        // The manifest has the plan that is read.
        ensures found { IfOk result (λ plan. PlanIs plan self.now) }
        // The plan that the manifest has is read, unless memory runs out.
        ensures only { (plan : Plan) → PlanIs plan self.now → IsAnswer SequenceFault.NoMemory result (Ok plan) }
        // A refusal but NoMemory is the one that comes first.
        ensures bad { (fault : SequenceFault) → result ≡ Err fault → (fault ≡ SequenceFault.NoMemory) ⊎ PlanRefusedAs self.now fault }
        // The refusal that comes first is the answer, unless memory runs out.
        ensures refused { (fault : SequenceFault) → PlanRefusedAs self.now fault → IsAnswer SequenceFault.NoMemory result (Err fault) }
    {
        read_plan(alloc, self)
    }
}

/// The plan of a manifest.
#[tactic(auto, unfolding(crate::specs::Plans::plan_of))]
fn read_plan(alloc: Global, manifest: &Manifest) -> Result<Plan, SequenceFault>
    ensures { Answers SequenceFault.NoMemory (plan_of manifest.now) result }
{
    match field(manifest.common_other.as_slice(), DEPENDENCIES) {
        Some(_) => Err(SequenceFault::Shape),
        None => read_sequences(alloc, manifest),
    }
}

/// The sequences of a manifest, in their order.
fn read_sequences(alloc: Global, manifest: &Manifest) -> Result<Plan, SequenceFault>
    ensures { Answers SequenceFault.NoMemory (sequences_of manifest.now) result }
{
    let shared = read_shared_indexed(alloc, manifest)?;
    let fetch = read_member_indexed(alloc, manifest, FETCH)?;
    let install = read_member_indexed(alloc, manifest, INSTALL)?;
    let validate = read_member_indexed(alloc, manifest, VALIDATE)?;
    Ok(Plan {
        shared,
        fetch,
        install,
        validate,
    })
}

/// The shared sequence, where its indices are components'.
fn read_shared_indexed(alloc: Global, manifest: &Manifest) -> Result<Sequence, SequenceFault>
    ensures { Answers SequenceFault.NoMemory (with_indices manifest.now (shared_sequence manifest.now.shared)) result }
{
    let sequence = read_shared(alloc, &manifest.shared)?;
    indexed(sequence, manifest.components.len())
}

/// The sequence of a member, where its indices are components'.
fn read_member_indexed(
    alloc: Global,
    manifest: &Manifest,
    label: u64,
) -> Result<Sequence, SequenceFault>
    ensures { Answers SequenceFault.NoMemory (with_indices manifest.now (member_sequence (field label manifest.now.members))) result }
{
    let sequence = read_member(alloc, manifest.members.as_slice(), label)?;
    indexed(sequence, manifest.components.len())
}

/// The sequence, where all its indices are below the count of components.
fn indexed(sequence: Sequence, count: usize) -> Result<Sequence, SequenceFault>
    ensures { result ≡ Plans.indexed count sequence }
{
    match first_index(sequence.as_slice(), count) {
        Some(n) => Err(SequenceFault::Index(n)),
        None => Ok(sequence),
    }
}

/// The sequence that bytes are.
fn read_sequence(alloc: Global, bytes: &[u8]) -> Result<Sequence, SequenceFault>
    ensures { Answers SequenceFault.NoMemory (sequence_in 9 bytes.now) result }
{
    read(alloc, bytes)
}

/// The shared sequence, where it is there, and else an empty one.
fn read_shared(alloc: Global, shared: &Option<Octets>) -> Result<Sequence, SequenceFault>
    ensures { Answers SequenceFault.NoMemory (shared_sequence shared.now) result }
{
    match shared {
        Some(bytes) => read_sequence(alloc, bytes.as_slice()),
        None => Ok(List::new(alloc)),
    }
}

/// The sequence of a member, where it is there, and else an empty one.
fn read_member(alloc: Global, members: &[Pair], label: u64) -> Result<Sequence, SequenceFault>
    ensures { Answers SequenceFault.NoMemory (member_sequence (field label members.now)) result }
{
    match field(members, label) {
        Some(item) => match item.as_bytes() {
            Some(bytes) => read_sequence(alloc, bytes),
            None => Err(SequenceFault::Shape),
        },
        None => Ok(List::new(alloc)),
    }
}
