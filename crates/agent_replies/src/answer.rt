// What is said to a question.
ghost use Rattle.std.specs.Prelude.{◌≡◌, Some, IfOk, false};
ghost use Rattle.std.specs.List.{AllByRecursion};
ghost use Rattle.base_types.specs.declared.limits.TheConstants.{TOKEN_LEAST, TOKEN_LIMIT};
ghost use Rattle.cbor_fields.specs.Views.{IsIdentifier};
ghost use Rattle.teep_messages.specs.Messages.{MessageIs};
ghost use Rattle.teep_messages.specs.Options.{IsSized};
ghost use Rattle.agent_replies.specs.Saying.{answer_to, is_known};

use crate::question::{knows_profile, knows_suite, knows_version};
use crate::response::{respond, wrong_suite, wrong_version};
use base_types::{Octets, OrMemory};
use device_state::RowHead;
use evidence::DeviceIds;
use std::alloc::Global;
use teep_messages::{Options, Profile, Suite};

/// What an agent says to a question.
#[derive(Debug, Drop)]
pub struct Answer {
    /// The message, encoded.
    pub message: Octets,
    /// Whether who asked may send updates now.
    pub ready: bool,
}

// An error: who asked may send no updates.
fn refusal(message: Octets) -> Answer
    ensures message { result.message ≡ message }
    ensures ready { result.ready ≡ false }
{
    Answer {
        message,
        ready: false,
    }
}

/// What is said to a question with these options, suites, profiles and items, whose token has 8 to 64
/// bytes, by a device with these numbers and manifests (draft-ietf-teep-protocol, "QueryRequest
/// Message").
///
/// Error 4 where versions are named and 0 is not among them. Else Error 5 where no suite has the
/// operation `[18, -46]`, or no profile begins with -16 and -46. Else the QueryResponse: version 0, the
/// token, where bit 0 of `items` is set the evidence over the challenge, or over the token where there
/// is none, and where bit 1 is set the manifests that are present, if any. Refused for want of memory
/// alone.
pub fn answer_question(
    alloc: Global,
    ids: &DeviceIds,
    rows: &[RowHead],
    asked: &Options,
    suites: &[Suite],
    profiles: &[Profile],
    items: u64,
    token: &[u8],
) -> OrMemory<Answer>
    requires token { IsSized TOKEN_LEAST TOKEN_LIMIT (Some token.now) }
    requires ids { AllByRecursion (λ row. IsIdentifier row.id) rows.now }
    ensures message { IfOk result (λ answer. MessageIs (answer_to ids.now rows.now asked.now suites.now profiles.now items token.now) answer.message) }
    ensures ready { IfOk result (λ answer. answer.ready ≡ is_known asked.now suites.now profiles.now) }
{
    if !knows_version(&asked.versions) {
        return Ok(refusal(wrong_version(alloc, token)?));
    }
    if !(knows_suite(suites) && knows_profile(profiles)) {
        return Ok(refusal(wrong_suite(alloc, token)?));
    }
    let message = respond(alloc, ids, rows, asked, items, token)?;
    Ok(Answer {
        message,
        ready: true,
    })
}
