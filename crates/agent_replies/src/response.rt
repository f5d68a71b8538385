// The messages that are said to a question.
ghost use Rattle.std.specs.Prelude.{◌≡◌, ◌++◌, [], ◌∷◌, Some, IfOk, OnOk, map, if◌then◌else◌};
ghost use Rattle.std.specs.List.{AllByRecursion, filter};
ghost use Rattle.base_types.specs.declared.limits.TheConstants.{TOKEN_LEAST, TOKEN_LIMIT};
ghost use Rattle.cbor_fields.specs.Views.{IsIdentifier};
ghost use Rattle.teep_messages.specs.Messages.{MessageIs};
ghost use Rattle.teep_messages.specs.Options.{IsSized};
ghost use Rattle.teep_messages.specs.Proper.{IsProperMessage};
ghost use Rattle.agent_replies.specs.Parts.{error_of, response_of};
ghost use Rattle.agent_replies.specs.Saying.{bound_to, evidence_for, format_for, reported, reported_for, response, where_any, wrong_suite, wrong_version};

use crate::question::{asks_evidence, asks_manifests};
use base_types::{List, Octets, OrMemory, Utf8};
use device_state::RowHead;
use evidence::{DeviceIds, evidence_of};
use std::alloc::Global;
use teep_messages::{Message, Options, Reported};

// The error that no version is known (draft-ietf-teep-protocol, "Error Message").
const WRONG_VERSION: u64 = 4;

// The error that no cipher suite is known.
const WRONG_SUITE: u64 = 5;

// What the evidence is bound to.
fn bound_to<'a>(challenge: &'a Option<Octets>, token: &'a [u8]) -> &'a [u8]
    ensures { result.now ≡ bound_to challenge.now token.now }
{
    match challenge {
        Some(challenge) => challenge.as_slice(),
        None => token,
    }
}

// The evidence, where it is asked for.
fn evidence_for(
    alloc: Global,
    items: u64,
    ids: &DeviceIds,
    challenge: &[u8],
) -> OrMemory<Option<Octets>>
    ensures { IfOk result (λ evidence. evidence ≡ evidence_for items ids.now challenge.now) }
{
    if asks_evidence(items) {
        return Ok(Some(evidence_of(alloc, ids, challenge)?));
    }
    Ok(None)
}

// The media type of the evidence, where it is asked for.
fn format_for(alloc: Global, items: u64) -> OrMemory<Option<Utf8>>
    ensures { IfOk result (λ format. format ≡ format_for items) }
{
    if asks_evidence(items) {
        let format = Utf8::from_str(alloc, "application/x-teep-profile-evidence")?;
        return Ok(Some(format));
    }
    Ok(None)
}

// Puts a manifest at the end, where it is present.
fn push_present(alloc: Global, list: &mut List<Reported>, row: &RowHead) -> OrMemory<()>
    ensures { OnOk result (list.new ≡ list.old ++ (if row.now.present then reported row.now ∷ [] else [])) }
{
    if row.present {
        let id = row.id.try_clone(alloc)?;
        return list.push(Reported {
            id,
            sequence: row.sequence,
        });
    }
    Ok(())
}

// The manifests that are present.
fn present(alloc: Global, rows: &[RowHead]) -> OrMemory<List<Reported>>
    ensures { IfOk result (λ list. list ≡ map reported (filter (λ row. row.present) rows.now)) }
{
    let mut list = List::new(alloc);
    for row in rows {
        push_present(alloc, &mut list, row)?;
    }
    Ok(list)
}

// A list that has members.
fn where_any(list: List<Reported>) -> Option<List<Reported>>
    ensures { result ≡ where_any list }
{
    if list.is_empty() {
        return None;
    }
    Some(list)
}

// The manifests that are present, where they are asked for and there are any.
pub(crate) fn reported_for(
    alloc: Global,
    items: u64,
    rows: &[RowHead],
) -> OrMemory<Option<List<Reported>>>
    ensures { IfOk result (λ list. list ≡ reported_for items rows.now) }
{
    if asks_manifests(items) {
        return Ok(where_any(present(alloc, rows)?));
    }
    Ok(None)
}

// A message as its bytes.
fn written(alloc: Global, message: Message) -> OrMemory<Octets>
    requires { IsProperMessage message }
    ensures { IfOk result (λ bytes. MessageIs message bytes) }
{
    message.write(alloc)
}

// The QueryResponse of its parts.
fn response_of(
    alloc: Global,
    evidence: Option<Octets>,
    reported: Option<List<Reported>>,
    evidence_format: Option<Utf8>,
    token: Octets,
) -> Message
    ensures { result ≡ response_of evidence reported evidence_format token }
{
    Message::QueryResponse {
        options: Options {
            challenge: None,
            versions: None,
            selected: Some(0),
            evidence,
            reported,
            manifests: None,
            msg: None,
            err_msg: None,
            evidence_format,
            requested: None,
            unneeded: None,
            token: Some(token),
            other: List::new(alloc),
        },
    }
}

/// The QueryResponse to a question with these options and items.
pub fn respond(
    alloc: Global,
    ids: &DeviceIds,
    rows: &[RowHead],
    asked: &Options,
    items: u64,
    token: &[u8],
) -> OrMemory<Octets>
    requires token { IsSized TOKEN_LEAST TOKEN_LIMIT (Some token.now) }
    requires ids { AllByRecursion (λ row. IsIdentifier row.id) rows.now }
    ensures { IfOk result (λ bytes. MessageIs (response ids.now rows.now asked.now items token.now) bytes) }
{
    let echoed = Octets::from_slice(alloc, token)?;
    let evidence = evidence_for(alloc, items, ids, bound_to(&asked.challenge, token))?;
    let format = format_for(alloc, items)?;
    let reported = reported_for(alloc, items, rows)?;
    written(
        alloc,
        response_of(alloc, evidence, reported, format, echoed),
    )
}

// An Error of its parts.
fn error_of(alloc: Global, versions: Option<List<u64>>, token: Octets, code: u64) -> Message
    ensures { result ≡ error_of versions token code }
{
    Message::Error {
        options: Options {
            challenge: None,
            versions,
            selected: None,
            evidence: None,
            reported: None,
            manifests: None,
            msg: None,
            err_msg: None,
            evidence_format: None,
            requested: None,
            unneeded: None,
            token: Some(token),
            other: List::new(alloc),
        },
        code,
    }
}

/// Error 4, with the one version that is known.
pub fn wrong_version(alloc: Global, token: &[u8]) -> OrMemory<Octets>
    requires { IsSized TOKEN_LEAST TOKEN_LIMIT (Some token.now) }
    ensures { IfOk result (λ bytes. MessageIs (wrong_version token.now) bytes) }
{
    let echoed = Octets::from_slice(alloc, token)?;
    let mut versions = List::new(alloc);
    versions.push(0)?;
    written(
        alloc,
        error_of(alloc, Some(versions), echoed, WRONG_VERSION),
    )
}

/// Error 5.
pub fn wrong_suite(alloc: Global, token: &[u8]) -> OrMemory<Octets>
    requires { IsSized TOKEN_LEAST TOKEN_LIMIT (Some token.now) }
    ensures { IfOk result (λ bytes. MessageIs (wrong_suite token.now) bytes) }
{
    let echoed = Octets::from_slice(alloc, token)?;
    written(alloc, error_of(alloc, None, echoed, WRONG_SUITE))
}
