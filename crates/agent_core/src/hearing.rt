// What an agent makes of an event, before anything of it is durable.
ghost use Rattle.std.specs.Prelude.{◌≡◌, ◌↔◌, false, IfOk, IsTrue};
ghost use Rattle.base_types.specs.declared.limits.TheConstants.{TOKEN_LEAST, TOKEN_LIMIT};
ghost use Rattle.std.specs.List.{AllByRecursion};
ghost use Rattle.cbor_fields.specs.Views.{IsIdentifier};
ghost use Rattle.cose_core.specs.Borrowed.{IsPartsOf};
ghost use Rattle.cose_core.specs.declared.sign1.Sign1.{Sign1};
ghost use Rattle.hss_sign.specs.Params.{capacity};
ghost use Rattle.device_state.specs.Heads.{heads};
ghost use Rattle.teep_messages.specs.Options.{IsSized};
ghost use Rattle.agent_core.specs.Answers.{Answers, AnswersContent, AnswersPayload, message_answer, question_answer};
ghost use Rattle.agent_core.specs.Hearing.{Hears, HasLeaf, HasSizedToken, session_of};

use crate::event::Event;
use crate::refusal::Refusal;
use crate::session::Session;
use agent_replies::answer_question;
use base_types::{NoMemory, Octets, OrMemory};
use component_store::{RowHead, Store};
use cose_core::Signed;
use std::alloc::Global;
use teep_messages::{Message, MessageFault, Options, Profile, Suite};
use trust_anchors::{Role, SignFault};

/// What an event comes to.
#[derive(Drop)]
pub(crate) enum Heard {
    /// It is refused.
    Refused(Refusal),
    /// This message, encoded, is to be said, and the session is this behind it.
    Says { payload: Octets, session: Session },
}

/// What an event comes to in the state of the store. Refused for want of memory alone.
pub(crate) fn hear<S: Store>(alloc: Global, store: &S, event: &Event) -> OrMemory<Heard>
    ensures { IfOk result (Hears (S.state store.now) (Answers (S.state store.now) event.now)) }
{
    match event {
        Event::Message(bytes) => hear_bytes(alloc, store, bytes.as_slice()),
        _ => Ok(Heard::Refused(Refusal::Kind)),
    }
}

/// The same of the bytes of a message. Nothing of them is built before they are signed.
fn hear_bytes<S: Store>(alloc: Global, store: &S, bytes: &[u8]) -> OrMemory<Heard>
    ensures { IfOk result (Hears (S.state store.now) (Answers (S.state store.now) (Event.Message bytes.now))) }
{
    match Signed::read(bytes) {
        Ok(envelope) => hear_envelope(alloc, store, &envelope),
        Err(_) => Ok(Heard::Refused(Refusal::NotCose)),
    }
}

/// The same of a COSE_Sign1, by its parts.
fn hear_envelope<S: Store>(alloc: Global, store: &S, envelope: &Signed<'_>) -> OrMemory<Heard>
    ensures { (value : Sign1) → IsPartsOf envelope.now value → IfOk result (Hears (S.state store.now) (AnswersContent (S.state store.now) value value.payload)) }
{
    let Some(payload) = envelope.payload else {
        return Ok(Heard::Refused(Refusal::NotCose));
    };
    let anchors = &store.config().anchors;
    match anchors.verified_signed(alloc, Role::Manager, envelope, payload) {
        Ok(_) => hear_payload(alloc, store, payload),
        Err(SignFault::NotSigned) => Ok(Heard::Refused(Refusal::NotSigned)),
        Err(SignFault::NoMemory) => Err(NoMemory),
    }
}

/// The same of the payload of a signed message.
fn hear_payload<S: Store>(alloc: Global, store: &S, payload: &[u8]) -> OrMemory<Heard>
    ensures { IfOk result (Hears (S.state store.now) (AnswersPayload (S.state store.now) payload.now)) }
{
    match Message::read(alloc, payload) {
        Ok(message) => hear_read(alloc, store, message),
        Err(fault) => refuse_message(&fault),
    }
}

/// A payload that is no message, for this reason, is refused, unless it is want of memory.
fn refuse_message(fault: &MessageFault) -> OrMemory<Heard>
    ensures { IfOk result (λ it. (fault.now ≡ MessageFault.NoMemory → ⊥) × (it ≡ Heard.Refused Refusal.NotMessage)) }
{
    if *fault == MessageFault::NoMemory {
        return Err(NoMemory);
    }
    Ok(Heard::Refused(Refusal::NotMessage))
}

/// What a message comes to that was read, which goes with it.
fn hear_read<S: Store>(alloc: Global, store: &S, message: Message) -> OrMemory<Heard>
    requires { HasSizedToken message }
    ensures { IfOk result (Hears (S.state store.now) (λ answer. answer ≡ message_answer (S.state store.now) message)) }
{
    hear_message(alloc, store, &message)
}

/// The same of a message whose token has its size.
fn hear_message<S: Store>(alloc: Global, store: &S, message: &Message) -> OrMemory<Heard>
    requires { HasSizedToken message.now }
    ensures { IfOk result (Hears (S.state store.now) (λ answer. answer ≡ message_answer (S.state store.now) message.now)) }
{
    match message {
        Message::QueryRequest {
            options,
            suites,
            profiles,
            items,
        } => hear_question(
            alloc,
            store,
            options,
            suites.as_slice(),
            profiles.as_slice(),
            *items,
        ),
        _ => Ok(Heard::Refused(Refusal::NotForAgent)),
    }
}

/// The same of a question, whose token has its size. The key is looked at behind the token.
fn hear_question<S: Store>(
    alloc: Global,
    store: &S,
    asked: &Options,
    suites: &[Suite],
    profiles: &[Profile],
    items: u64,
) -> OrMemory<Heard>
    requires { IsSized TOKEN_LEAST TOKEN_LIMIT asked.now.token }
    ensures { IfOk result (Hears (S.state store.now)
        (λ answer. answer ≡ question_answer (S.state store.now) asked.now suites.now profiles.now items asked.now.token)) }
{
    let Some(token) = &asked.token else {
        return Ok(Heard::Refused(Refusal::NotMessage));
    };
    if is_spent(store) {
        return Ok(Heard::Refused(Refusal::KeySpent));
    }
    let rows = rows_of(store);
    let ids = &store.config().device;
    let token = token.as_slice();
    let answer = answer_question(alloc, ids, rows, asked, suites, profiles, items, token)?;
    let session = session_behind(alloc, answer.ready, token)?;
    Ok(Heard::Says {
        payload: answer.message,
        session,
    })
}

/// Whether every leaf of the device's key is used.
fn is_spent<S: Store>(store: &S) -> bool
    ensures spent { IsTrue result ↔ ((S.state store.now).leaf ≡ capacity (S.state store.now).config.params) }
    ensures left { result ≡ false → HasLeaf (S.state store.now) }
{
    // no device has used more leaves than there are
    let _weight = store.weight();
    let params = store.config().params;
    store.leaf() == 1 << (params.levels * params.height)
}

/// The manifests, whose identifiers are identifiers.
fn rows_of<S: Store>(store: &S) -> &[RowHead]
    ensures rows { result.now ≡ heads (S.state store.now).rows }
    ensures ids { AllByRecursion (λ row. IsIdentifier row.id) result.now }
{
    // it is a valid state that weighs so much
    let _weight = store.weight();
    store.rows().as_slice()
}

/// The session behind an answer to a question with this token.
fn session_behind(alloc: Global, ready: bool, token: &[u8]) -> OrMemory<Session>
    ensures { IfOk result (λ session. session ≡ session_of ready token.now) }
{
    if !ready {
        return Ok(Session::Closed);
    }
    Ok(Session::Ready(Octets::from_slice(alloc, token)?))
}
