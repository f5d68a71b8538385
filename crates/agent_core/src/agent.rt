ghost use Rattle.std.specs.Prelude.{◌≡◌, Err, true, false, IfOk, OnOk, OnErr, length};
ghost use Rattle.board_core.specs.Contents.{NothingPending, Same, Silent};
ghost use Rattle.board_core.specs.Calls.{DiskCausedBy};
ghost use Rattle.board_core.specs.Moments.{Passes};
ghost use Rattle.device_state.specs.State.{next};
ghost use Rattle.frames.specs.Frames.{Frame, frame_bytes};
ghost use Rattle.turn_loop.specs.Turning.{TurnsTo, WithinTurn};
ghost use Rattle.agent_core.specs.Events.{event_in};
ghost use Rattle.agent_core.specs.Hearing.{HasLeaf};
ghost use Rattle.agent_core.specs.Saying.{Carries, WithinSaying};
ghost use Rattle.agent_core.specs.Turns.{refusal_frame};
ghost use Rattle.agent_core.specs.declared.session.Session.TheVariants as sessions;

use crate::event::{Event, event_of};
use crate::hearing::{Heard, hear};
use crate::leaf::use_leaf;
use crate::refusal::Refusal;
use crate::reply::{message_reply, refusal_reply};
use crate::session::Session;
use base_types::{Octets, OrMemory};
use board_core::Board;
use component_store::Store;
use hss_sign::Key;
use std::alloc::Global;
use std::marker::Model;
use std::thread::Threads;
use turn_loop::TurnFault;

// How many workers grow the trees of a device's key.
const WORKERS: usize = 4;

/// The agent of a device. It answers each event by one reply, and listens to its manager alone.
///
/// What it says is signed, each message at a leaf of the device's key of its own, and the leaf is durably
/// used before the message is handed out. Contracts see the agent as its store, its session with the
/// manager, and whether it may be handed events.
#[derive(Drop)]
pub struct Agent<S: Store> {
    store: S,
    key: Key,
    session: Session,
    live: bool,
}

impl<S: Store> Model for Agent<S> {
    ghost use Rattle.std.specs.Prelude.{◌≡◌};
    ghost use Rattle.agent_core.specs.Turns.{key_of};
    ghost use Rattle.agent_core.specs.Views.{AgentView};

    ghost Value = { AgentView S };

    ghost view = { λ it. record { store = it.store; session = it.session; live = it.live } };

    // its key is that of its device
    ghost invariant = { λ it. it.key ≡ key_of (S.state it.store).config };
}

impl<S: Store + Drop> Agent<S> {
    /// The agent of the device whose store this is, with no session. It grows the trees of the device's
    /// key, by four workers. Refused for want of memory alone.
    pub fn new<R: Threads + AllocGlobal + Sync>(rt: &R, store: S) -> OrMemory<Agent<S>>
        ensures { IfOk result (λ agent. agent ≡ record { store = store; session = sessions.Closed; live = true }) }
    {
        let config = store.config();
        let params = config.params;
        let seed = seed_of(config.key_seed.as_slice());
        let key = Key::grow(rt, params, &seed, store.leaf(), WORKERS)?;
        Ok(Agent {
            store,
            key,
            session: Session::Closed,
            live: true,
        })
    }
}

impl<S: Store> Agent<S> {
    ghost use Rattle.agent_core.specs.Turns.{Turn, StandsFor};
    ghost use Rattle.agent_core.specs.Views.{standing};

    // The turn that an event leads to, for each frame that brings it.
    fn turn<R: Threads + AllocGlobal + Sync, B: Board>(
        &mut self,
        rt: &R,
        board: &mut B,
        event: &Event,
    ) -> Result<Octets, TurnFault>
        requires extent { (B.view board.old).extent ≡ S.extent self.old.store }
        ensures turns { (frame : Frame) → event_in frame ≡ event.now → IfOk result (TurnsTo Turn (standing S.state self.old) frame (standing S.state self.new)) }
        ensures live { self.new.live ≡ self.old.live }
        ensures keeps { B.told → S.keeps self.old.store (B.view board.old).now.disk.bytes → OnOk result (S.keeps self.new.store (B.view board.new).now.disk.bytes) }
        ensures clean { B.told → NothingPending (B.view board.old) → OnOk result (NothingPending (B.view board.new)) }
        ensures extent { S.extent self.new.store ≡ S.extent self.old.store }
        ensures cause { DiskCausedBy (result ≡ Err TurnFault.DiskFault) (B.view board.old) (B.view board.new) }
        ensures silent { B.told → Silent (B.view board.old) (B.view board.new) }
        ensures nothing_put { B.told → result ≡ Err TurnFault.NoMemory → Same (B.view board.old) (B.view board.new) }
        ensures moments { (frame : Frame) → event_in frame ≡ event.now → B.told → NothingPending (B.view board.old) → S.keeps self.old.store (B.view board.old).now.disk.bytes →
            Passes (B.view board.old) (B.view board.new) (WithinTurn Turn StandsFor (standing S.state self.old) frame (B.view board.old)) }
    {
        match hear(rt.alloc(), &self.store, event) {
            Ok(Heard::Refused(refusal)) => refuse(rt.alloc(), refusal),
            Ok(Heard::Says { payload, session }) => {
                self.say(rt, board, payload.as_slice(), session)
            }
            Err(_) => Err(TurnFault::NoMemory),
        }
    }

    // Says this message, encoded, and the session is this behind it. It is signed before the leaf is used.
    fn say<R: Threads + AllocGlobal + Sync, B: Board>(
        &mut self,
        rt: &R,
        board: &mut B,
        payload: &[u8],
        session: Session,
    ) -> Result<Octets, TurnFault>
        requires leaf { HasLeaf (S.state self.old.store) }
        requires extent { (B.view board.old).extent ≡ S.extent self.old.store }
        ensures carries { IfOk result (Carries (S.state self.old.store) payload.now) }
        ensures live { self.new.live ≡ self.old.live }
        ensures used { OnOk result (standing S.state self.new ≡ record { state = next (S.state self.old.store); session = session }) }
        ensures keeps { B.told → S.keeps self.old.store (B.view board.old).now.disk.bytes → OnOk result (S.keeps self.new.store (B.view board.new).now.disk.bytes) }
        ensures clean { B.told → OnOk result (NothingPending (B.view board.new)) }
        ensures extent { S.extent self.new.store ≡ S.extent self.old.store }
        ensures cause { DiskCausedBy (result ≡ Err TurnFault.DiskFault) (B.view board.old) (B.view board.new) }
        ensures silent { B.told → Silent (B.view board.old) (B.view board.new) }
        ensures nothing_put { B.told → result ≡ Err TurnFault.NoMemory → Same (B.view board.old) (B.view board.new) }
        ensures moments { B.told → NothingPending (B.view board.old) → S.keeps self.old.store (B.view board.old).now.disk.bytes →
            Passes (B.view board.old) (B.view board.new) (WithinSaying (S.state self.old.store) payload.now (B.view board.old)) }
    {
        let Ok(reply) = message_reply(rt, &mut self.key, &self.store, payload) else {
            return Err(TurnFault::NoMemory);
        };
        match use_leaf(&mut self.store, rt.alloc(), board) {
            Ok(()) => {
                self.session = session;
                Ok(reply)
            }
            Err(fault) => Err(fault),
        }
    }
}

// The seed of a key as an array.
fn seed_of(bytes: &[u8]) -> [u8; 32]
    requires { length bytes.now ≡ 32 }
    ensures { result ≡ bytes.now }
{
    let mut seed = [0; 32];
    seed.copy_from_slice(bytes);
    seed
}

// The reply that refuses an event.
fn refuse(alloc: Global, refusal: Refusal) -> Result<Octets, TurnFault>
    ensures bytes { IfOk result (λ bytes. bytes ≡ frame_bytes (refusal_frame refusal)) }
    ensures memory { OnErr result (result ≡ Err TurnFault.NoMemory) }
{
    match refusal_reply(alloc, refusal) {
        Ok(reply) => Ok(reply),
        Err(_) => Err(TurnFault::NoMemory),
    }
}

impl<S: Store> Agent<S> {
    ghost use Rattle.std.specs.Prelude.{IsTrue};
    ghost use Rattle.agent_core.specs.Turns.{Turn, StandsFor};
    ghost use Rattle.agent_core.specs.Views.{standing};

    /// Takes one turn: the reply to the event that a frame brings, as the bytes of a frame. Nothing is read
    /// or sent.
    ///
    /// A message is a COSE_Sign1 (RFC 9052, section 4.2) that one of the manager's keys signed. A
    /// question is answered by `answer_question`, in a frame of kind 0x81: one leaf of the key is used
    /// then, and the session is ready with the question's token, or closed behind an error. All else is
    /// refused, in a frame of kind 0x82, for the first reason that holds (`Refusal`), and nothing changes.
    ///
    /// The reply is built and signed, and the change prepared, before the first byte is put. `DiskFault`
    /// exactly where the count of failed disk calls rose in this call. `NoMemory` may come for any frame;
    /// nothing was put then. After either the agent is handed no further frame. The board is one whose
    /// image has the length that the store's has. At each moment a crash leaves the state before the frame
    /// or the one behind it.
    pub fn deliver<R: Threads + AllocGlobal + Sync, B: Board>(
        &mut self,
        rt: &R,
        board: &mut B,
        kind: u8,
        body: Octets,
    ) -> Result<Octets, TurnFault>
        requires live { IsTrue self.old.live }
        requires extent { (B.view board.old).extent ≡ S.extent self.old.store }

        // The turn is taken, the board has what it led to, and nothing is pending.
        ensures turns { IfOk result (TurnsTo Turn (standing S.state self.old) (record { kind = kind; body = body }) (standing S.state self.new)) }
        ensures keeps { B.told → S.keeps self.old.store (B.view board.old).now.disk.bytes → OnOk result (S.keeps self.new.store (B.view board.new).now.disk.bytes) }
        ensures clean { B.told → NothingPending (B.view board.old) → OnOk result (NothingPending (B.view board.new)) }
        ensures live { OnOk result (IsTrue self.new.live) }
        ensures spent { OnErr result (self.new.live ≡ false) }

        // Whatever it answers.
        ensures extent { S.extent self.new.store ≡ S.extent self.old.store }
        ensures cause { DiskCausedBy (result ≡ Err TurnFault.DiskFault) (B.view board.old) (B.view board.new) }
        ensures silent { B.told → Silent (B.view board.old) (B.view board.new) }
        ensures nothing_put { B.told → result ≡ Err TurnFault.NoMemory → Same (B.view board.old) (B.view board.new) }
        ensures moments { B.told → NothingPending (B.view board.old) → S.keeps self.old.store (B.view board.old).now.disk.bytes →
            Passes (B.view board.old) (B.view board.new) (WithinTurn Turn StandsFor (standing S.state self.old) (record { kind = kind; body = body }) (B.view board.old)) }
    {
        let event = event_of(kind, body);
        self.live = false;
        let reply = self.turn(rt, board, &event)?;
        self.live = true;
        Ok(reply)
    }
}
