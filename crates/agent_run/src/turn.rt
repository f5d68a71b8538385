// One frame is answered.
ghost use Rattle.std.specs.Prelude.{◌≡◌, IsTrue};
ghost use Rattle.board_core.specs.Contents.{NothingPending};
ghost use Rattle.turn_loop.specs.Turns.{Turned, TurnCause};
ghost use Rattle.agent_core.specs.Turns.{Turn, StandsFor};
ghost use Rattle.agent_core.specs.Views.{standing};

use agent_core::Agent;
use base_types::Octets;
use board_core::Board;
use component_store::Store;
use std::thread::Threads;
use turn_loop::{Answer, TurnFault};

/// Answers one frame: the agent takes its turn, and then the reply goes to the output.
pub(crate) fn answer<R: Threads + AllocGlobal + Sync, S: Store, B: Board>(
    rt: &R,
    agent: &mut Agent<S>,
    board: &mut B,
    kind: u8,
    body: Octets,
) -> Answer
    requires live { IsTrue (agent.old.live) }
    requires extent { (B.view board.old).extent ≡ S.extent agent.old.store }
    ensures turned { B.told → NothingPending (B.view board.old) → S.keeps agent.old.store (B.view board.old).now.disk.bytes →
        Turned Turn StandsFor (standing S.state agent.old) (record { kind = kind; body = body }) (standing S.state agent.new) (S.keeps agent.new.store) (B.view board.old) (B.view board.new) result }
    ensures live { result ≡ Answer.Sent → IsTrue (agent.new.live) }
    ensures extent { S.extent agent.new.store ≡ S.extent agent.old.store }
    ensures cause { TurnCause result (B.view board.old) (B.view board.new) }
{
    let reply = match agent.deliver(rt, board, kind, body) {
        Ok(reply) => reply,
        Err(TurnFault::DiskFault) => return Answer::DiskFault,
        Err(TurnFault::NoMemory) => return Answer::NoMemory,
    };
    match board.send(reply.as_slice()) {
        Ok(()) => Answer::Sent,
        Err(_) => Answer::SendFault,
    }
}
