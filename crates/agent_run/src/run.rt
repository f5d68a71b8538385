ghost use Rattle.std.specs.Prelude.{◌≡◌, ◌≢◌, ◌↔◌, IsTrue, List};
ghost use Rattle.board_core.specs.Contents.{NothingPending};
ghost use Rattle.frames.specs.Frames.{Frame};
ghost use Rattle.frames.specs.Reading.{End, Events};
ghost use Rattle.turn_loop.specs.Promised.{Survives};
ghost use Rattle.turn_loop.specs.Outcome.{Ran, StopCause, NothingFailed, Completed};
ghost use Rattle.agent_core.specs.Views.{standing};
ghost use Rattle.device_state.specs.State.{State};
ghost use Rattle.device_image.specs.Stands.{Stands};
ghost use Rattle.agent_core.specs.Turns.{Turn, StandsFor, started};
ghost use Rattle.agent_run.specs.Outcome.{Mounted, Unmounted, RanToEnd, RunCause};
ghost use Rattle.agent_core.specs.declared.session.Session.TheVariants as sessions;
ghost use Rattle.agent_run.specs.Outcome.{RanFrom};
ghost use Rattle.agent_run.specs.Running.{StoreRan};
ghost use Rattle.agent_run.specs.Statuses.{IsEnding};
ghost use Rattle.agent_run.specs.Words.{IsRun};

use crate::status::Status;
use crate::turn::answer;
use crate::words::is_run;
use agent_core::Agent;
use base_types::{FRAME_IN_LIMIT, INPUT_LIMIT};
use board_core::Board;
use component_store::{MountFault, Store, mount};
use device_image::one_state;
use frames::{Budget, Next};
use std::thread::Threads;
use turn_loop::{Answer, Stop, look};

/// Runs the agent: the words of the command line, and a board for input, output and the image of the
/// device.
///
/// The words are looked at first: `Usage` exactly where they are not `run` alone, and the board is
/// untouched then. Then the image is mounted and the trees of the device's key are grown. Then each frame
/// of the input is answered, one after the other, and the first status that arises is the answer:
///
/// - `BadImage` exactly where the image stands for no state and no disk call failed. Nothing is taken or
///   sent.
/// - `Done`, `CutFrame`, `LongFrame`, `InputSpent` exactly by the end of the input where nothing
///   failed: it ended between two frames, inside a frame, a frame says a length above 2^24 bytes, or
///   2^40 bytes were taken and another is needed. Every frame before that end is answered.
/// - `ReadFault` exactly where the count of failed reads rose in this call. Every frame taken is answered.
/// - `SendFault` exactly where the count of failed sends rose in this call. Every frame taken but the last
///   is answered; what the last changes is durable, and a front of its answer may be sent.
/// - `DiskFault` exactly where the count of failed disk calls rose in this call: in mounting, or in the
///   turn of the last frame taken, of whose answer nothing is sent.
/// - `NoMemory` before a frame was taken whole, where every frame taken is answered, or in the turn of the
///   last frame, of which nothing is put or sent then.
///
/// **Whatever bytes come, a crash at any moment leaves an image that stands for the state behind a prefix
/// of the frames that were taken, and of the answers to that prefix all but the last were sent whole and of
/// the last a front** (`any_moment`): so it has each change whose answer has begun to be sent.
///
/// At most 2^40 bytes are taken.
pub fn run_agent<R: Threads + AllocGlobal + Sync, B: Board>(
    rt: &R,
    words: &[String],
    board: &mut B,
) -> Status
    ensures usage { result ≡ Status.Usage ↔ (IsRun words.now → ⊥) }
    ensures untouched { result ≡ Status.Usage → board.new ≡ board.old }

    // At any moment of the run, from its start on, a crash leaves what is promised.
    ensures any_moment { B.told → IsRun words.now → NothingPending (B.view board.old) → (s : State) → Stands (B.view board.old).now.disk.bytes s →
        Survives Turn StandsFor (started s) FRAME_IN_LIMIT (B.view board.old) (B.view board.new) }

    // Over the image of a device: what was taken, what was sent and what the image stands for, by the status.
    ensures ran { B.told → IsRun words.now → NothingPending (B.view board.old) → (s : State) → Stands (B.view board.old).now.disk.bytes s →
        Mounted s result (B.view board.old) (B.view board.new) }

    // Over any other image: nothing was taken or sent.
    ensures unmounted { B.told → IsRun words.now → ((s : State) → Stands (B.view board.old).now.disk.bytes s → ⊥) →
        Unmounted result (B.view board.old) (B.view board.new) }
    ensures bad_image { B.told → result ≡ Status.BadImage → (s : State) → Stands (B.view board.old).now.disk.bytes s → ⊥ }

    // Where nothing failed and memory was there, the end of the input decides, and all of it is answered.
    ensures complete { B.told → IsRun words.now → NothingPending (B.view board.old) → (s : State) → Stands (B.view board.old).now.disk.bytes s →
        NothingFailed (B.view board.old) (B.view board.new) → result ≢ Status.NoMemory →
        (frames : List Frame) (end : End) → Events FRAME_IN_LIMIT INPUT_LIMIT (B.view board.old).now.stream.rest frames end →
        RanToEnd s result end frames (B.view board.old) (B.view board.new) }
    ensures cause { RunCause result (B.view board.old) (B.view board.new) }
{
    if !is_run(words) {
        return Status::Usage;
    }
    one_state();
    match mount(rt.alloc(), board) {
        Ok(store) => run_store(rt, store, board),
        Err(MountFault::BadImage) => Status::BadImage,
        Err(MountFault::DiskFault) => Status::DiskFault,
        Err(MountFault::NoMemory) => Status::NoMemory,
    }
}

// Answers each frame of the input, by the agent of the device with this store.
fn run_store<R: Threads + AllocGlobal + Sync, S: Store + Drop, B: Board>(
    rt: &R,
    store: S,
    board: &mut B,
) -> Status
    requires extent { (B.view board.old).extent ≡ S.extent store }
    ensures ran { B.told → NothingPending (B.view board.old) → S.keeps store (B.view board.old).now.disk.bytes →
        StoreRan (S.state store) result (B.view board.old) (B.view board.new) }
    ensures exactly { B.told → NothingPending (B.view board.old) → S.keeps store (B.view board.old).now.disk.bytes →
        NothingFailed (B.view board.old) (B.view board.new) → result ≢ Status.NoMemory →
        (frames : List Frame) (end : End) → Events FRAME_IN_LIMIT INPUT_LIMIT (B.view board.old).now.stream.rest frames end →
        RanToEnd (S.state store) result end frames (B.view board.old) (B.view board.new) }
    ensures ends { IsEnding result }
    ensures cause { RunCause result (B.view board.old) (B.view board.new) }
{
    match Agent::new(rt, store) {
        Ok(agent) => run_device(rt, agent, board),
        Err(_) => Status::NoMemory,
    }
}

// Answers each frame of the input, by this agent.
fn run_device<R: Threads + AllocGlobal + Sync, S: Store + Drop, B: Board>(
    rt: &R,
    mut agent: Agent<S>,
    board: &mut B,
) -> Status
    requires closed { agent.session ≡ sessions.Closed }
    requires live { IsTrue agent.live }
    requires extent { (B.view board.old).extent ≡ S.extent agent.store }
    ensures ran { B.told → NothingPending (B.view board.old) → S.keeps agent.store (B.view board.old).now.disk.bytes →
        RanFrom (S.state agent.store) result (B.view board.old) (B.view board.new) }
    ensures exactly { B.told → NothingPending (B.view board.old) → S.keeps agent.store (B.view board.old).now.disk.bytes →
        NothingFailed (B.view board.old) (B.view board.new) → result ≢ Status.NoMemory →
        (frames : List Frame) (end : End) → Events FRAME_IN_LIMIT INPUT_LIMIT (B.view board.old).now.stream.rest frames end →
        RanToEnd (S.state agent.store) result end frames (B.view board.old) (B.view board.new) }
    ensures ends { IsEnding result }
    ensures cause { RunCause result (B.view board.old) (B.view board.new) }
{
    Status::from(run_frames(rt, &mut agent, board))
}

// Answers each frame of the input. What the statuses of a run say, by the stop.
fn run_frames<R: Threads + AllocGlobal + Sync, S: Store, B: Board>(
    rt: &R,
    agent: &mut Agent<S>,
    board: &mut B,
) -> Stop
    requires live { IsTrue (agent.old.live) }
    requires extent { (B.view board.old).extent ≡ S.extent agent.old.store }

    // At each moment of the run a crash leaves what is promised; and what was taken, what was sent and what the image
    // stands for at its end, by the stop.
    ensures ran { B.told → NothingPending (B.view board.old) → S.keeps agent.old.store (B.view board.old).now.disk.bytes →
        Ran Turn StandsFor (standing S.state agent.old) FRAME_IN_LIMIT INPUT_LIMIT result (B.view board.old) (B.view board.new) }

    // Where nothing failed, the end of the input decides, and all its frames are answered.
    ensures exactly { B.told → NothingPending (B.view board.old) → S.keeps agent.old.store (B.view board.old).now.disk.bytes →
        NothingFailed (B.view board.old) (B.view board.new) → result ≢ Stop.NoMemory →
        (frames : List Frame) (end : End) → Events FRAME_IN_LIMIT INPUT_LIMIT (B.view board.old).now.stream.rest frames end →
        Completed Turn StandsFor (standing S.state agent.old) result end frames (B.view board.old).now.stream.sent (B.view board.new) }
    ensures cause { StopCause result (B.view board.old) (B.view board.new) }
{
    answer_each(rt, agent, board)
}

// Answers each frame of the input.
fn answer_each<R: Threads + AllocGlobal + Sync, S: Store, B: Board>(
    rt: &R,
    agent: &mut Agent<S>,
    board: &mut B,
) -> Stop
    requires live { IsTrue (agent.old.live) }
    requires extent { (B.view board.old).extent ≡ S.extent agent.old.store }
    ensures ran { B.told → NothingPending (B.view board.old) → S.keeps agent.old.store (B.view board.old).now.disk.bytes →
        Ran Turn StandsFor (standing S.state agent.old) FRAME_IN_LIMIT INPUT_LIMIT result (B.view board.old) (B.view board.new) }
    ensures cause { StopCause result (B.view board.old) (B.view board.new) }
{
    let mut budget = Budget::new(INPUT_LIMIT);
    loop {
        match look(rt.alloc(), board, &mut budget) {
            Next::Got { kind, body } => match answer(rt, agent, board, kind, body) {
                Answer::Sent => {}
                Answer::SendFault => return Stop::SendFault,
                Answer::DiskFault => return Stop::DiskFault,
                Answer::NoMemory => return Stop::NoMemory,
            },
            Next::Whole => return Stop::Whole,
            Next::Long => return Stop::Long,
            Next::Cut => return Stop::Cut,
            Next::Spent => return Stop::Spent,
            Next::ReadFault => return Stop::ReadFault,
            Next::NoMemory => return Stop::NoMemory,
        }
    }
}
