// What a device keeps besides its configuration, as the agent uses it.
ghost use Rattle.std.specs.Prelude.{◌≡◌, Err, IfOk, OnOk, OnErr, ℕ, List};
ghost use Rattle.board_core.specs.Contents.{NothingPending, Same, Silent};
ghost use Rattle.board_core.specs.Calls.{DiskCause, DiskCausedBy};
ghost use Rattle.board_core.specs.Moments.{Passes, NoMoment, OldOrNew};
ghost use Rattle.device_state.specs.State.{State, changed};
ghost use Rattle.device_state.specs.State as States;
ghost use Rattle.device_state.specs.Heads as Heads;
ghost use Rattle.device_state.specs.Valid.{IsValid};
ghost use Rattle.device_image.specs.Held.{IsDevice};
ghost use Rattle.device_image.specs.Stands.{Stands};
ghost use Rattle.component_store.specs.Keeping.{image_in};
ghost use Rattle.component_store.specs.Preparing.{MayFollow};
ghost use Rattle.component_store.specs.Outcome.{HasRoom};

use crate::fault::{LoadFault, PrepareFault};
use crate::prepared::Prepared;
use base_types::{Failed, List, Octets};
use board_core::Board;
use device_config::Config;
use device_state::{Change, RowHead};
use std::alloc::Global;

/// The state of a device, kept in the image of a board so that no crash tears it.
///
/// A store belongs to the board that it was mounted from. Each call that is handed a board is handed one
/// whose image has the length that it had then; where the board tells its contents, they say what the
/// store keeps (`keeps`).
pub trait Store {
    ghost use Rattle.component_store.specs.declared.prepared.Prepared.{Prepared};

    /// The state of the device.
    ghost state: { Self → State };

    /// The length of the image, in bytes.
    ghost extent: { Self → ℕ };

    /// It is the store of this image.
    ghost keeps: { Self → List ℕ → Type 0 };

    /// The change was prepared for the store as it stands. Nothing is said of it behind a later call of
    /// `prepare` or `commit`.
    ghost ready: { Self → Prepared → Type 0 };

    /// The configuration, with the anchors of the present.
    fn config(&self) -> &Config
        ensures config { result.now ≡ (state self.now).config }
        ensures device { IsDevice (state self.now).config };

    /// How many leaves of the key are used.
    fn leaf(&self) -> u64
        ensures { result ≡ (state self.now).leaf };

    /// What the device keeps weighs so much, in bytes: at most its quota.
    fn weight(&self) -> u64
        ensures weight { result ≡ States.weight (state self.now) }
        ensures valid { IsValid (state self.now) };

    /// The manifests, in ascending order of their identifiers, without the bytes of their components.
    fn rows(&self) -> &List<RowHead>
        ensures { result.now ≡ Heads.heads (state self.now).rows };

    /// The image of the component that has the identifier, or none where no component has it.
    ///
    /// `DiskFault` exactly where the count of failed disk calls rose in this call. `NoMemory` may come for
    /// any component. It loads at most, and changes nothing.
    fn image<B: Board>(
        &self,
        alloc: Global,
        board: &mut B,
        id: &[u8],
    ) -> Result<Option<Octets>, LoadFault>
        requires { (B.view board.old).extent ≡ extent self.now }
        ensures image { B.told → keeps self.now (B.view board.old).now.disk.bytes → IfOk result (λ image. image ≡ image_in id.now (state self.now).rows) }
        ensures cause { DiskCausedBy (result ≡ Err LoadFault.DiskFault) (B.view board.old) (B.view board.new) }
        ensures same { B.told → Same (B.view board.old) (B.view board.new) }
        ensures moments { B.told → Passes (B.view board.old) (B.view board.new) NoMoment };

    /// Makes a change ready: all that its commit needs is taken here, so that the commit takes no memory.
    /// The state stays.
    ///
    /// `Room` exactly where the changed state weighs more than the quota, unless memory runs out first.
    fn prepare(&mut self, alloc: Global, change: &Change) -> Result<Prepared, PrepareFault>
        requires { MayFollow change.now (state self.old) }
        ensures change { IfOk result (λ p. p.change ≡ change.now) }
        ensures ready { IfOk result (ready self.new) }
        ensures room { HasRoom (changed change.now (state self.old)) result }
        ensures state { state self.new ≡ state self.old }
        ensures extent { extent self.new ≡ extent self.old }
        ensures keeps { (image : List ℕ) → keeps self.old image → keeps self.new image };

    /// Makes the change durable. It takes no memory.
    ///
    /// `Failed` exactly where the count of failed disk calls rose in this call; the store is spent then, and
    /// the image is mounted again before further use. At each moment a crash leaves the state before the
    /// change or the one behind it.
    fn commit<B: Board>(&mut self, board: &mut B, prepared: Prepared) -> Result<(), Failed>
        requires ready { ready self.old prepared }
        requires extent { (B.view board.old).extent ≡ extent self.old }

        // The state is the changed one, the board has it, and nothing is pending.
        ensures state { OnOk result (state self.new ≡ changed prepared.change (state self.old)) }
        ensures keeps { B.told → keeps self.old (B.view board.old).now.disk.bytes → OnOk result (keeps self.new (B.view board.new).now.disk.bytes) }
        ensures clean { B.told → OnOk result (NothingPending (B.view board.new)) }

        // Whatever it answers.
        ensures kept { OnErr result (state self.new ≡ state self.old) }
        ensures extent { extent self.new ≡ extent self.old }
        ensures cause { DiskCause (B.view board.old) (B.view board.new) result }
        ensures silent { B.told → Silent (B.view board.old) (B.view board.new) }
        ensures moments { B.told → NothingPending (B.view board.old) → keeps self.old (B.view board.old).now.disk.bytes →
            Passes (B.view board.old) (B.view board.new) (OldOrNew Stands (state self.old) (changed prepared.change (state self.old)) (B.view board.old)) };

    /// The image of a store stands for its state.
    ghost stands: { (s : Self) (image : List ℕ) → keeps s image → Stands image (state s) };
}
