ghost use Rattle.std.specs.Prelude.{◌≡◌, ℕ, List};

use crate::heads::RowHead;
use crate::rows::ManifestRow;

/// What stands among others in ascending order of its identifier.
pub trait HasId {
    ghost id_of: { Self → List ℕ };

    /// The encoding of the identifier.
    fn id(&self) -> &[u8]
        ensures { result.now ≡ id_of self.now };
}

impl HasId for ManifestRow {
    ghost id_of = { λ row. row.id };

    fn id(&self) -> &[u8] {
        self.id.as_slice()
    }
}

impl HasId for RowHead {
    ghost id_of = { λ head. head.id };

    fn id(&self) -> &[u8] {
        self.id.as_slice()
    }
}
