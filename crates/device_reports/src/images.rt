// The image of a component, as both texts take it from the store.
ghost use Rattle.std.specs.Prelude.{◌≡◌, Err, IfOk};
ghost use Rattle.device_reports.specs.Looking.{Looks};
ghost use Rattle.device_reports.specs.Images.{stored};

use base_types::Octets;
use board_core::Board;
use component_store::{LoadFault, Store};
use std::alloc::Global;

/// The image of the component that has the identifier, and no bytes where no component has it.
pub(crate) fn image_of<S: Store, B: Board>(
    alloc: Global,
    store: &S,
    board: &mut B,
    id: &[u8],
) -> Result<Octets, LoadFault>
    requires { (B.view board.old).extent ≡ S.extent store.now }
    ensures image { B.told → S.keeps store.now (B.view board.old).now.disk.bytes → IfOk result (λ image. image ≡ stored (S.state store.now).rows id.now) }
    ensures looks { Looks B.told (result ≡ Err LoadFault.DiskFault) (B.view board.old) (B.view board.new) }
{
    match store.image(alloc, board, id) {
        Ok(Some(image)) => Ok(image),
        Ok(None) => Ok(Octets::new(alloc)),
        Err(fault) => Err(fault),
    }
}
