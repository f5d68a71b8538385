// A new image for a device.
ghost use Rattle.std.specs.Prelude.{◌≡◌, ◌≤◌, [], IfOk};
ghost use Rattle.base_types.specs.declared.limits.TheConstants.{QUOTA_LIMIT};
ghost use Rattle.device_config.specs.Config.{IsConfig};
ghost use Rattle.device_config.specs.Image.{IsImage, IsNewImage, journal_region};
ghost use Rattle.journal_core.specs.Region.{RegionStands};

use crate::config::Config;
use crate::head::{HEAD_SIZE, head_of, push_zeros};
use base_types::{Octets, OrMemory};
use journal_core::Region;
use std::alloc::Global;

/// Where the journal of a device with this quota lies: behind the head of its image.
pub fn journal_of(quota: u64) -> Region
    requires { quota ≤ QUOTA_LIMIT }
    ensures region { result ≡ journal_region quota }
{
    Region {
        at: HEAD_SIZE as u64,
        half: 2 * quota + 65_536,
    }
}

/// The image of a new device: the head with its configuration, and a journal of zeros, which is the
/// empty list. Refused for want of memory alone.
#[tactic(auto, using(crate::proofs::Images::new_image, crate::proofs::Images::empty_journal))]
pub fn image_of(alloc: Global, config: &Config) -> OrMemory<Octets>
    requires { IsConfig config.now }
    // The head with the configuration, and zeros.
    ensures new { IfOk result (IsNewImage config.now) }
    // It is loaded as this configuration.
    ensures stands { IfOk result (IsImage config.now) }
    // Its journal stands for the empty list.
    ensures empty { IfOk result (λ image. RegionStands (journal_region config.now.quota) image []) }
{
    let bytes = config.write(alloc)?;
    let mut image = head_of(alloc, bytes.as_slice())?;
    push_zeros(&mut image, journal_of(config.quota).size() as usize)?;
    Ok(Octets::from_vec(image))
}
