// A configuration is written as bytes.
ghost use Rattle.std.specs.Prelude.{◌≡◌, ◌≤◌, IfOk, length};
ghost use Rattle.cbor_core.specs.Spelling.{Spells};
ghost use Rattle.device_config.specs.Config.{ConfigIs, IsConfig};
ghost use Rattle.device_config.specs.Written.{written_config};
ghost use Rattle.trust_anchors.specs.Anchors.{AnchorsIs, written_anchors};

use crate::config::Config;
use base_types::{List, Octets, OrMemory};
use cbor_core::{Item, encode};
use std::alloc::Global;

impl Config {
    // The anchors as an item.
    #[tactic(auto, using(crate::proofs::Sizes::few_managers, crate::proofs::Sizes::few_authors))]
    fn anchors_item(&self, alloc: Global) -> OrMemory<Item>
        requires { IsConfig self.now }
        ensures value { IfOk result (λ x. x ≡ written_anchors self.now.anchors) }
        ensures again { IfOk result (AnchorsIs self.now.anchors) }
    {
        self.anchors.write(alloc)
    }

    // The configuration as an item.
    fn to_item(&self, alloc: Global) -> OrMemory<Item>
        requires { IsConfig self.now }
        ensures value { IfOk result (λ x. x ≡ written_config self.now) }
        ensures anchors { IfOk result (λ x. AnchorsIs self.now.anchors (written_anchors self.now.anchors)) }
    {
        let mut parts = List::new(alloc);
        parts.push(Item::Bytes(self.device.vendor.try_clone(alloc)?))?;
        parts.push(Item::Bytes(self.device.class.try_clone(alloc)?))?;
        parts.push(Item::Bytes(self.device.device.try_clone(alloc)?))?;
        parts.push(Item::Unsigned(self.quota))?;
        parts.push(Item::Unsigned(u64::from(self.params.levels)))?;
        parts.push(Item::Unsigned(u64::from(self.params.height)))?;
        parts.push(Item::Unsigned(u64::from(self.params.width)))?;
        parts.push(Item::Bytes(self.key_seed.try_clone(alloc)?))?;
        parts.push(self.anchors_item(alloc)?)?;
        Ok(Item::Array(parts))
    }

    /// The configuration as bytes, which `read` reads back. Its anchors are written without identifiers
    /// of keys. Refused for want of memory alone.
    pub fn write(&self, alloc: Global) -> OrMemory<Octets>
        requires { IsConfig self.now }
        // The bytes spell this item.
        ensures spelled { IfOk result (λ bytes. Spells (written_config self.now) bytes) }
        // They are read as this configuration.
        ensures again { IfOk result (ConfigIs self.now) }
    {
        let item = self.to_item(alloc)?;
        encode(alloc, &item)
    }
}
