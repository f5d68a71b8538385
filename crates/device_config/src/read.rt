// A configuration is read from its bytes.
ghost use Rattle.std.specs.Prelude.{◌≡◌, Some, IfOk};
ghost use Rattle.cbor_core.specs.Views.{bytes_of};
ghost use Rattle.device_config.specs.Answers.{Answers, Finds, IsFound, IsNumber};
ghost use Rattle.device_config.specs.Answers as Told;
ghost use Rattle.device_config.specs.Config.{ConfigIs, IdsAre, QuotaIs, ParamsAre, SeedIs, AnchorsAre, RowsAre, PartsAre, IsConfigItem};

use crate::config::{CONFIG_LIMIT, Config, KEY_SEED_SIZE};
use crate::fault::ConfigFault;
use base_types::{Octets, QUOTA_LEAST, QUOTA_LIMIT};
use cbor_core::{CborFault, Item, decode_whole};
use evidence::DeviceIds;
use hss_sign::KeyParams;
use std::alloc::Global;
use trust_anchors::{AnchorFault, Anchors};

// The bytes of a byte string, copied.
fn read_bytes(alloc: Global, item: &Item) -> Result<Octets, ConfigFault>
    ensures { Answers (λ bytes. bytes_of item.now ≡ Some bytes) result }
{
    match item.as_bytes() {
        Some(bytes) => Ok(Octets::from_slice(alloc, bytes)?),
        None => Err(ConfigFault::BadConfig),
    }
}

// Three byte strings of 1 to 64 bytes.
fn read_ids(
    alloc: Global,
    vendor: &Item,
    class: &Item,
    device: &Item,
) -> Result<DeviceIds, ConfigFault>
    ensures { Answers (IdsAre vendor.now class.now device.now) result }
{
    let vendor = read_bytes(alloc, vendor)?;
    let class = read_bytes(alloc, class)?;
    let device = read_bytes(alloc, device)?;
    let ids = DeviceIds {
        vendor,
        class,
        device,
    };
    if ids.is_proper() {
        Ok(ids)
    } else {
        Err(ConfigFault::BadConfig)
    }
}

// A quota within its limits.
fn read_quota(item: &Item) -> Option<u64>
    ensures { Finds (QuotaIs item.now) result }
{
    item.as_unsigned()
        .filter(|quota| (QUOTA_LEAST..=QUOTA_LIMIT).contains(quota))
}

// A number of 32 bits.
fn read_number(item: &Item) -> Option<u32>
    ensures { Finds (IsNumber item.now) result }
{
    u32::try_from(item.as_unsigned()?).ok()
}

// Parameters that a key may have.
fn read_params(levels: &Item, height: &Item, width: &Item) -> Option<KeyParams>
    ensures { Finds (ParamsAre levels.now height.now width.now) result }
{
    let params = KeyParams {
        levels: read_number(levels)?,
        height: read_number(height)?,
        width: read_number(width)?,
    };
    if params.is_proper() {
        Some(params)
    } else {
        None
    }
}

// A seed of 32 bytes.
fn read_seed(alloc: Global, item: &Item) -> Result<Octets, ConfigFault>
    ensures { Answers (SeedIs item.now) result }
{
    let seed = read_bytes(alloc, item)?;
    if seed.len() == KEY_SEED_SIZE {
        Ok(seed)
    } else {
        Err(ConfigFault::BadConfig)
    }
}

// Why anchors are refused, as a fault of the configuration that they belong to.
fn fault_of(fault: AnchorFault) -> ConfigFault
    ensures { result ≡ Told.fault_of fault }
{
    match fault {
        AnchorFault::NoMemory => ConfigFault::NoMemory,
        _ => ConfigFault::BadConfig,
    }
}

// Trust anchors.
fn read_anchors(alloc: Global, item: &Item) -> Result<Anchors, ConfigFault>
    ensures { Answers (AnchorsAre item.now) result }
{
    match Anchors::read(alloc, item) {
        Ok(anchors) => Ok(anchors),
        Err(fault) => Err(fault_of(fault)),
    }
}

// The nine parts of a configuration.
fn read_parts(alloc: Global, parts: &[Item]) -> Result<Config, ConfigFault>
    ensures { Answers (PartsAre parts.now) result }
{
    let [
        vendor,
        class,
        device,
        quota,
        levels,
        height,
        width,
        seed,
        anchors,
    ] = parts
    else {
        return Err(ConfigFault::BadConfig);
    };
    read_rows(
        alloc, vendor, class, device, quota, levels, height, width, seed, anchors,
    )
}

// A configuration of its parts.
fn read_rows(
    alloc: Global,
    vendor: &Item,
    class: &Item,
    device: &Item,
    quota: &Item,
    levels: &Item,
    height: &Item,
    width: &Item,
    seed: &Item,
    anchors: &Item,
) -> Result<Config, ConfigFault>
    ensures { Answers (RowsAre vendor.now class.now device.now quota.now levels.now height.now width.now seed.now anchors.now) result }
{
    let Some(quota) = read_quota(quota) else {
        return Err(ConfigFault::BadConfig);
    };
    let Some(params) = read_params(levels, height, width) else {
        return Err(ConfigFault::BadConfig);
    };
    let device = read_ids(alloc, vendor, class, device)?;
    let key_seed = read_seed(alloc, seed)?;
    let anchors = read_anchors(alloc, anchors)?;
    Ok(Config {
        device,
        quota,
        params,
        key_seed,
        anchors,
    })
}

// A configuration that is an item already.
fn read_item(alloc: Global, item: &Item) -> Result<Config, ConfigFault>
    ensures { Answers (IsConfigItem item.now) result }
{
    match item.as_array() {
        Some(parts) => read_parts(alloc, parts),
        None => Err(ConfigFault::BadConfig),
    }
}

impl Config {
    /// Reads the configuration that all the bytes spell: `[vendor, class, device, quota, levels, height,
    /// width, key seed, anchors]` in at most 65,520 bytes. Vendor, class and device have 1 to 64 bytes,
    /// the quota is 16,384 to 33,554,432, the parameters are proper, the key seed has 32 bytes, and the
    /// anchors are read by `Anchors::read`.
    ///
    /// `BadConfig` exactly where they are no such thing. `NoMemory` may come for any bytes.
    pub fn read(alloc: Global, bytes: &[u8]) -> Result<Config, ConfigFault>
        // What is found is what the bytes are.
        ensures found { IfOk result (λ v. ConfigIs v bytes.now) }
        // What the bytes are is found, unless memory runs out.
        ensures only { (v : Config) → ConfigIs v bytes.now → IsFound result v }
    {
        if bytes.len() > CONFIG_LIMIT {
            return Err(ConfigFault::BadConfig);
        }
        match decode_whole(alloc, bytes) {
            Ok(item) => read_item(alloc, &item),
            Err(CborFault::NoMemory) => Err(ConfigFault::NoMemory),
            Err(CborFault::Bad(_)) => Err(ConfigFault::BadConfig),
        }
    }
}
