use base_types::Octets;
use evidence::DeviceIds;
use hss_sign::KeyParams;
use trust_anchors::Anchors;

/// The longest encoding of a configuration, in bytes: what the head of an image has room for.
pub const CONFIG_LIMIT: usize = 65_520;

/// How many bytes the seed of a key has.
pub const KEY_SEED_SIZE: usize = 32;

/// What a device is given when it is made. The seed of its key is a secret, so nothing here is printed.
#[derive(Drop, Eq, PartialEq)]
pub struct Config {
    /// What the device is known by.
    pub device: DeviceIds,
    /// The greatest weight of what it keeps, in bytes: 16,384 to 33,554,432.
    pub quota: u64,
    /// The parameters of the key that signs its replies.
    pub params: KeyParams,
    /// The seed of that key: 32 bytes.
    pub key_seed: Octets,
    /// The keys whose messages and manifests it takes.
    pub anchors: Anchors,
}
