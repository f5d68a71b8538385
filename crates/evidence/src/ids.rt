ghost use Rattle.std.specs.Prelude.{◌↔◌, IsTrue};
ghost use Rattle.evidence.specs.Ids.{IsField, AreIds};

use base_types::{DEVICE_FIELD_LIMIT, Octets};

/// What a device is known by: its vendor, its class and its own number, each of 1 to 64 bytes.
#[derive(Debug, Drop, Eq, PartialEq)]
pub struct DeviceIds {
    /// Who made the device.
    pub vendor: Octets,
    /// Which kind of device it is.
    pub class: Octets,
    /// Which of its kind it is.
    pub device: Octets,
}

/// Whether an identifier has 1 to 64 bytes.
pub fn is_field(bytes: &[u8]) -> bool
    ensures { IsTrue result ↔ IsField bytes.now }
{
    !bytes.is_empty() && bytes.len() <= DEVICE_FIELD_LIMIT
}

impl DeviceIds {
    /// Whether each of the three has 1 to 64 bytes.
    pub fn is_proper(&self) -> bool
        ensures { IsTrue result ↔ AreIds self.now }
    {
        is_field(self.vendor.as_slice())
            && is_field(self.class.as_slice())
            && is_field(self.device.as_slice())
    }
}
