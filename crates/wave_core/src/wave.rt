ghost use Rattle.std.specs.Prelude.{◌≡◌, ◌↔◌, IsTrue, Some};
ghost use Rattle.std.specs.List.{position_or_len};
ghost use Rattle.wave_core.specs.Waves.{lists};

use base_types::{List, Octets};

/// How many steps a wave may have.
pub const STEPS_LIMIT: usize = 16;

/// One step of a wave: some devices, and how many of them the next step waits for.
#[derive(Debug, Drop, Eq, PartialEq)]
pub struct Step {
    /// The devices to which the manifest is offered in this step.
    pub devices: List<Octets>,
    /// How many of them must have confirmed the manifest before the next step begins.
    pub needed: u64,
}

/// The rollout of one manifest to the devices of one class, step by step. A device that stands in no
/// step comes behind the last.
#[derive(Debug, Drop, Eq, PartialEq)]
pub struct Wave {
    /// The class of the devices.
    pub class: Octets,
    /// The identifier of the manifest, as it is encoded (draft-ietf-suit-manifest,
    /// "suit-manifest-component-id").
    pub id: Octets,
    /// The sequence number of the manifest: a device with this number or a later one has confirmed it.
    pub sequence: u64,
    /// The steps in their order.
    pub steps: List<Step>,
}

impl Step {
    /// Whether the device stands in this step.
    fn lists(&self, device: &[u8]) -> bool
        ensures { result ≡ lists device.now self.now }
    {
        self.devices
            .iter()
            .any(|listed| listed.as_slice() == device)
    }
}

impl Wave {
    ghost use Rattle.wave_core.specs.Waves.{IsOf, place_in, reaches};
    ghost use Rattle.wave_core.specs.Counting.{crosses, size_at};

    /// Whether it is the wave of this class and this identifier.
    pub(crate) fn is_of(&self, class: &[u8], id: &[u8]) -> bool
        ensures { IsTrue result ↔ IsOf class.now id.now self.now }
    {
        self.class.as_slice() == class && self.id.as_slice() == id
    }

    /// The number of the step in which the device stands, and the number of steps where it stands in none.
    pub(crate) fn place_of(&self, device: &[u8]) -> usize
        ensures { result ≡ place_in self.now device.now }
    {
        place_among(self.steps.as_slice(), device)
    }

    /// How many devices the step of this number has, and none where there is no such step.
    pub(crate) fn size_of(&self, step: usize) -> u64
        ensures { result ≡ size_at self.now.steps step }
    {
        match self.steps.get(step) {
            Some(step) => step.devices.len() as u64,
            None => 0,
        }
    }

    /// Whether a number has confirmed the manifest.
    fn is_reached(&self, number: Option<u64>) -> bool
        ensures { result ≡ reaches self.now.sequence number }
    {
        match number {
            Some(number) => self.sequence <= number,
            None => false,
        }
    }

    /// Whether a device confirms the manifest by a number that rises from `before` to `after`.
    pub(crate) fn is_crossed(&self, before: Option<u64>, after: u64) -> bool
        ensures { result ≡ crosses self.now.sequence before after }
    {
        !self.is_reached(before) && self.is_reached(Some(after))
    }
}

/// The number of the first step that lists the device, and the number of steps where none does.
fn place_among(steps: &[Step], device: &[u8]) -> usize
    ensures { result ≡ position_or_len (lists device.now) steps.now }
{
    for (place, step) in steps.iter().enumerate() {
        if step.lists(device) {
            return place;
        }
    }
    steps.len()
}
