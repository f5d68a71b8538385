ghost use Rattle.std.specs.Prelude.{◌≡◌, Some};
ghost use Rattle.std.specs.Option.{option_copied};
ghost use Rattle.suit_engine.specs.Acts.{has_size, is_image, is_right, only_if};
ghost use Rattle.suit_engine.specs.Acts as Acts;
ghost use Rattle.suit_engine.specs.States.{current};
ghost use Rattle.suit_engine.specs.Answers.{Gives, NeverWaits};

use crate::outcome::Word;
use crate::shared::Slot;
use crate::state::{Part, State};
use crate::stop::Stop;
use base_types::Octets;
use evidence::DeviceIds;
use suit_commands::Digest;

/// The state, where a condition holds.
pub(crate) fn only_if(holds: bool, state: State) -> Result<State, Stop>
    ensures gives { Gives (only_if holds state) result }
    ensures waits { NeverWaits result }
{
    if holds {
        Ok(state)
    } else {
        Err(Stop::Failed(Word::Condition))
    }
}

/// Whether a parameter is set, to these bytes.
fn is_set_to(parameter: &Slot<Octets>, bytes: &Octets) -> bool
    ensures { result ≡ Acts.is_set_to parameter.now bytes.now }
{
    match parameter.get() {
        Some(value) => *value == *bytes,
        None => false,
    }
}

/// Whether the vendor that is set is the device's.
pub(crate) fn is_vendor(state: &State, device: &DeviceIds) -> bool
    ensures { result ≡ Acts.is_set_to (current state.now).setting.vendor device.now.vendor }
{
    match state.current() {
        Some(part) => is_set_to(&part.setting.vendor, &device.vendor),
        None => false,
    }
}

/// Whether the class that is set is the device's.
pub(crate) fn is_class(state: &State, device: &DeviceIds) -> bool
    ensures { result ≡ Acts.is_set_to (current state.now).setting.class device.now.class }
{
    match state.current() {
        Some(part) => is_set_to(&part.setting.class, &device.class),
        None => false,
    }
}

/// Whether the device that is set is this one.
pub(crate) fn is_device(state: &State, device: &DeviceIds) -> bool
    ensures { result ≡ Acts.is_set_to (current state.now).setting.device device.now.device }
{
    match state.current() {
        Some(part) => is_set_to(&part.setting.device, &device.device),
        None => false,
    }
}

/// Whether bytes have a size, where one is set.
fn has_size(size: Option<u64>, bytes: &Octets) -> bool
    ensures { result ≡ has_size size bytes.now }
{
    match size {
        Some(size) => bytes.len() as u64 == size,
        None => true,
    }
}

/// Whether bytes have a digest, and a size where one is set.
fn is_image_of(digest: &Digest, size: Option<u64>, bytes: &Octets) -> bool
    ensures { result ≡ is_image (Some digest.now) size (Some bytes.now) }
{
    digest.matches(bytes.as_slice()) && has_size(size, bytes)
}

/// Whether a component is the image that its parameters name.
fn is_right(part: &Part) -> bool
    ensures { result ≡ is_right part.now }
{
    match part.setting.image_digest.get() {
        Some(digest) => match part.bytes.get() {
            Some(bytes) => is_image_of(digest, part.setting.image_size, bytes),
            None => false,
        },
        None => false,
    }
}

/// Whether the current component is the image that its parameters name.
pub(crate) fn is_image(state: &State) -> bool
    ensures { result ≡ Acts.is_right (current state.now) }
{
    match state.current() {
        Some(part) => is_right(part),
        None => false,
    }
}
