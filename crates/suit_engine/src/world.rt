ghost use Rattle.std.specs.Prelude.{◌≡◌, ◌==◌, slice_index, IfOk, MatchOption, Some, None};
ghost use Rattle.std.specs.Option.{option_copied};
ghost use Rattle.suit_engine.specs.Acts.{attached_as, attached_bytes, fetched_as, takes_fetched, fetches, fetches_from};
ghost use Rattle.suit_engine.specs.Answers.{FindsAs};

use crate::outcome::Fetched;
use crate::shared::{Shared, Slot};
use base_types::{FETCHES_LIMIT, List, Octets, OrMemory, Utf8};
use evidence::DeviceIds;
use fetch_uri::is_uri;
use std::alloc::Global;
use std::marker::Model;
use suit_envelope::Attached;

/// A payload of the envelope, which components share.
#[derive(Drop)]
pub(crate) struct Payload {
    name: Utf8,
    bytes: Shared<Octets>,
}

impl Model for Payload {
    ghost use Rattle.suit_envelope.specs.declared.envelope.Attached.{Attached};

    ghost Value = { Attached };

    ghost view = { λ it. record { name = it.name; bytes = it.bytes } };
}

impl Payload {
    /// A copy of an attached payload. Refused for want of memory alone.
    fn of(alloc: Global, attached: &Attached) -> OrMemory<Payload>
        ensures { IfOk result (λ it. it ≡ attached.now) }
    {
        let name = attached.name.try_clone(alloc)?;
        let bytes = Shared::new(alloc, attached.bytes.try_clone(alloc)?)?;
        Ok(Payload { name, bytes })
    }
}

/// Copies of the attached payloads. Refused for want of memory alone.
pub(crate) fn payloads(alloc: Global, attached: &List<Attached>) -> OrMemory<List<Payload>>
    ensures { IfOk result (λ it. it ≡ attached.now) }
{
    let mut payloads = List::new(alloc);
    for one in attached.as_slice() {
        payloads.push(Payload::of(alloc, one)?)?;
    }
    Ok(payloads)
}

/// What a run has around it.
#[derive(Drop)]
pub(crate) struct Around<'a> {
    pub(crate) alloc: Global,
    pub(crate) attached: &'a [Payload],
    pub(crate) device: &'a DeviceIds,
    pub(crate) env: &'a [Fetched],
}

impl<'a> Model for Around<'a> {
    ghost use Rattle.suit_engine.specs.Acts.{World};

    ghost Value = { World };

    ghost view = { λ it. record { attached = it.attached.now; device = it.device.now; env = it.env.now } };
}

/// What a fetch finds.
#[derive(Drop)]
pub(crate) enum Found {
    /// The payload, or none where there is none and will be none.
    Bytes(Slot<Octets>),
    /// Nothing was fetched for the URI yet.
    Unknown(Utf8),
    /// Nothing was fetched for it, and no more may be.
    TooMany,
}

impl Around<'_> {
    /// The attached payload of a name.
    fn attached(&self, name: &Utf8) -> Option<&Payload>
        ensures { option_copied result ≡ attached_as name.now self.now.attached }
    {
        self.attached.iter().find(|one| one.name == *name)
    }

    /// The bytes of the attached payload of a name, not copied, or none.
    fn attached_payload(&self, name: &Utf8) -> OrMemory<Slot<Octets>>
        ensures { IfOk result (λ it. it ≡ attached_bytes (attached_as name.now self.now.attached)) }
    {
        match self.attached(name) {
            Some(payload) => Slot::shared(&payload.bytes),
            None => Ok(Slot::empty()),
        }
    }

    /// What was fetched for a URI first.
    fn fetched(&self, uri: &Utf8) -> Option<&Fetched>
        ensures { option_copied result ≡ fetched_as uri.now self.now.env }
    {
        self.env.iter().find(|one| one.uri == *uri)
    }

    /// The payload that was fetched for a URI, copied, or none where the fetch failed.
    fn fetched_payload(&self, uri: &Utf8) -> OrMemory<Found>
        ensures { IfOk result (FindsAs (takes_fetched self.now uri.now (fetched_as uri.now self.now.env))) }
    {
        match self.fetched(uri) {
            Some(fetched) => Ok(Found::Bytes(copied(self.alloc, &fetched.bytes)?)),
            None if FETCHES_LIMIT <= self.env.len() => Ok(Found::TooMany),
            None => Ok(Found::Unknown(uri.try_clone(self.alloc)?)),
        }
    }

    /// What a fetch from a URI finds.
    fn payload_from(&self, uri: &Utf8) -> OrMemory<Found>
        ensures { IfOk result (FindsAs (fetches self.now uri.now)) }
    {
        let text = uri.as_str();
        if is_name(text) {
            Ok(Found::Bytes(self.attached_payload(uri)?))
        } else if is_uri(text) {
            self.fetched_payload(uri)
        } else {
            Ok(Found::Bytes(Slot::empty()))
        }
    }

    /// What a fetch from the URI that is set finds.
    pub(crate) fn payload(&self, uri: Option<&Utf8>) -> OrMemory<Found>
        ensures { IfOk result (FindsAs (fetches_from self.now (option_copied uri.entry))) }
    {
        match uri {
            Some(uri) => self.payload_from(uri),
            None => Ok(Found::Bytes(Slot::empty())),
        }
    }
}

/// Whether a URI is the name of an attached payload: it begins with `#`.
fn is_name(uri: &str) -> bool
    ensures { result ≡ (slice_index uri.now 0 == 35) }
{
    matches!(uri.as_bytes(), [b'#', ..])
}

/// Bytes that are there, copied.
fn copied(alloc: Global, bytes: &Option<Octets>) -> OrMemory<Slot<Octets>>
    ensures { IfOk result (λ it. it ≡ bytes.now) }
{
    match bytes {
        Some(bytes) => Slot::of(alloc, bytes.try_clone(alloc)?),
        None => Ok(Slot::empty()),
    }
}
