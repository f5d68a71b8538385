ghost use Rattle.std.specs.Prelude.{◌≡◌, ◌≤◌, length, IfOk, MatchOption, None};
ghost use Rattle.std.specs.Option.{option_or};
ghost use Rattle.suit_engine.specs.States.{unset, untouched, current, part_at, at_index, with_current, with_bytes, with_given, overridden};
ghost use Rattle.suit_engine.specs.Runs.{beginning};

use crate::shared::Slot;
use base_types::{List, Octets, OrMemory, Utf8};
use std::alloc::Global;
use suit_commands::{Digest, Parameters};

/// The parameters that are set for a component. States share them.
#[derive(Drop)]
pub(crate) struct Setting {
    pub(crate) vendor: Slot<Octets>,
    pub(crate) class: Slot<Octets>,
    pub(crate) image_digest: Slot<Digest>,
    pub(crate) image_size: Option<u64>,
    pub(crate) content: Slot<Octets>,
    pub(crate) uri: Slot<Utf8>,
    pub(crate) source: Option<u64>,
    pub(crate) device: Slot<Octets>,
}

/// What is known of a component.
#[derive(Drop)]
pub(crate) struct Part {
    pub(crate) setting: Setting,
    /// The bytes that it has, where it has any. States share them.
    pub(crate) bytes: Slot<Octets>,
}

/// Where a run stands.
#[derive(Drop)]
pub(crate) struct State {
    /// The index of the component that commands are about.
    pub(crate) index: u64,
    /// Each component.
    pub(crate) parts: List<Part>,
}

/// The bytes that are given, copied, or else the ones that were set.
fn given_or(alloc: Global, given: &Option<Octets>, set: &Slot<Octets>) -> OrMemory<Slot<Octets>>
    ensures { IfOk result (λ it. it ≡ option_or given.now set.now) }
{
    match given {
        Some(bytes) => Slot::of(alloc, bytes.try_clone(alloc)?),
        None => set.share(),
    }
}

/// The text that is given, copied, or else the one that was set.
fn text_or(alloc: Global, given: &Option<Utf8>, set: &Slot<Utf8>) -> OrMemory<Slot<Utf8>>
    ensures { IfOk result (λ it. it ≡ option_or given.now set.now) }
{
    match given {
        Some(text) => Slot::of(alloc, text.try_clone(alloc)?),
        None => set.share(),
    }
}

/// A copy of a digest.
pub(crate) fn copied(alloc: Global, digest: &Digest) -> OrMemory<Digest>
    ensures { IfOk result (λ it. it ≡ digest.now) }
{
    let bytes = digest.bytes.try_clone(alloc)?;
    Ok(Digest {
        algorithm: digest.algorithm,
        bytes,
    })
}

/// The digest that is given, copied, or else the one that was set.
fn digest_or(alloc: Global, given: &Option<Digest>, set: &Slot<Digest>) -> OrMemory<Slot<Digest>>
    ensures { IfOk result (λ it. it ≡ option_or given.now set.now) }
{
    match given {
        Some(digest) => Slot::of(alloc, copied(alloc, digest)?),
        None => set.share(),
    }
}

impl Setting {
    /// No parameter.
    fn unset() -> Setting
        ensures { result ≡ unset }
    {
        Setting {
            vendor: Slot::empty(),
            class: Slot::empty(),
            image_digest: Slot::empty(),
            image_size: None,
            content: Slot::empty(),
            uri: Slot::empty(),
            source: None,
            device: Slot::empty(),
        }
    }

    /// The same parameters, none of them copied.
    fn share(&self) -> OrMemory<Setting>
        ensures { IfOk result (λ it. it ≡ self.now) }
    {
        Ok(Setting {
            vendor: self.vendor.share()?,
            class: self.class.share()?,
            image_digest: self.image_digest.share()?,
            image_size: self.image_size,
            content: self.content.share()?,
            uri: self.uri.share()?,
            source: self.source,
            device: self.device.share()?,
        })
    }

    /// The parameters with those that are given, which are copied.
    fn overridden(&self, alloc: Global, given: &Parameters) -> OrMemory<Setting>
        ensures { IfOk result (λ it. it ≡ overridden given.now self.now) }
    {
        Ok(Setting {
            vendor: given_or(alloc, &given.vendor, &self.vendor)?,
            class: given_or(alloc, &given.class, &self.class)?,
            image_digest: digest_or(alloc, &given.image_digest, &self.image_digest)?,
            image_size: given.image_size.or(self.image_size),
            content: given_or(alloc, &given.content, &self.content)?,
            uri: text_or(alloc, &given.uri, &self.uri)?,
            source: given.source.or(self.source),
            device: given_or(alloc, &given.device, &self.device)?,
        })
    }
}

impl Part {
    /// A component of which nothing is known.
    fn untouched() -> Part
        ensures { result ≡ untouched }
    {
        Part {
            setting: Setting::unset(),
            bytes: Slot::empty(),
        }
    }

    /// The same component, nothing of it copied.
    fn share(&self) -> OrMemory<Part>
        ensures { IfOk result (λ it. it ≡ self.now) }
    {
        self.with_bytes(self.bytes.share()?)
    }

    /// The component with other bytes.
    pub(crate) fn with_bytes(&self, bytes: Slot<Octets>) -> OrMemory<Part>
        ensures { IfOk result (λ it. it ≡ with_bytes bytes self.now) }
    {
        let setting = self.setting.share()?;
        Ok(Part { setting, bytes })
    }

    /// The component with those parameters that are given, which are copied.
    pub(crate) fn with_given(&self, alloc: Global, given: &Parameters) -> OrMemory<Part>
        ensures { IfOk result (λ it. it ≡ with_given given.now self.now) }
    {
        let setting = self.setting.overridden(alloc, given)?;
        let bytes = self.bytes.share()?;
        Ok(Part { setting, bytes })
    }
}

impl State {
    /// So many components of which nothing is known.
    pub(crate) fn beginning(alloc: Global, count: usize) -> OrMemory<State>
        ensures { IfOk result (λ it. it ≡ beginning count) }
    {
        let mut parts = List::new(alloc);
        for _at in 0..count {
            parts.push(Part::untouched())?;
        }
        Ok(State { index: 0, parts })
    }

    /// The same state. Parameters and bytes are not copied.
    pub(crate) fn share(&self, alloc: Global) -> OrMemory<State>
        ensures { IfOk result (λ it. it ≡ self.now) }
    {
        let mut parts = List::new(alloc);
        for part in self.parts.as_slice() {
            parts.push(part.share()?)?;
        }
        Ok(State {
            index: self.index,
            parts,
        })
    }

    /// The component of an index, where it is there; of another nothing is known.
    pub(crate) fn part(&self, index: u64) -> Option<&Part>
        ensures found { MatchOption result (part_at self.now.parts index ≡ untouched) (λ part. part.now ≡ part_at self.now.parts index) }
        ensures past { result ≡ None → length self.now.parts ≤ index }
    {
        self.parts.get(index as usize)
    }

    /// The current component, where it is there; of another nothing is known.
    pub(crate) fn current(&self) -> Option<&Part>
        ensures found { MatchOption result (current self.now ≡ untouched) (λ part. part.now ≡ current self.now) }
        ensures past { result ≡ None → length self.now.parts ≤ self.now.index }
    {
        self.part(self.index)
    }

    /// The state with another index.
    pub(crate) fn at_index(self, index: u64) -> State
        ensures { result ≡ at_index index self }
    {
        State {
            index,
            parts: self.parts,
        }
    }

    /// The state with another current component. Where none is there, nothing changes.
    pub(crate) fn with_current(self, part: Part) -> State
        ensures { result ≡ with_current self part }
    {
        let State { index, parts } = self;
        let mut parts = parts.into_vec();
        let at = index as usize;
        if at < parts.len() {
            parts[at] = part;
        }
        State {
            index,
            parts: List::from_vec(parts),
        }
    }
}
