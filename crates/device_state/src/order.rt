ghost use Rattle.std.specs.Prelude.{◌≡◌, ◌+◌, ◌<◌, ◌≤◌, length};
ghost use Rattle.std.specs.List.{prefix_len};
ghost use Rattle.cbor_core.specs.Spelling.{bytes_below};
ghost use Rattle.device_state.specs.State.{ordered};
ghost use Rattle.device_state.specs.Sorting.{IsCounted, IsSunk};

use crate::rows::{ComponentRow, ManifestRow};
use base_types::List;

/// How many components, from the first on, have an identifier below that of this one.
fn below_count(component: &ComponentRow, others: &[ComponentRow]) -> usize
    ensures counted { result ≡ prefix_len (λ other. bytes_below other.id component.now.id) others.now }
    ensures within { result ≤ length others.now }
{
    for (count, other) in others.iter().enumerate() {
        if other.id >= component.id {
            return count;
        }
    }
    others.len()
}

/// How many components behind the place have an identifier below that of the one at the place.
fn steps_from(components: &[ComponentRow], place: usize) -> usize
    requires { place < length components.now }
    ensures counted { IsCounted components.now place result }
    ensures within { place + result < length components.now }
{
    match &components[place..] {
        [first, behind @ ..] => below_count(first, behind),
        [] => 0,
    }
}

/// Moves the component at the place behind those whose identifiers are below its own. No memory is
/// taken, and nothing is moved where it stands right.
fn sink(components: &mut Vec<ComponentRow>, place: usize)
    requires { place < length components.old.items }
    ensures sunk { IsSunk components.old.items place components.new.items }
    ensures len { length components.new.items ≡ length components.old.items }
{
    let steps = steps_from(components.as_slice(), place);
    if steps > 0 {
        let component = components.remove(place);
        let Ok(()) = components.insert(place + steps, component) else {
            unreachable!()
        };
    }
}

impl ManifestRow {
    /// The manifest with its components in ascending order of their identifiers. Those of one identifier
    /// stay in their order. No memory is taken, and components in order are looked at once.
    pub fn order(self) -> ManifestRow
        ensures { result ≡ ordered self }
    {
        let ManifestRow {
            id,
            sequence,
            present,
            components,
        } = self;
        let mut components = components.into_vec();
        let mut place = components.len();
        while place > 0 {
            place -= 1;
            sink(&mut components, place);
        }
        ManifestRow {
            id,
            sequence,
            present,
            components: List::from_vec(components),
        }
    }
}
