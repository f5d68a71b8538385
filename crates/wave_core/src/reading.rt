ghost use Rattle.std.specs.Prelude.{◌≡◌, ◌≤◌, ◌<◌, ◌↔◌, ℕ, Some, All, MatchOption, IsTrue, take, length};
ghost use Rattle.wave_core.specs.Waves.{IsOf, place_in};
ghost use Rattle.wave_core.specs.Counting.{IsWaveAt, are_enough};

use crate::wave::{Step, Wave};

/// The number of the wave of this class and this identifier. None where there is none.
pub fn wave_of(waves: &[Wave], class: &[u8], id: &[u8]) -> Option<usize>
    ensures { MatchOption result (All (λ wave. IsOf class.now id.now wave → ⊥) waves.now) (IsWaveAt waves.now class.now id.now) }
{
    for (number, wave) in waves.iter().enumerate() {
        if wave.is_of(class, id) {
            return Some(number);
        }
    }
    None
}

/// Whether each step has as many as it needs.
fn have_enough(steps: &[Step], counts: &[u64]) -> bool
    requires { length steps.now ≤ length counts.now }
    ensures { result ≡ are_enough steps.now counts.now }
{
    for (number, step) in steps.iter().enumerate() {
        if counts[number] < step.needed {
            return false;
        }
    }
    true
}

/// Whether each step of the wave below the device's place has as many as it needs.
pub fn is_open_in(wave: &Wave, counts: &[u64], device: &[u8]) -> bool
    requires { length counts.now ≡ length wave.now.steps }
    ensures { let place = place_in wave.now device.now in result ≡ are_enough (take place wave.now.steps) (take place counts.now) }
{
    let place = wave.place_of(device);
    have_enough(&wave.steps.as_slice()[..place], &counts[..place])
}
