ghost use Rattle.std.specs.Prelude.{◌≡◌, ◌≤◌, length, vec_len};
ghost use Rattle.wave_core.specs.Counting.{noted_in, noted};

use crate::counts::Counts;
use crate::wave::Wave;

/// Counts a device in a wave, where its number for the identifier rises past the wave's sequence.
fn note_in(
    wave: &Wave,
    counts: &mut Counts,
    device: &[u8],
    id: &[u8],
    before: Option<u64>,
    after: u64,
)
    ensures { counts.new ≡ noted_in device.now id.now before after wave.now counts.old }
{
    if wave.id.as_slice() == id && wave.is_crossed(before, after) {
        let place = wave.place_of(device);
        counts.raise(place, wave.size_of(place));
    }
}

/// The same in each wave. No memory is taken.
pub fn note_each(
    waves: &[Wave],
    counts: &mut Vec<Counts>,
    device: &[u8],
    id: &[u8],
    before: Option<u64>,
    after: u64,
)
    requires { length waves.now ≤ vec_len counts.old }
    ensures { counts.new.items ≡ noted device.now id.now before after waves.now counts.old.items }
{
    for (number, wave) in waves.iter().enumerate() {
        note_in(wave, &mut counts[number], device, id, before, after);
    }
}
