// The parts of a line.
ghost use Rattle.std.specs.Prelude.{◌≡◌, ◌++◌, decimal, string_bytes, OnOk};
ghost use Rattle.hex.specs.Hex.{encode_lower};

use base_types::OrMemory;
use itoa::Buffer;
use std::alloc::Global;

/// Writes bytes in lower-case hexadecimal.
pub(crate) fn push_hex(alloc: Global, out: &mut String, bytes: &[u8]) -> OrMemory<()>
    ensures { OnOk result (string_bytes out.new ≡ string_bytes out.old ++ encode_lower bytes.now) }
{
    let digits = hex::encode(alloc, bytes)?;
    out.push_str(digits.as_str())?;
    Ok(())
}

/// Writes a number in decimals.
pub(crate) fn push_number(out: &mut String, number: u64) -> OrMemory<()>
    ensures { OnOk result (string_bytes out.new ≡ string_bytes out.old ++ decimal number) }
{
    let mut buffer = Buffer::new();
    out.push_str(buffer.format(number))?;
    Ok(())
}
