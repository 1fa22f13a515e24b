ghost use Rattle.std.specs.Prelude.{◌≡◌, ◌++◌, decimal, OnErr, OnOk};

use itoa::Buffer;
use pq_io::OutOfMemory;

/// Appends a text and then a number in decimal, without leading zeros. Where there is no memory for them, it appends
/// nothing.
pub fn push_number(out: &mut Vec<u8>, text: &[u8], number: u64) -> Result<(), OutOfMemory>
    ensures items { OnOk result (out.new.items ≡ out.old.items ++ (text.now ++ decimal number)) }
    ensures unchanged { OnErr result (out.new.items ≡ out.old.items) }
{
    let mut buffer = Buffer::new();
    let digits = buffer.format(number).as_bytes();
    out.reserve(text.len() + digits.len())?;
    out.extend_from_slice(text)?;
    out.extend_from_slice(digits)
}
