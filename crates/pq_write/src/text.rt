// A text is put into a list with room for all of it, piece after piece. It takes no memory.

ghost use Rattle.std.specs.Prelude.{◌≡◌, ◌++◌, decimal};
ghost use Rattle.pq_write.specs.Room.{HasRoomFor};

use itoa::Buffer;
use pq_io::ByteList;

/// Appends a piece.
#[inline(always)]
pub fn put(out: &mut ByteList, piece: &[u8])
    requires room { HasRoomFor out.old piece.now }
    ensures items { out.new.items ≡ out.old.items ++ piece.now }
    ensures room { out.new.room ≡ out.old.room }
{
    for byte in piece {
        out.push_kept(*byte);
    }
}

/// Appends a text and then a number in decimal, without leading zeros.
#[tactic(auto, using(crate::proofs::Room::length_append))]
pub fn put_number(out: &mut ByteList, text: &[u8], number: u64)
    requires room { HasRoomFor out.old (text.now ++ decimal number) }
    ensures items { out.new.items ≡ out.old.items ++ (text.now ++ decimal number) }
    ensures room { out.new.room ≡ out.old.room }
{
    let mut buffer = Buffer::new();
    put(out, text);
    put(out, buffer.format(number).as_bytes());
}
