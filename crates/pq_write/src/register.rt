ghost use Rattle.std.specs.Prelude.{◌≡◌, ◌++◌, map};
ghost use Rattle.std.specs.List.{flat_map};
ghost use Rattle.pq_text.specs.Print.{register_line};
ghost use Rattle.pq_read.specs.Environment.{register_view};
ghost use Rattle.pq_write.specs.Room.{HasRoomFor};

use crate::text::{put, put_number};
use pq_io::ByteList;
use pq_read::Register;

// Appends the line that declares a register, with the word `qreg` or `creg` in front.
#[tactic(auto, using(crate::proofs::Room::length_append))]
fn push_register_line(out: &mut ByteList, word: &[u8], register: &Register)
    requires room { HasRoomFor out.old (register_line word.now (register_view register.now)) }
    ensures items { out.new.items ≡ out.old.items ++ register_line word.now (register_view register.now) }
    ensures room { out.new.room ≡ out.old.room }
{
    put(out, word);
    put(out, b" ");
    put(out, register.name.as_str().as_bytes());
    put_number(out, b"[", u64::from(register.size));
    put(out, b"];\n");
}

/// Appends the lines that declare registers, with the word `qreg` or `creg` in front of each.
pub fn push_register_lines(out: &mut ByteList, word: &[u8], registers: &[Register])
    requires room { HasRoomFor out.old (flat_map (register_line word.now) (map register_view registers.now)) }
    ensures items { out.new.items ≡ out.old.items
        ++ flat_map (register_line word.now) (map register_view registers.now) }
    ensures room { out.new.room ≡ out.old.room }
{
    for register in registers {
        push_register_line(out, word, register);
    }
}
