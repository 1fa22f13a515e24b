ghost use Rattle.std.specs.Prelude.{◌≡◌, ◌<◌, ◌∷◌, ◌++◌, codes, All};
ghost use Rattle.pq_gate.specs.Circuit.{IsOnWires, IsCircuit};
ghost use Rattle.std.specs.List.{flat_map};
ghost use Rattle.pq_text.specs.Program.{places_of};
ghost use Rattle.pq_text.specs.Print.{gate_line, place};
ghost use Rattle.pq_write.specs.Room.{HasRoomFor};

use crate::places::Places;
use crate::text::put;
use pq_gate::{Eighths, Gate};
use pq_io::ByteList;

// Appends a word with the space after it, the wire, and the end of the line.
#[tactic(auto, using(crate::proofs::Room::length_append))]
#[inline(always)]
fn push_one(out: &mut ByteList, word: &[u8], wires: &Places, wire: u32)
    requires wire { wire < places_of wires.now }
    requires room { HasRoomFor out.old (word.now ++ (place wires.now wire ++ codes ";\n")) }
    ensures items { out.new.items ≡ out.old.items ++ (word.now ++ (place wires.now wire ++ codes ";\n")) }
    ensures room { out.new.room ≡ out.old.room }
{
    put(out, word);
    put(out, wires.place(wire as usize));
    put(out, b";\n");
}

/// Appends the line of a gate.
#[tactic(auto, using(crate::proofs::Room::length_append))]
#[inline]
pub fn push_gate_line(out: &mut ByteList, wires: &Places, gate: Gate)
    requires wires { IsOnWires (places_of wires.now) gate }
    requires room { HasRoomFor out.old (gate_line wires.now gate) }
    ensures items { out.new.items ≡ out.old.items ++ gate_line wires.now gate }
    ensures room { out.new.room ≡ out.old.room }
{
    match gate {
        Gate::H { wire } => push_one(out, b"h ", wires, wire),
        Gate::X { wire } => push_one(out, b"x ", wires, wire),
        Gate::Phase { eighths, wire } => match eighths {
            Eighths::T => push_one(out, b"t ", wires, wire),
            Eighths::S => push_one(out, b"s ", wires, wire),
            Eighths::Z => push_one(out, b"z ", wires, wire),
            Eighths::Sdg => push_one(out, b"sdg ", wires, wire),
            Eighths::Tdg => push_one(out, b"tdg ", wires, wire),
        },
        Gate::Cx { control, target } => {
            put(out, b"cx ");
            put(out, wires.place(control as usize));
            push_one(out, b",", wires, target);
        }
    }
}

/// Appends the lines of gates.
pub fn push_gate_lines(out: &mut ByteList, wires: &Places, gates: &[Gate])
    requires circuit { IsCircuit (places_of wires.now) gates.now }
    requires room { HasRoomFor out.old (flat_map (gate_line wires.now) gates.now) }
    ensures items { out.new.items ≡ out.old.items ++ flat_map (gate_line wires.now) gates.now }
    ensures room { out.new.room ≡ out.old.room }
{
    for gate in gates {
        push_gate_line(out, wires, *gate);
    }
}
