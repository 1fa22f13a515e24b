ghost use Rattle.std.specs.Prelude.{◌≡◌, ◌<◌, [], ◌∷◌, ◌++◌, IfSome, IfNone, map, All};
ghost use Rattle.std.specs.List.{flat_map, join_with_byte};
ghost use Rattle.pq_text.specs.Program.{places_of};
ghost use Rattle.pq_text.specs.Print.{place, tail_line};
ghost use Rattle.pq_text.specs.WellFormed.{IsTailEntry};
ghost use Rattle.pq_read.specs.Environment.{item_view};
ghost use Rattle.pq_write.specs.Room.{HasRoomFor};

use crate::places::Places;
use crate::text::put;
use pq_io::ByteList;
use pq_read::TailItem;

/// The first number and the others.
pub fn first_and_rest(numbers: &[u64]) -> Option<(u64, &[u64])>
    ensures some { IfSome result (λ parts. numbers.now ≡ parts.0 ∷ parts.1.now) }
    ensures none { IfNone result (numbers.now ≡ []) }
{
    match numbers {
        [first, rest @ ..] => Some((*first, rest)),
        [] => None,
    }
}

// Appends a comma and a wire.
#[tactic(auto, using(crate::proofs::Room::length_append))]
fn push_next_wire(out: &mut ByteList, wires: &Places, wire: u64)
    requires wire { wire < places_of wires.now }
    requires room { HasRoomFor out.old (44 ∷ place wires.now wire) }
    ensures items { out.new.items ≡ out.old.items ++ 44 ∷ place wires.now wire }
    ensures room { out.new.room ≡ out.old.room }
{
    put(out, b",");
    put(out, wires.place(wire as usize));
}

// Appends wires with a comma in front of each.
fn push_next_wires(out: &mut ByteList, wires: &Places, more: &[u64])
    requires each { All (λ w. w < places_of wires.now) more.now }
    requires room { HasRoomFor out.old (flat_map (λ w. 44 ∷ place wires.now w) more.now) }
    ensures items { out.new.items ≡ out.old.items ++ flat_map (λ w. 44 ∷ place wires.now w) more.now }
    ensures room { out.new.room ≡ out.old.room }
{
    for wire in more {
        push_next_wire(out, wires, *wire);
    }
}

// Appends wires with a comma between each two.
#[tactic(auto, using(crate::proofs::Room::length_append))]
fn push_wires(out: &mut ByteList, wires: &Places, numbers: &[u64])
    requires each { All (λ w. w < places_of wires.now) numbers.now }
    requires room { HasRoomFor out.old (join_with_byte 44 (map (place wires.now) numbers.now)) }
    ensures items { out.new.items ≡ out.old.items ++ join_with_byte 44 (map (place wires.now) numbers.now) }
    ensures room { out.new.room ≡ out.old.room }
{
    if let Some((first, more)) = first_and_rest(numbers) {
        put(out, wires.place(first as usize));
        push_next_wires(out, wires, more);
    }
}

// Appends the line of an entry of the tail.
#[tactic(auto, using(crate::proofs::Room::length_append))]
fn push_tail_line(out: &mut ByteList, wires: &Places, bits: &Places, item: &TailItem)
    requires entry { IsTailEntry (places_of wires.now) (places_of bits.now) (item_view item.now) }
    requires room { HasRoomFor out.old (tail_line wires.now bits.now (item_view item.now)) }
    ensures items { out.new.items ≡ out.old.items ++ tail_line wires.now bits.now (item_view item.now) }
    ensures room { out.new.room ≡ out.old.room }
{
    match item {
        TailItem::Barrier { wires: numbers } => {
            put(out, b"barrier ");
            push_wires(out, wires, numbers.as_slice());
        }
        TailItem::Measure { wire, bit } => {
            put(out, b"measure ");
            put(out, wires.place(*wire as usize));
            put(out, b" -> ");
            put(out, bits.place(*bit as usize));
        }
    }
    put(out, b";\n");
}

/// Appends the lines of a tail.
pub fn push_tail_lines(out: &mut ByteList, wires: &Places, bits: &Places, items: &[TailItem])
    requires each { All (IsTailEntry (places_of wires.now) (places_of bits.now)) (map item_view items.now) }
    requires room { HasRoomFor out.old (flat_map (tail_line wires.now bits.now) (map item_view items.now)) }
    ensures items { out.new.items ≡ out.old.items
        ++ flat_map (tail_line wires.now bits.now) (map item_view items.now) }
    ensures room { out.new.room ≡ out.old.room }
{
    for item in items {
        push_tail_line(out, wires, bits, item);
    }
}
