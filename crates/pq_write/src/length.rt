// How many bytes lines and texts have.

ghost use Rattle.std.specs.Prelude.{◌≡◌, ◌^◌, ◌<◌, ◌≤◌, ◌∷◌, ◌++◌, length, map, All, codes};
ghost use Rattle.std.specs.List.{flat_map, join_with_byte};
ghost use Rattle.pq_gate.specs.Circuit.{IsOnWires, IsCircuit};
ghost use Rattle.pq_gate.specs.Ports.{wires_of};
ghost use Rattle.pq_text.specs.Program.{places_of};
ghost use Rattle.pq_text.specs.Print.{gate_word, gate_line, place, register_line, tail_line, print};
ghost use Rattle.pq_text.specs.WellFormed.{IsTailEntry, WellFormed};
ghost use Rattle.pq_read.specs.Environment.{register_view, item_view, view};

use crate::places::Places;
use crate::program::HEADER;
use crate::tail::first_and_rest;
use itoa::Buffer;
use pq_gate::{Eighths, Gate, Wires};
use pq_read::{Program, Register, TailItem};

fn register_line_length(word: &[u8], register: &Register) -> usize
    requires { length word.now ≡ 4 }
    ensures { result ≡ length (register_line word.now (register_view register.now)) }
{
    let mut buffer = Buffer::new();
    let digits = buffer.format(register.size).len();
    word.len() + 1 + register.name.as_str().len() + 1 + digits + 3
}

fn register_lines_length(word: &[u8], registers: &[Register]) -> usize
    requires word { length word.now ≡ 4 }
    requires fits { length (flat_map (register_line word.now) (map register_view registers.now)) < 2 ^ 62 }
    ensures { result ≡ length (flat_map (register_line word.now) (map register_view registers.now)) }
{
    let mut sum = 0;
    for register in registers {
        sum += register_line_length(word, register);
    }
    sum
}

#[inline]
fn word_length(gate: Gate) -> usize
    ensures exact { result ≡ length (gate_word gate) }
    ensures short { result ≤ 3 }
{
    match gate {
        Gate::H { .. } | Gate::X { .. } => 1,
        Gate::Phase { eighths, .. } => match eighths {
            Eighths::T | Eighths::S | Eighths::Z => 1,
            Eighths::Sdg | Eighths::Tdg => 3,
        },
        Gate::Cx { .. } => 2,
    }
}

// Of the arguments of a gate with a comma between each two.
#[inline]
fn arguments_length(wires: &Places, gate: Gate) -> usize
    requires { IsOnWires (places_of wires.now) gate }
    ensures exact { result
        ≡ length (join_with_byte 44 (map (place wires.now) (wires_of gate))) }
    ensures short { result < 2 ^ 40 }
{
    match gate.wires() {
        Wires::One(wire) => wires.place(wire as usize).len(),
        Wires::Two(first, last) => {
            wires.place(first as usize).len() + 1 + wires.place(last as usize).len()
        }
    }
}

#[inline]
fn gate_line_length(wires: &Places, gate: Gate) -> usize
    requires { IsOnWires (places_of wires.now) gate }
    ensures { result ≡ length (gate_line wires.now gate) }
{
    word_length(gate) + 1 + arguments_length(wires, gate) + 2
}

fn gate_lines_length(wires: &Places, gates: &[Gate]) -> usize
    requires circuit { IsCircuit (places_of wires.now) gates.now }
    requires fits { length (flat_map (gate_line wires.now) gates.now) < 2 ^ 62 }
    ensures { result ≡ length (flat_map (gate_line wires.now) gates.now) }
{
    let mut sum = 0;
    for gate in gates {
        sum += gate_line_length(wires, *gate);
    }
    sum
}

// Of wires with a comma in front of each.
fn next_wires_length(wires: &Places, more: &[u64]) -> usize
    requires each { All (λ w. w < places_of wires.now) more.now }
    requires fits { length (flat_map (λ w. 44 ∷ place wires.now w) more.now) < 2 ^ 62 }
    ensures { result ≡ length (flat_map (λ w. 44 ∷ place wires.now w) more.now) }
{
    let mut sum = 0;
    for wire in more {
        sum += 1 + wires.place(*wire as usize).len();
    }
    sum
}

// Of wires with a comma between each two.
fn wires_length(wires: &Places, numbers: &[u64]) -> usize
    requires each { All (λ w. w < places_of wires.now) numbers.now }
    requires fits { length (join_with_byte 44 (map (place wires.now) numbers.now)) < 2 ^ 62 }
    ensures { result ≡ length (join_with_byte 44 (map (place wires.now) numbers.now)) }
{
    match first_and_rest(numbers) {
        None => 0,
        Some((first, more)) => {
            wires.place(first as usize).len() + next_wires_length(wires, more)
        }
    }
}

fn tail_line_length(wires: &Places, bits: &Places, item: &TailItem) -> usize
    requires entry { IsTailEntry (places_of wires.now) (places_of bits.now) (item_view item.now) }
    requires fits { length (tail_line wires.now bits.now (item_view item.now)) < 2 ^ 62 }
    ensures { result ≡ length (tail_line wires.now bits.now (item_view item.now)) }
{
    match item {
        TailItem::Barrier { wires: numbers } => 8 + wires_length(wires, numbers.as_slice()) + 2,
        TailItem::Measure { wire, bit } => {
            8 + wires.place(*wire as usize).len() + 4 + bits.place(*bit as usize).len() + 2
        }
    }
}

fn tail_lines_length(wires: &Places, bits: &Places, items: &[TailItem]) -> usize
    requires each { All (IsTailEntry (places_of wires.now) (places_of bits.now)) (map item_view items.now) }
    requires fits { length (flat_map (tail_line wires.now bits.now) (map item_view items.now)) < 2 ^ 62 }
    ensures { result ≡ length (flat_map (tail_line wires.now bits.now) (map item_view items.now)) }
{
    let mut sum = 0;
    for item in items {
        sum += tail_line_length(wires, bits, item);
    }
    sum
}

/// How many bytes the text of a program has, by its registers with the texts of their places.
pub fn text_length(program: &Program, wires: &Places, bits: &Places) -> usize
    requires well_formed { WellFormed (view program.now) }
    requires wires { wires.now ≡ map register_view program.now.qregs.items }
    requires bits { bits.now ≡ map register_view program.now.cregs.items }
    ensures { result ≡ length (print (view program.now)) }
{
    let qregs = register_lines_length(b"qreg", program.qregs.as_slice());
    let cregs = register_lines_length(b"creg", program.cregs.as_slice());
    let gates = gate_lines_length(wires, program.gates.as_slice());
    let tail = tail_lines_length(wires, bits, program.tail.as_slice());
    HEADER.len() + qregs + cregs + gates + tail
}
