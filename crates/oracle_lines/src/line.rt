ghost use Rattle.std.specs.Prelude.{◌≡◌, ◌≢◌, ◌≤◌, IfOk, MatchOption, length, vec_len};
ghost use Rattle.pq_gate.specs.declared.gate.Gate.{Gate};
ghost use Rattle.pq_gate.specs.Circuit.{IsOnWires};
ghost use Rattle.oracle_lines.specs.Words.{digit_of, word_of};

use anyhow::{Context, Result, bail};
use pq_gate::{Gate, GateList};
use pq_limits::MAX_SEGMENT;
use pq_list::OutOfMemory;
use pq_match::Seg;
use pq_rules::RawRow;
use std::alloc::Global;

/// A line of the input.
#[derive(Drop)]
pub enum Line {
    /// `row WIRES PATTERN.. / REPLACEMENT..`, a row that nobody has checked.
    Row(RawRow),

    /// `segment GATES..`, at most 2,048 of them.
    Segment(Seg),
}

/// The line with this text. The error says what is no part of one.
pub fn line_of(alloc: Global, text: &str) -> Result<Line> {
    if let Some(words) = text.strip_prefix("row ") {
        return Ok(Line::Row(row_of(alloc, words)?));
    }
    if let Some(words) = text.strip_prefix("segment") {
        let gates = gates_of(alloc, words)?;
        return Ok(Line::Segment(segment_of(alloc, gates.as_slice())?));
    }
    bail!("neither a row nor a segment")
}

// the row with these words
fn row_of(alloc: Global, words: &str) -> Result<RawRow> {
    let (wires, sides) = words.split_once(' ').context("no wires")?;
    let (pattern, replacement) = sides.split_once('/').context("no replacement")?;
    Ok(RawRow {
        wires: wires.parse().context(wires)?,
        pattern: GateList::of(gates_of(alloc, pattern)?),
        replacement: GateList::of(gates_of(alloc, replacement)?),
    })
}

// the segment of these gates
fn segment_of(alloc: Global, gates: &[Gate]) -> Result<Seg, OutOfMemory>
    requires { length gates.now ≤ MAX_SEGMENT }
    ensures { IfOk result (λ seg. seg.items ≡ gates.now) }
{
    let mut seg = Seg::reserve(alloc, gates.len() as u32)?;
    for gate in gates {
        seg.push(*gate);
    }
    Ok(seg)
}

// the gates with these words
fn gates_of(alloc: Global, words: &str) -> Result<Vec<Gate>>
    ensures { IfOk result (λ gates. vec_len gates ≤ MAX_SEGMENT) }
{
    let mut gates = Vec::new(alloc);
    for word in words.split_whitespace() {
        if gates.len() == MAX_SEGMENT as usize {
            bail!("too many gates");
        }
        gates.push(gate_of(word.as_bytes()).context(word)?)?;
    }
    Ok(gates)
}

/// The gate with this word, on wires below 10.
pub fn gate_of(word: &[u8]) -> Option<Gate>
    ensures { MatchOption result ((gate : Gate) → IsOnWires 10 gate → word_of gate ≢ word.now) (λ gate. word_of gate ≡ word.now) }
{
    match word {
        [b'h', wire @ b'0'..=b'9'] => Some(Gate::h(wire_of(*wire))),
        [b'x', wire @ b'0'..=b'9'] => Some(Gate::x(wire_of(*wire))),
        [b't', wire @ b'0'..=b'9'] => Some(Gate::t(wire_of(*wire))),
        [b's', wire @ b'0'..=b'9'] => Some(Gate::s(wire_of(*wire))),
        [b'z', wire @ b'0'..=b'9'] => Some(Gate::z(wire_of(*wire))),
        [b's', b'd', b'g', wire @ b'0'..=b'9'] => Some(Gate::sdg(wire_of(*wire))),
        [b't', b'd', b'g', wire @ b'0'..=b'9'] => Some(Gate::tdg(wire_of(*wire))),
        [b'c', b'x', control @ b'0'..=b'9', target @ b'0'..=b'9'] => {
            Some(Gate::cx(wire_of(*control), wire_of(*target)))
        }
        _ => None,
    }
}

// the wire with this digit
fn wire_of(digit: u8) -> u32
    requires { 48 ≤ digit }
    ensures { digit_of result ≡ digit }
{
    u32::from(digit - b'0')
}
