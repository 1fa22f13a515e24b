ghost use Rattle.std.specs.Prelude.{◌≡◌, ◌≤◌, ◌+◌, ◌++◌, length, IfOk, map};
ghost use Rattle.pq_text.specs.Print.{header, print};
ghost use Rattle.pq_text.specs.WellFormed.{WellFormed};
ghost use Rattle.pq_read.specs.Environment.{register_view, view};
ghost use Rattle.pq_write.specs.Report.{report_text};
ghost use Rattle.pq_write.specs.Room.{HasRoomFor};

use crate::gate::push_gate_lines;
use crate::length::text_length;
use crate::places::Places;
use crate::register::push_register_lines;
use crate::report::{REPORT_ROOM, ReportNumbers, push_report};
use crate::tail::push_tail_lines;
use crate::text::put;
use pq_io::{ByteList, OutOfMemory};
use pq_read::Program;
use std::alloc::Global;

/// The two lines that each text begins with.
pub const HEADER: &[u8] = b"OPENQASM 2.0;\ninclude \"qelib1.inc\";\n";

// Appends the two lines that each text begins with.
#[tactic(auto, unfolding(pq_text::specs::Print::header))]
fn push_header(out: &mut ByteList)
    requires room { HasRoomFor out.old header }
    ensures items { out.new.items ≡ out.old.items ++ header }
    ensures room { out.new.room ≡ out.old.room }
{
    put(out, HEADER);
}

// Appends the text of a program, with the texts of its places.
#[tactic(auto, using(crate::proofs::Room::length_append, crate::proofs::Bounds::length_print, crate::proofs::Bounds::length_header))]
fn push_program(out: &mut ByteList, program: &Program, wires: &Places, bits: &Places)
    requires well_formed { WellFormed (view program.now) }
    requires wires { wires.now ≡ map register_view program.now.qregs.items }
    requires bits { bits.now ≡ map register_view program.now.cregs.items }
    requires room { HasRoomFor out.old (print (view program.now)) }
    ensures items { out.new.items ≡ out.old.items ++ print (view program.now) }
    ensures room { out.new.room ≡ out.old.room }
{
    push_header(out);
    push_register_lines(out, b"qreg", program.qregs.as_slice());
    push_register_lines(out, b"creg", program.cregs.as_slice());
    push_gate_lines(out, wires, program.gates.as_slice());
    push_tail_lines(out, wires, bits, program.tail.as_slice());
}

// The text of a program, in a list with room for so many bytes after it. The room is taken once, beside that
// for the texts of the places.
fn text_with_room(alloc: Global, program: &Program, after: u64) -> Result<ByteList, OutOfMemory>
    requires well_formed { WellFormed (view program.now) }
    requires few { after ≤ REPORT_ROOM }
    ensures text { IfOk result (λ text. text.items ≡ print (view program.now)) }
    ensures room { IfOk result (λ text. text.room ≡ length (print (view program.now)) + after) }
{
    let wires = Places::of(alloc, program.qregs.as_slice())?;
    let bits = Places::of(alloc, program.cregs.as_slice())?;
    let room = text_length(program, &wires, &bits) as u64 + after;
    let mut out = ByteList::with_room(alloc, room)?;
    push_program(&mut out, program, &wires, &bits);
    Ok(out)
}

/// The canonical text of a program. Room for it is taken once, beside that for the texts of the places.
pub fn write_program(alloc: Global, program: &Program) -> Result<ByteList, OutOfMemory>
    requires { WellFormed (view program.now) }
    ensures text { IfOk result (λ text. text.items ≡ print (view program.now)) }
    ensures room { IfOk result (λ text. text.room ≡ length (print (view program.now))) }
{
    text_with_room(alloc, program, 0)
}

/// The canonical text of a program, and the text of a report after it. Room for both is taken once, that of the longest
/// report, beside that for the texts of the places.
pub fn write_with_report(
    alloc: Global,
    program: &Program,
    report: &ReportNumbers,
) -> Result<ByteList, OutOfMemory>
    requires { WellFormed (view program.now) }
    ensures text { IfOk result (λ text. text.items
        ≡ print (view program.now) ++ report_text report.now) }
    ensures room { IfOk result (λ text. text.room ≡ length (print (view program.now)) + REPORT_ROOM) }
{
    let mut text = text_with_room(alloc, program, REPORT_ROOM)?;
    push_report(&mut text, *report);
    Ok(text)
}
