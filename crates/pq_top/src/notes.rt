ghost use Rattle.std.specs.Prelude.{◌≡◌, ◌≤◌, ◌++◌, codes, flat_map};
ghost use Rattle.pq_command.specs.CommandLine.{name_of as switch_name};
ghost use Rattle.pq_io.specs.Whole.{WritesWhole};
ghost use Rattle.pq_top.specs.Device.{moved, Noted};
ghost use Rattle.pq_top.specs.Notes.{piece_text, usage_line, refusal_line, fault_line};
ghost use Rattle.pq_top.specs.Work.{note_line, LeavesNotes};

use crate::answer::{Answer, Refusal};
use itoa::Buffer;
use pq_command::{Switch, UsageFault};
use pq_io::{Sink, WriteFault, write_whole};
use pq_limits::MAX_INPUT;

/// A piece of a line: a text, or a number in decimal.
#[derive(Clone, Copy)]
pub enum Piece<'t> {
    Text(&'t [u8]),
    Number(u64),
}

/// Puts the line of an answer into the notes; nothing where the work was done. A failing sink of notes
/// changes nothing else.
#[tactic(auto, unfolding(crate::specs::Notes::read_fault_line, crate::specs::Notes::write_fault_line, crate::specs::Notes::out_of_memory_line))]
pub fn note<N: Sink>(notes: &mut N, answer: Answer)
    ensures noted { Noted (moved N.held N.faults notes.old notes.new) (note_line answer) }
    ensures quiet { LeavesNotes answer → notes.new ≡ notes.old }
{
    match answer {
        Answer::Done { .. } => {}
        Answer::Usage(fault) => note_usage(notes, fault),
        Answer::Refused(refusal) => note_refusal(notes, refusal),
        Answer::ReadFault { taken } => put(
            notes,
            &[
                Piece::Text(b"popqc: read fault after "),
                Piece::Number(taken),
                Piece::Text(b" bytes\n"),
            ],
        ),
        Answer::WriteFault { sent } => put(
            notes,
            &[
                Piece::Text(b"popqc: write fault after "),
                Piece::Number(sent),
                Piece::Text(b" bytes\n"),
            ],
        ),
        Answer::OutOfMemory => put(notes, &[Piece::Text(b"popqc: out of memory\n")]),
    }
}

#[tactic(auto, unfolding(crate::specs::Notes::refusal_line))]
fn note_refusal<N: Sink>(notes: &mut N, refusal: Refusal)
    ensures { Noted (moved N.held N.faults notes.old notes.new) (refusal_line refusal) }
{
    match refusal {
        Refusal::Text(fault) => note_fault(notes, fault),
        Refusal::TooLong => {
            put(
                notes,
                &[
                    Piece::Text(b"popqc: refused: more than "),
                    Piece::Number(MAX_INPUT),
                    Piece::Text(b" bytes\n"),
                ],
            );
        },
    }
}

// The number and the name of a fault, and where it stands.
#[tactic(auto, using(crate::proofs::Noting::fault_noted))]
fn note_fault<N: Sink>(notes: &mut N, fault: pq_read::Refusal)
    ensures { Noted (moved N.held N.faults notes.old notes.new) (fault_line fault) }
{
    put(
        notes,
        &[
            Piece::Text(b"popqc: refused "),
            Piece::Number(fault.kind.number() as u64),
            Piece::Text(b" "),
            Piece::Text(fault.kind.name().as_bytes()),
            Piece::Text(b" at "),
            Piece::Number(fault.line as u64),
            Piece::Text(b":"),
            Piece::Number(fault.column as u64),
            Piece::Text(b"\n"),
        ],
    );
}

// Puts the pieces one after another, up to the first that fails.
fn put<N: Sink>(notes: &mut N, pieces: &[Piece])
    ensures { Noted (moved N.held N.faults notes.old notes.new) (flat_map piece_text pieces.now) }
{
    for piece in pieces {
        match put_piece(notes, piece) {
            Ok(()) => {}
            Err(_) => return,
        }
    }
}

fn put_piece<N: Sink>(notes: &mut N, piece: &Piece) -> Result<(), WriteFault>
    ensures answer { WritesWhole (N.held notes.old) (N.held notes.new) (N.faults notes.old) (N.faults notes.new) (piece_text piece.now) result }
    ensures never_falls { N.faults notes.old ≤ N.faults notes.new }
{
    match piece {
        Piece::Text(text) => write_whole(notes, text),
        Piece::Number(number) => write_whole(notes, Buffer::new().format(*number).as_bytes()),
    }
}

#[tactic(auto, unfolding(crate::specs::Notes::usage_line))]
fn note_usage<N: Sink>(notes: &mut N, fault: UsageFault)
    ensures { Noted (moved N.held N.faults notes.old notes.new) (usage_line fault) }
{
    match fault {
        UsageFault::Words => put(notes, &[Piece::Text(b"popqc: usage: words\n")]),
        UsageFault::Command => put(notes, &[Piece::Text(b"popqc: usage: command\n")]),
        UsageFault::Unwanted(switch) => note_switch(notes, b"unwanted ", switch),
        UsageFault::Missing(switch) => note_switch(notes, b"missing ", switch),
        UsageFault::Number(switch) => note_switch(notes, b"number ", switch),
        UsageFault::Range(switch) => note_switch(notes, b"range ", switch),
    }
}

// What is wrong with an option.
fn note_switch<N: Sink>(notes: &mut N, fault: &[u8], switch: Switch)
    ensures { Noted (moved N.held N.faults notes.old notes.new)
        (codes "popqc: usage: " ++ (fault.now ++ (switch_name switch ++ codes "\n"))) }
{
    put(
        notes,
        &[
            Piece::Text(b"popqc: usage: "),
            Piece::Text(fault),
            Piece::Text(switch.name().as_bytes()),
            Piece::Text(b"\n"),
        ],
    );
}
