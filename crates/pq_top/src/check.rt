ghost use Rattle.std.specs.Prelude.{◌≡◌, ◌≤◌, ◌++◌, ℕ, List, flat_map, IfOk, OnOk};
ghost use Rattle.pq_limits.specs.Limits.{IsOmega};
ghost use Rattle.pq_match.specs.Found.{seen};
ghost use Rattle.pq_read.specs.declared.program.Options.{Options};
ghost use Rattle.pq_read.specs.Environment.{view};
ghost use Rattle.pq_read.specs.Reads.{Reads};
ghost use Rattle.pq_text.specs.WellFormed.{WellFormed};
ghost use Rattle.pq_top.specs.Outputs.{spaced, redex_line, local_line, IsCheckText};
ghost use Rattle.pq_top.specs.Work.{status_by};

use crate::answer::Output;
use pq_io::{ByteList, OutOfMemory};
use pq_match::{Redex, find_within};
use pq_read::Program;
use pq_rules::Rules;
use pq_write::push_number;
use std::alloc::Global;

/// Names the first redex of a program whose span is at most Omega, or says that there is none. Beside the program and the rules it takes memory for one line. Omega is 2 to 1,024.
#[tactic(auto, using(crate::proofs::Checking::names_redex))]
pub fn checked(alloc: Global, program: Program, omega: u32) -> Result<Output, OutOfMemory>
    requires formed { WellFormed (view program) }
    requires omega { IsOmega omega }
    ensures { IfOk result (λ output. (options : Options) (text : List ℕ) → Reads text options (view program)
        → IsCheckText omega options text (status_by output.found) output.text.items) }
{
    let rules = Rules::builtin(alloc)?;
    match find_within(program.gates.as_slice(), &rules, omega) {
        Some(redex) => Ok(Output {
            text: redex_text(alloc, &redex)?,
            found: true,
        }),
        None => Ok(Output {
            text: local_text(alloc)?,
            found: false,
        }),
    }
}

/// The line that there is no redex.
#[tactic(auto, unfolding(crate::specs::Outputs::local_line))]
fn local_text(alloc: Global) -> Result<ByteList, OutOfMemory>
    ensures { IfOk result (λ text. text.items ≡ local_line) }
{
    let line = Vec::from_slice(alloc, b"local\n")?;
    Ok(ByteList::of(line))
}

// Room for the line of a redex: 10 bytes for the words, at most 10 digits for the number of the row, and at most
// 11 bytes for each of eight places.
const LINE_ROOM: usize = 108;

/// The line of a redex.
fn redex_text(alloc: Global, redex: &Redex) -> Result<ByteList, OutOfMemory>
    requires { redex.now.count ≤ 8 }
    ensures { IfOk result (λ text. (wires : List ℕ) → text.items ≡ redex_line (seen redex.now wires)) }
{
    let mut line = Vec::with_capacity(alloc, LINE_ROOM)?;
    push_number(&mut line, b"redex ", u64::from(redex.row))?;
    line.extend_from_slice(b" at")?;
    push_places(&mut line, &redex.places[..redex.count as usize])?;
    line.push(b'\n')?;
    Ok(ByteList::of(line))
}

/// Appends the places, a space before each.
fn push_places(line: &mut Vec<u8>, places: &[u32]) -> Result<(), OutOfMemory>
    ensures { OnOk result (line.new.items ≡ line.old.items ++ flat_map spaced places.now) }
{
    for place in places {
        push_number(line, b" ", u64::from(*place))?;
    }
    Ok(())
}
