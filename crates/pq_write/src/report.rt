ghost use Rattle.std.specs.Prelude.{◌≡◌, ◌++◌, ◌+◌, ◌≤◌, length, IfOk};
ghost use Rattle.pq_write.specs.Report.{report_text};

use crate::text::{put, put_number};
use pq_io::{ByteList, OutOfMemory};
use std::alloc::Global;

/// The numbers of a report on a run of the optimiser.
#[derive(Clone, Copy, Debug, PartialEq, Eq)]
pub struct ReportNumbers {
    /// How many gates went in.
    pub gates_in: u64,

    /// How many gates came out.
    pub gates_out: u64,

    /// How many rounds there were.
    pub rounds: u64,

    /// How often the oracle was called: the selected fingers of all rounds.
    pub calls: u64,

    /// How many fingers there were in the beginning.
    pub first_fingers: u64,

    /// By how many eighths of a whole turn the gates that went in turn more than those that came out, 0 to 7.
    pub phase: u8,
}

/// How many bytes the text of a report has at most: 60 for the words, 20 for each of the five long numbers, and 3
/// for the phase.
pub const REPORT_ROOM: u64 = 163;

/// Appends the text of a report. There is room for the longest.
#[tactic(auto, using(crate::proofs::Room::length_append, crate::proofs::Room::long_digits, crate::proofs::Room::short_digits))]
pub fn push_report(out: &mut ByteList, report: ReportNumbers)
    requires room { length out.old.items + REPORT_ROOM ≤ out.old.room }
    ensures items { out.new.items ≡ out.old.items ++ report_text report }
    ensures room { out.new.room ≡ out.old.room }
{
    put_number(out, b"// gates ", report.gates_in);
    put_number(out, b" ", report.gates_out);
    put_number(out, b"\n// rounds ", report.rounds);
    put_number(out, b"\n// calls ", report.calls);
    put_number(out, b"\n// first fingers ", report.first_fingers);
    put_number(out, b"\n// phase ", u64::from(report.phase));
    put(out, b"\n");
}

/// The text of a report: five lines, each a comment. Room for the longest is taken once.
pub fn write_report(alloc: Global, report: &ReportNumbers) -> Result<ByteList, OutOfMemory>
    ensures text { IfOk result (λ text. text.items ≡ report_text report.now) }
    ensures room { IfOk result (λ text. text.room ≡ REPORT_ROOM) }
{
    let mut out = ByteList::with_room(alloc, REPORT_ROOM)?;
    push_report(&mut out, *report);
    Ok(out)
}
