//! What the program does: its words, its text, its output and its notes.
#![tactic(auto)]

ghost use Rattle.std.specs.Prelude.{◌≡◌, ◌⊎◌, IfSome, map};
ghost use Rattle.std.specs.String.{string_bytes};
ghost use Rattle.pq_read.specs.declared.program.Options.{Options};
ghost use Rattle.pq_top.specs.Device.{moved, HasFaulted, NeverFails, Noted};
ghost use Rattle.pq_top.specs.Request.{AreFaulty, AskToRead, AskToMake};
ghost use Rattle.pq_top.specs.Outputs.{IsAccepted};
ghost use Rattle.pq_top.specs.Notes.{usage_line, out_of_memory_line};
ghost use Rattle.pq_top.specs.Answers.{IsDone, IsUsage, IsRefused, IsReadFault, IsWriteFault, IsStatus, IsUnlessMemory, IsDoneUnlessMemory, IsMadeUnlessMemory};
ghost use Rattle.pq_top.specs.Work.{status_of};
ghost use Rattle.pq_top.specs.Log.{Follows, HasLogged};

mod answer;
mod check;
#[cfg(test)]
mod device_tests;
mod feeding;
#[cfg(test)]
mod held_tests;
mod laws;
#[cfg(test)]
mod limit_tests;
mod notes;
mod optimise;
#[cfg(test)]
mod tests;

use crate::answer::{Answer, work};
pub use crate::laws::{
    commands_have_one_output, opt_keeps_its_promise, sure_devices_never_fail,
    workers_change_no_output,
};
use crate::notes::note;
use pq_command::UsageFault;
pub use pq_generate::generate;
use pq_io::{Sink, Source};
pub use pq_loop::Receipt;
use pq_round::WorkGate;
use std::alloc::Global;
use std::thread::Threads;

/// Does all that the program does: reads what the words after the program's name ask for, and the text of a
/// program where the command wants one, makes the output, writes it, and answers the status to end with.
///
/// `opt` writes the canonical text of the program with the gates that rounds leave, and then the report; `check`
/// names the first redex within Omega, or says that there is none; `gen` writes a generated program; `bench` the
/// report on optimising one. `source` gives the text, at most 67,108,864 bytes; `gen` and `bench` don't touch it.
/// `notes` takes one line where the status is neither 0 nor 1. `log` takes the receipts of the rounds that `opt` and
/// `bench` make, behind those that it holds.
///
/// The status is 0 where the command was done, 1 where `check` found a redex, 2 where the words have a fault, 3
/// where the text is refused, 4 where the source failed, 5 where the sink failed, and 6 where memory ran out.
#[tactic(auto, using(crate::proofs::Statuses::refused))]
pub fn run_popqc<R: Threads + Sync, S: Source, K: Sink, N: Sink, G: WorkGate>(
    rt: &R,
    alloc: Global,
    words: &[String],
    source: &mut S,
    sink: &mut K,
    notes: &mut N,
    log: &mut Vec<Receipt>,
    gate: &G,
) -> u8
    // What each status says.
    ensures done { result ≡ 0 → IsDone (map string_bytes words.now)
        (moved S.left S.faults source.old source.new) (moved K.held K.faults sink.old sink.new) 0 }
    ensures found { result ≡ 1 → IsDone (map string_bytes words.now)
        (moved S.left S.faults source.old source.new) (moved K.held K.faults sink.old sink.new) 1 }
    ensures usage { result ≡ 2 → IsUsage (map string_bytes words.now)
        (moved N.held N.faults notes.old notes.new) }
    ensures refused { result ≡ 3 → IsRefused (map string_bytes words.now)
        (moved S.left S.faults source.old source.new) (moved N.held N.faults notes.old notes.new) }
    ensures read_fault { result ≡ 4 → IsReadFault (map string_bytes words.now)
        (moved S.left S.faults source.old source.new) (moved N.held N.faults notes.old notes.new) }
    ensures write_fault { result ≡ 5 → IsWriteFault (map string_bytes words.now)
        (moved S.left S.faults source.old source.new) (moved K.held K.faults sink.old sink.new)
        (moved N.held N.faults notes.old notes.new) }
    ensures out_of_memory { result ≡ 6 →
        Noted (moved N.held N.faults notes.old notes.new) out_of_memory_line }

    // When a status comes, unless memory runs out.
    ensures only_these { IsStatus result }
    ensures usage_comes { AreFaulty (map string_bytes words.now) → IsUnlessMemory result 2 }
    ensures refusal_comes { (options : Options) → AskToRead (map string_bytes words.now) options
        → ¬ HasFaulted (moved S.left S.faults source.old source.new)
        → IfSome (S.left source.old) (λ text. ¬ IsAccepted options text → IsUnlessMemory result 3) }
    ensures done_comes { (options : Options) → AskToRead (map string_bytes words.now) options
        → ¬ HasFaulted (moved S.left S.faults source.old source.new)
        → ¬ HasFaulted (moved K.held K.faults sink.old sink.new)
        → IfSome (S.left source.old) (λ text. IsAccepted options text → IsDoneUnlessMemory (map string_bytes words.now)
        (moved S.left S.faults source.old source.new) (moved K.held K.faults sink.old sink.new) result) }
    ensures made_comes { AskToMake (map string_bytes words.now)
        → ¬ HasFaulted (moved K.held K.faults sink.old sink.new)
        → IsMadeUnlessMemory (map string_bytes words.now)
        (moved S.left S.faults source.old source.new) (moved K.held K.faults sink.old sink.new) result }

    // Over a source, or a sink, that never fails.
    ensures no_read_fault { NeverFails S.faults → ¬ (result ≡ 4) }
    ensures no_write_fault { NeverFails K.faults → ¬ (result ≡ 5) }

    // What the log takes.
    ensures log { (result ≡ 0) ⊎ (result ≡ 5) → HasLogged (map string_bytes words.now)
        (moved S.left S.faults source.old source.new) log.old.items log.new.items }
    ensures log_keeps { Follows log.old.items log.new.items }

    // What stays as it was.
    ensures log_unchanged { ¬ (result ≡ 0) → ¬ (result ≡ 5) → ¬ (result ≡ 6) → log.new.items ≡ log.old.items }
    ensures source_untouched { (result ≡ 2) ⊎ AskToMake (map string_bytes words.now) → source.new ≡ source.old }
    ensures sink_unchanged { ¬ (result ≡ 0) → ¬ (result ≡ 1) → ¬ (result ≡ 5) → sink.new ≡ sink.old }
    ensures notes_unchanged { (result ≡ 0) ⊎ (result ≡ 1) → notes.new ≡ notes.old }
{
    let answer = work(rt, alloc, words, source, sink, log, gate);
    note(notes, answer);
    status(answer)
}

/// Why the arguments of the program can't be had as words.
#[derive(Clone, Copy, Debug, PartialEq, Eq)]
pub enum ArgumentFault {
    /// One of them isn't text.
    NotText,
    OutOfMemory,
}

/// Notes that the arguments of the program can't be had, and answers the status to end with.
pub fn refuse_arguments<N: Sink>(notes: &mut N, fault: ArgumentFault) -> u8
    ensures not_text { fault ≡ ArgumentFault.NotText → (result ≡ 2)
        × Noted (moved N.held N.faults notes.old notes.new) (usage_line UsageFault.Words) }
    ensures out_of_memory { fault ≡ ArgumentFault.OutOfMemory → (result ≡ 6)
        × Noted (moved N.held N.faults notes.old notes.new) out_of_memory_line }
{
    let refusal = match fault {
        ArgumentFault::NotText => Answer::Usage(UsageFault::Words),
        ArgumentFault::OutOfMemory => Answer::OutOfMemory,
    };
    note(notes, refusal);
    status(refusal)
}

fn status(answer: Answer) -> u8
    ensures { result ≡ status_of answer }
{
    match answer {
        Answer::Done { found: false } => 0,
        Answer::Done { found: true } => 1,
        Answer::Usage(_) => 2,
        Answer::Refused(_) => 3,
        Answer::ReadFault { .. } => 4,
        Answer::WriteFault { .. } => 5,
        Answer::OutOfMemory => 6,
    }
}
