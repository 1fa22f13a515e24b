ghost use Rattle.std.specs.Prelude.{◌≡◌, None, map, IfOk, IfErr};
ghost use Rattle.std.specs.String.{string_bytes};
ghost use Rattle.pq_command.specs.Ranges.{IsInRange};
ghost use Rattle.pq_top.specs.declared.answer.Answer.TheVariants.{OutOfMemory};
ghost use Rattle.pq_top.specs.Device.{moved};
ghost use Rattle.pq_top.specs.Request.{AskToMake, reads_by};
ghost use Rattle.pq_top.specs.Log.{LogsBy, LogsFor, LogsFailure};
ghost use Rattle.pq_top.specs.Work.{Means, LeavesSource, LeavesSink, Gives, FailsFor, WritesOutput};

use crate::check::checked;
use crate::feeding::source_program;
use crate::optimise::{benched, generated_text, optimised};
use pq_command::{Settings, UsageFault, WordsError, read_words};
use pq_io::{ByteList, Sink, Source, write_whole};
use pq_loop::Receipt;
use pq_read::Options;
use pq_round::WorkGate;
use std::alloc::{AllocError, Global};
use std::thread::Threads;

/// Why a text is refused.
#[derive(Clone, Copy, Debug, PartialEq, Eq)]
pub enum Refusal {
    /// It stands for no program; this is its first fault.
    Text(pq_read::Refusal),
    /// It has more than 67,108,864 bytes.
    TooLong,
}

/// What came of the work.
#[derive(Clone, Copy, Debug, PartialEq, Eq)]
pub enum Answer {
    /// The output was written; a redex was found where one was looked for.
    Done { found: bool },
    Usage(UsageFault),
    Refused(Refusal),
    ReadFault { taken: u64 },
    WriteFault { sent: u64 },
    OutOfMemory,
}

/// The output of a command, and whether it names a redex.
#[derive(Drop)]
pub struct Output {
    pub text: ByteList,
    pub found: bool,
}

impl From<AllocError> for Answer {
    ghost from_gives = { λ _ e. e ≡ OutOfMemory };

    fn from(_error: AllocError) -> Answer {
        Answer::OutOfMemory
    }
}

/// Does what the words ask for: reads the text, where the command wants one, makes the output and writes it. The log
/// takes the receipts of the rounds.
#[tactic(auto, using(crate::proofs::Working::failed_means, crate::proofs::Logging::failed_logs, crate::proofs::Logging::written_logs))]
pub fn work<R: Threads + Sync, S: Source, K: Sink, G: WorkGate>(
    rt: &R,
    alloc: Global,
    words: &[String],
    source: &mut S,
    sink: &mut K,
    log: &mut Vec<Receipt>,
    gate: &G,
) -> Answer
    ensures means { Means (map string_bytes words.now) (moved S.left S.faults source.old source.new)
        (moved K.held K.faults sink.old sink.new) result }
    ensures source { LeavesSource result → source.new ≡ source.old }
    ensures sink { LeavesSink result → sink.new ≡ sink.old }
    ensures untouched { AskToMake (map string_bytes words.now) → source.new ≡ source.old }
    ensures log { LogsBy (map string_bytes words.now) (moved S.left S.faults source.old source.new) log.old.items log.new.items result }
{
    match read_words(alloc, words) {
        Ok(settings) => match output_of(rt, alloc, settings, source, log, gate) {
            Ok(output) => written(sink, &output),
            Err(answer) => answer,
        },
        Err(WordsError::Usage(fault)) => Answer::Usage(fault),
        Err(WordsError::OutOfMemory) => Answer::OutOfMemory,
    }
}

/// Writes the output.
fn written<K: Sink>(sink: &mut K, output: &Output) -> Answer
    ensures { WritesOutput (moved K.held K.faults sink.old sink.new) output.now result }
{
    match write_whole(sink, output.text.as_slice()) {
        Ok(()) => Answer::Done {
            found: output.found,
        },
        Err(fault) => Answer::WriteFault { sent: fault.sent },
    }
}

/// What a command makes, of the text that the source gives where it reads one.
fn output_of<R: Threads + Sync, S: Source, G: WorkGate>(
    rt: &R,
    alloc: Global,
    settings: Settings,
    source: &mut S,
    log: &mut Vec<Receipt>,
    gate: &G,
) -> Result<Output, Answer>
    requires { IsInRange settings }
    ensures output { IfOk result (Gives settings (moved S.left S.faults source.old source.new)) }
    ensures fault { IfErr result (FailsFor settings (moved S.left S.faults source.old source.new)) }
    ensures untouched { reads_by settings ≡ None → source.new ≡ source.old }
    ensures log { IfOk result (LogsFor settings (moved S.left S.faults source.old source.new) log.old.items log.new.items) }
    ensures log_at_fault { IfErr result (LogsFailure log.old.items log.new.items) }
{
    match settings {
        Settings::Opt {
            omega,
            workers,
            drop_barriers,
        } => {
            let program = source_program(alloc, source, Options { drop_barriers })?;
            let text = optimised(rt, alloc, program, omega, workers, log, gate)?;
            Ok(Output { text, found: false })
        },
        Settings::Check {
            omega,
            drop_barriers,
        } => {
            let program = source_program(alloc, source, Options { drop_barriers })?;
            let output = checked(alloc, program, omega)?;
            Ok(output)
        },
        Settings::Gen {
            seed,
            qubits,
            gates,
        } => {
            let text = generated_text(alloc, seed, qubits, gates)?;
            Ok(Output { text, found: false })
        },
        Settings::Bench {
            omega,
            workers,
            seed,
            qubits,
            gates,
        } => {
            let text = benched(rt, alloc, omega, workers, seed, qubits, gates, log, gate)?;
            Ok(Output { text, found: false })
        },
    }
}
