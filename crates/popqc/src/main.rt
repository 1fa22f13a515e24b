//! The program: standard input is the source, standard output the sink, and standard error takes the
//! notes.
#![tactic(auto)]

use pq_io::{ReadSource, WriteSink};
use pq_round::OpenGate;
use pq_top::{ArgumentFault, refuse_arguments, run_popqc};
use std::io::ErrorKind;
use std::process::ExitCode;
use std::{env, io};

// How many words are taken and given back at the start: just under 32 MiB, above which the allocator changes nothing.
const GIVEN_BACK: usize = 4_190_000;

fn main(rt: HostRuntime) -> ExitCode {
    keep_freed_memory(&rt);
    let mut notes = WriteSink::new(rt.stderr());
    let status = match words(&rt) {
        Ok(words) => {
            let mut source = ReadSource::new(rt.stdin());
            let mut sink = WriteSink::new(rt.stdout());
            let mut log = Vec::new(rt.alloc());
            run_popqc(
                &rt,
                rt.alloc(),
                words.as_slice(),
                &mut source,
                &mut sink,
                &mut notes,
                &mut log,
                &OpenGate,
            )
        }
        Err(fault) => refuse_arguments(&mut notes, fault),
    };
    ExitCode::from(status)
}

// Takes a large block and gives it back untouched; where it is refused, nothing is lost. The allocator (glibc's) hands a
// freed block to the system where it is larger than each one that was freed before it, and takes pages anew for the next
// one. From here on it keeps what is freed for what is taken next, so that no round has to touch new pages.
fn keep_freed_memory(rt: &HostRuntime) {
    let _block = Vec::<u64>::with_capacity(rt.alloc(), GIVEN_BACK);
}

// The words after the program's name.
fn words(rt: &HostRuntime) -> Result<Vec<String>, ArgumentFault> {
    let arguments = env::args(rt).map_err(|error| fault_of(&error))?;
    arguments
        .skip(1)
        .collect(rt.alloc())
        .map_err(|_| ArgumentFault::OutOfMemory)
}

// Why the arguments can't be had.
fn fault_of(error: &io::Error) -> ArgumentFault {
    match error.kind() {
        ErrorKind::OutOfMemory => ArgumentFault::OutOfMemory,
        _ => ArgumentFault::NotText,
    }
}
