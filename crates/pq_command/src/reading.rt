ghost use Rattle.std.specs.Prelude.{◌≡◌, ◌<◌, ◌≤◌, ◌^◌, Ok, None, IfOk, IfErr, map};
ghost use Rattle.std.specs.String.{string_bytes};
ghost use Rattle.clap.specs.Words.{found_of, rows_of};
ghost use Rattle.pq_command.specs.Asked.{IsFaultOf, IsFaultless, asked, asked_by, command_of, greatest, number_or, settings_of};
ghost use Rattle.pq_command.specs.Asked as spec;
ghost use Rattle.pq_command.specs.Ranges.{IsInRange};

use crate::fault::{Switch, UsageFault, WordsError};
use crate::line::matched;
use crate::options::{fault_of, number, text_of};
use crate::settings::{Command, Settings};
use clap::ArgMatches;
use pq_limits::{DEFAULT_OMEGA, DEFAULT_WORKERS};
use std::alloc::Global;

// the options, in the order in which they are looked at
const SWITCHES: [Switch; 6] = [
    Switch::Omega,
    Switch::Workers,
    Switch::DropBarriers,
    Switch::Seed,
    Switch::Qubits,
    Switch::Gates,
];

/// What the words after the program's name ask for.
#[tactic(auto, unfolding(crate::specs::Asked::asked))]
pub fn read_words(alloc: Global, words: &[String]) -> Result<Settings, WordsError>
    ensures settings { IfOk result (λ settings. asked (map string_bytes words.now) ≡ Ok settings) }
    ensures in_range { IfOk result IsInRange }
    ensures fault { IfErr result (IsFaultOf (map string_bytes words.now)) }
{
    let matches = matched(alloc, words)?;
    asked_of(&matches).map_err(WordsError::Usage)
}

/// What the matches ask for.
fn asked_of(matches: &ArgMatches) -> Result<Settings, UsageFault>
    ensures asked { result ≡ asked_by (rows_of (found_of matches.now)) }
    ensures in_range { IfOk result IsInRange }
{
    let Some(word) = matches.get_str("command") else {
        return Err(UsageFault::Command);
    };
    let Some(command) = command_named(word) else {
        return Err(UsageFault::Command);
    };
    match first_fault(matches, command) {
        Some(fault) => Err(fault),
        None => Ok(with_numbers(matches, command)),
    }
}

/// The command of this name.
fn command_named(word: &str) -> Option<Command>
    ensures { result ≡ command_of word.now }
{
    match word {
        "opt" => Some(Command::Opt),
        "check" => Some(Command::Check),
        "gen" => Some(Command::Gen),
        "bench" => Some(Command::Bench),
        _ => None,
    }
}

/// The first fault of all options.
#[tactic(auto, using(crate::proofs::Faultless::first_here, crate::proofs::Faultless::fault_after))]
fn first_fault(matches: &ArgMatches, command: Command) -> Option<UsageFault>
    ensures { result ≡ spec.first_fault command (rows_of (found_of matches.now)) }
{
    for switch in &SWITCHES {
        if let Some(fault) = fault_of(matches, command, *switch) {
            return Some(fault);
        }
    }
    None
}

/// The settings of a command whose options have no fault.
fn with_numbers(matches: &ArgMatches, command: Command) -> Settings
    requires { spec.first_fault command (rows_of (found_of matches.now)) ≡ None }
    ensures { result ≡ settings_of command (rows_of (found_of matches.now)) }
{
    let omega = small_number(matches, Switch::Omega, DEFAULT_OMEGA);
    let workers = small_number(matches, Switch::Workers, DEFAULT_WORKERS);
    let drop_barriers = text_of(matches, Switch::DropBarriers).is_some();
    let seed = number(matches, Switch::Seed, 0);
    let qubits = small_number(matches, Switch::Qubits, 0);
    let gates = small_number(matches, Switch::Gates, 0);
    match command {
        Command::Opt => Settings::Opt {
            omega,
            workers,
            drop_barriers,
        },
        Command::Check => Settings::Check {
            omega,
            drop_barriers,
        },
        Command::Gen => Settings::Gen {
            seed,
            qubits,
            gates,
        },
        Command::Bench => Settings::Bench {
            omega,
            workers,
            seed,
            qubits,
            gates,
        },
    }
}

/// The number of an option whose numbers are small, or else the default one.
fn small_number(matches: &ArgMatches, switch: Switch, default: u32) -> u32
    requires faultless { IsFaultless (rows_of (found_of matches.now)) switch }
    requires small { greatest switch < 2 ^ 32 }
    requires within { default ≤ greatest switch }
    ensures { result ≡ number_or default (rows_of (found_of matches.now)) switch }
{
    number(matches, switch, u64::from(default)) as u32
}
