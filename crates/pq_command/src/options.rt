ghost use Rattle.std.specs.Prelude.{◌≡◌, ◌<◌, ◌≤◌, ◌^◌, SomeIff, option_map, true};
ghost use Rattle.std.specs.Char.{is_ascii_digit};
ghost use Rattle.std.specs.List.{list_all};
ghost use Rattle.std.specs.Str.Parse.{digits_value};
ghost use Rattle.clap.specs.Words.{found_of, rows_of};
ghost use Rattle.pq_command.specs.Asked as asked;

use crate::fault::{Switch, UsageFault};
use crate::settings::Command;
use clap::ArgMatches;
use pq_limits::{
    MAX_GATES, MAX_OMEGA, MAX_QUBITS, MAX_WORKERS, MIN_OMEGA, MIN_QUBITS, MIN_WORKERS,
};

// the most digits of a number
const MAX_DIGITS: usize = 20;

/// The first fault of an option.
pub fn fault_of(matches: &ArgMatches, command: Command, switch: Switch) -> Option<UsageFault>
    ensures { result ≡ asked.switch_fault command (rows_of (found_of matches.now)) switch }
{
    match text_of(matches, switch) {
        Some(text) if is_taken(command, switch) => fault_of_text(switch, text),
        Some(_) => Some(UsageFault::Unwanted(switch)),
        None if is_needed(command, switch) => Some(UsageFault::Missing(switch)),
        None => None,
    }
}

/// The text that was given with an option, where it was given; that of the flag is empty.
pub fn text_of<'a>(matches: &ArgMatches<'a>, switch: Switch) -> Option<&'a str>
    ensures { option_map (λ text. text.now) result ≡ asked.given (rows_of (found_of matches.now)) switch }
{
    let Some(text) = matches.get_str(switch.name()) else {
        return None;
    };
    match switch {
        Switch::DropBarriers if text == "true" => Some(""),
        Switch::DropBarriers => None,
        _ => Some(text),
    }
}

/// Whether a command takes an option, or the flag.
fn is_taken(command: Command, switch: Switch) -> bool
    ensures { result ≡ asked.is_taken command switch }
{
    match command {
        Command::Opt => matches!(
            switch,
            Switch::Omega | Switch::Workers | Switch::DropBarriers
        ),
        Command::Check => matches!(switch, Switch::Omega | Switch::DropBarriers),
        Command::Gen => is_needed(command, switch),
        Command::Bench => !matches!(switch, Switch::DropBarriers),
    }
}

/// Whether a command needs an option.
fn is_needed(command: Command, switch: Switch) -> bool
    ensures { result ≡ asked.is_needed command switch }
{
    match command {
        Command::Opt | Command::Check => false,
        Command::Gen | Command::Bench => matches!(
            switch,
            Switch::Seed | Switch::Qubits | Switch::Gates
        ),
    }
}

/// The first fault of the text of an option.
fn fault_of_text(switch: Switch, text: &str) -> Option<UsageFault>
    ensures { result ≡ asked.text_fault switch text.now }
{
    if matches!(switch, Switch::DropBarriers) {
        return None;
    }
    if !is_number(text.as_bytes()) {
        return Some(UsageFault::Number(switch));
    }
    match value_of(text) {
        Some(number) if is_in_range(switch, number) => None,
        _ => Some(UsageFault::Range(switch)),
    }
}

/// Whether the text is 1 to 20 decimal digits.
fn is_number(text: &[u8]) -> bool
    ensures { result ≡ asked.is_number text.now }
{
    !text.is_empty() && text.len() <= MAX_DIGITS && are_digits(text)
}

/// Whether each byte is a decimal digit.
#[tactic(auto, using(crate::proofs::Numbers::same_test))]
fn are_digits(text: &[u8]) -> bool
    ensures { result ≡ list_all is_ascii_digit text.now }
{
    text.iter().all(|byte| byte.is_ascii_digit())
}

/// The value of a number, where it is below 2^64.
fn value_of(text: &str) -> Option<u64>
    requires { asked.is_number text.now ≡ true }
    ensures { SomeIff result (digits_value 10 text.now < 2 ^ 64) (digits_value 10 text.now) }
{
    text.parse::<u64>().ok()
}

/// The least and the greatest number that an option may have.
fn range_of(switch: Switch) -> (u64, u64)
    ensures least { result.0 ≡ asked.least switch }
    ensures greatest { result.1 ≡ asked.greatest switch }
{
    match switch {
        Switch::Omega => (u64::from(MIN_OMEGA), u64::from(MAX_OMEGA)),
        Switch::Workers => (u64::from(MIN_WORKERS), u64::from(MAX_WORKERS)),
        Switch::Qubits => (u64::from(MIN_QUBITS), u64::from(MAX_QUBITS)),
        Switch::Gates => (0, u64::from(MAX_GATES)),
        Switch::Seed | Switch::DropBarriers => (0, u64::MAX),
    }
}

/// Whether a number lies in the range of an option.
fn is_in_range(switch: Switch, number: u64) -> bool
    ensures { result ≡ asked.is_in_range switch number }
{
    let (least, greatest) = range_of(switch);
    least <= number && number <= greatest
}

/// The number that was given with an option, or else the default one.
pub fn number(matches: &ArgMatches, switch: Switch, default: u64) -> u64
    requires { asked.IsFaultless (rows_of (found_of matches.now)) switch }
    ensures value { result ≡ asked.number_or default (rows_of (found_of matches.now)) switch }
    ensures most { default ≤ asked.greatest switch → result ≤ asked.greatest switch }
{
    match text_of(matches, switch) {
        Some(text) => value_of(text).unwrap_or(default),
        None => default,
    }
}
