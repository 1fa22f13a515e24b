ghost use Rattle.std.specs.Prelude.{◌≡◌, true, false, IfOk, IfErr, map};
ghost use Rattle.std.specs.String.{string_bytes};
ghost use Rattle.clap.specs.Words.{app_of, found_of, matches_of, rows_of, rule_of, takes};
ghost use Rattle.pq_command.specs.CommandLine.{app, bare, flag_rule, option_rule, word_rule};
ghost use Rattle.pq_command.specs.Asked.{IsUntaken};

use crate::fault::{UsageFault, WordsError};
use clap::error::ErrorKind;
use clap::{Arg, ArgAction, ArgMatches, Command};
use std::alloc::{AllocError, Global};

/// What clap finds in the words.
pub fn matched<'a>(alloc: Global, words: &'a [String]) -> Result<ArgMatches<'a>, WordsError>
    ensures takes { IfOk result (λ _. takes app (map string_bytes words.now) ≡ true) }
    ensures rows { IfOk result (λ matches. rows_of (found_of matches) ≡ matches_of app (map string_bytes words.now)) }
    ensures fault { IfErr result (IsUntaken (map string_bytes words.now)) }
{
    let command = command_line(alloc)?;
    match command.try_get_matches_from(words) {
        Ok(matches) => Ok(matches),
        Err(error) => match error.kind() {
            ErrorKind::OutOfMemory => Err(WordsError::OutOfMemory),
            _ => Err(WordsError::Usage(UsageFault::Words)),
        },
    }
}

/// The one simple command that the words are read by.
fn command_line<'a>(alloc: Global) -> Result<Command<'a>, AllocError>
    ensures { IfOk result (λ command. app_of command ≡ app) }
{
    bare_command(alloc)
        .arg(word(alloc, "command"))?
        .arg(option(alloc, "omega"))?
        .arg(option(alloc, "workers"))?
        .arg(flag(alloc, "drop-barriers"))?
        .arg(option(alloc, "seed"))?
        .arg(option(alloc, "qubits"))?
        .arg(option(alloc, "gates"))
}

/// The command without arguments: no word is the program's name, and no flag asks for help or the version.
fn bare_command<'a>(alloc: Global) -> Command<'a>
    ensures { app_of result ≡ bare }
{
    Command::new(alloc, "popqc")
        .no_binary_name(true)
        .disable_help_flag(true)
        .disable_version_flag(true)
}

/// A word that must stand.
fn word<'a>(alloc: Global, name: &'a str) -> Arg<'a>
    ensures rule { rule_of result ≡ word_rule name.entry.now }
    ensures local { result.global ≡ false }
{
    Arg::new(alloc, name).required(true)
}

/// An option with one text.
fn option<'a>(alloc: Global, name: &'a str) -> Arg<'a>
    ensures rule { rule_of result ≡ option_rule name.entry.now }
    ensures local { result.global ≡ false }
{
    Arg::new(alloc, name).long(name).action(ArgAction::Set)
}

/// A flag.
fn flag<'a>(alloc: Global, name: &'a str) -> Arg<'a>
    ensures rule { rule_of result ≡ flag_rule name.entry.now }
    ensures local { result.global ≡ false }
{
    Arg::new(alloc, name).long(name).action(ArgAction::SetTrue)
}
