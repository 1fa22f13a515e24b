ghost use Rattle.std.specs.Prelude.{◌≡◌};
ghost use Rattle.pq_command.specs.CommandLine.{name_of};
ghost use Rattle.pq_command.specs.declared.fault.WordsError.TheVariants.{OutOfMemory};

use std::alloc::AllocError;
use thiserror::Error;

/// An option of the command line, or its flag.
#[derive(Clone, Copy, Debug, PartialEq, Eq)]
pub enum Switch {
    Omega,
    Workers,
    DropBarriers,
    Seed,
    Qubits,
    Gates,
}

impl Switch {
    /// The name, without the two dashes.
    pub fn name(self) -> &'static str
        ensures { result.now ≡ name_of self }
    {
        match self {
            Switch::Omega => "omega",
            Switch::Workers => "workers",
            Switch::DropBarriers => "drop-barriers",
            Switch::Seed => "seed",
            Switch::Qubits => "qubits",
            Switch::Gates => "gates",
        }
    }
}

/// What is wrong with the words after the program's name.
#[derive(Clone, Copy, Debug, PartialEq, Eq, Error)]
pub enum UsageFault {
    /// They aren't a command with options, as the command line has them.
    #[error("the words aren't a command with options")]
    Words,

    /// There is no command of this name.
    #[error("there is no such command")]
    Command,

    /// The option is given, and the command takes no such option.
    #[error("the command takes no --{name}", name = .0.name())]
    Unwanted(Switch),

    /// The command needs the option, and it isn't given.
    #[error("the command needs --{name}", name = .0.name())]
    Missing(Switch),

    /// The option's text isn't 1 to 20 decimal digits.
    #[error("--{name} isn't 1 to 20 decimal digits", name = .0.name())]
    Number(Switch),

    /// The option's number is outside its range.
    #[error("--{name} is outside its range", name = .0.name())]
    Range(Switch),
}

/// Why there are no settings.
#[derive(Clone, Copy, Debug, PartialEq, Eq, Error)]
pub enum WordsError {
    /// The words have a fault.
    #[error(transparent)]
    Usage(UsageFault),

    /// Memory was refused.
    #[error("out of memory")]
    OutOfMemory,
}

impl From<AllocError> for WordsError {
    ghost from_gives = { λ _ e. e ≡ OutOfMemory };

    fn from(_error: AllocError) -> WordsError {
        WordsError::OutOfMemory
    }
}
