ghost use Rattle.std.specs.Prelude.{◌≡◌};
ghost use Rattle.pq_read.specs.Kinds.{number_of, name_of};
ghost use Rattle.pq_read.specs.declared.refusal.ReadError.TheVariants.{OutOfMemory};

use std::alloc::{AllocError, AllocFailed};
use thiserror::Error;

/// Why a text is refused. The kinds have the numbers 1 to 18.
#[derive(Clone, Copy, Debug, PartialEq, Eq, Error)]
pub enum Kind {
    /// The text doesn't begin with the word `OPENQASM`.
    #[error("the text doesn't begin with OPENQASM")]
    NoHeader = 1,

    /// A byte that begins no token, or a quoted text that isn't closed on its line.
    #[error("no token begins here")]
    BadToken = 2,

    /// A token that the grammar doesn't allow at its place, or a missing one.
    #[error("the grammar has no such token here")]
    Syntax = 3,

    #[error("there is no such gate")]
    UnknownGate = 4,
    #[error("there is no such register")]
    UnknownRegister = 5,

    /// A register's name that another register has.
    #[error("another register has this name")]
    RepeatedName = 6,

    /// An index that isn't below the register's size.
    #[error("the index isn't below the register's size")]
    IndexOutOfRange = 7,

    /// A gate on one qubit twice.
    #[error("a gate on one qubit twice")]
    SameQubit = 8,

    /// Registers of different sizes in one statement.
    #[error("registers of different sizes in one statement")]
    SizeMismatch = 9,

    /// A form of the language that isn't accepted.
    #[error("this form of the language isn't accepted")]
    Unsupported = 10,

    #[error("a gate after a measurement")]
    GateAfterMeasure = 11,

    /// A gate after a barrier.
    #[error("a gate after a barrier")]
    BarrierInside = 12,

    /// A register of size 0.
    #[error("a register of size 0")]
    BadSize = 13,

    #[error("too many qubits")]
    TooManyQubits = 14,
    #[error("too many gates")]
    TooManyGates = 15,

    /// Too many classical bits.
    #[error("too many classical bits")]
    TooManyBits = 16,

    #[error("too many barriers and measurements")]
    TailTooLong = 17,
    #[error("the name is too long")]
    NameTooLong = 18,
}

impl Kind {
    /// Its number.
    pub fn number(self) -> u8
        ensures { result ≡ number_of self }
    {
        self as u8
    }

    /// Its name, as it stands in this list.
    pub fn name(self) -> &'static str
        ensures { result.now ≡ name_of self }
    {
        match self {
            Kind::NoHeader => "NoHeader",
            Kind::BadToken => "BadToken",
            Kind::Syntax => "Syntax",
            Kind::UnknownGate => "UnknownGate",
            Kind::UnknownRegister => "UnknownRegister",
            Kind::RepeatedName => "RepeatedName",
            Kind::IndexOutOfRange => "IndexOutOfRange",
            Kind::SameQubit => "SameQubit",
            Kind::SizeMismatch => "SizeMismatch",
            Kind::Unsupported => "Unsupported",
            Kind::GateAfterMeasure => "GateAfterMeasure",
            Kind::BarrierInside => "BarrierInside",
            Kind::BadSize => "BadSize",
            Kind::TooManyQubits => "TooManyQubits",
            Kind::TooManyGates => "TooManyGates",
            Kind::TooManyBits => "TooManyBits",
            Kind::TailTooLong => "TailTooLong",
            Kind::NameTooLong => "NameTooLong",
        }
    }
}

/// The first fault of a text: its kind, and the line and the column where it stands, both counted
/// from 1. A missing token stands after the last byte of the text.
#[derive(Clone, Copy, Debug, PartialEq, Eq, Error)]
#[error("line {line}, column {column}: {kind}")]
pub struct Refusal {
    pub kind: Kind,
    pub line: u32,
    pub column: u32,
}

/// Why no program was read.
#[derive(Clone, Copy, Debug, PartialEq, Eq, Error)]
pub enum ReadError {
    #[error(transparent)]
    Refused(Refusal),
    #[error("out of memory")]
    OutOfMemory,
}

impl From<AllocError> for ReadError {
    ghost from_gives = { λ _ e. e ≡ OutOfMemory };

    fn from(_e: AllocError) -> ReadError {
        ReadError::OutOfMemory
    }
}

impl<T: Drop> From<AllocFailed<T>> for ReadError {
    ghost from_gives = { λ _ e. e ≡ OutOfMemory };

    fn from(_e: AllocFailed<T>) -> ReadError {
        ReadError::OutOfMemory
    }
}

#[cfg(test)]
mod tests {
    use super::*;
    use std::test::Fail;

    #[test]
    fn a_kind_says_what_is_wrong(rt: HostRuntime) -> Result<(), Fail> {
        let cases: [(Kind, &str); 18] = [
            (Kind::NoHeader, "the text doesn't begin with OPENQASM"),
            (Kind::BadToken, "no token begins here"),
            (Kind::Syntax, "the grammar has no such token here"),
            (Kind::UnknownGate, "there is no such gate"),
            (Kind::UnknownRegister, "there is no such register"),
            (Kind::RepeatedName, "another register has this name"),
            (
                Kind::IndexOutOfRange,
                "the index isn't below the register's size",
            ),
            (Kind::SameQubit, "a gate on one qubit twice"),
            (
                Kind::SizeMismatch,
                "registers of different sizes in one statement",
            ),
            (
                Kind::Unsupported,
                "this form of the language isn't accepted",
            ),
            (Kind::GateAfterMeasure, "a gate after a measurement"),
            (Kind::BarrierInside, "a gate after a barrier"),
            (Kind::BadSize, "a register of size 0"),
            (Kind::TooManyQubits, "too many qubits"),
            (Kind::TooManyGates, "too many gates"),
            (Kind::TooManyBits, "too many classical bits"),
            (Kind::TailTooLong, "too many barriers and measurements"),
            (Kind::NameTooLong, "the name is too long"),
        ];
        for (kind, text) in cases {
            let shown = format!(in rt.alloc(); "{kind}")?;
            assert_eq!(rt; shown.as_str(), text);
        }
        Ok(())
    }

    #[test]
    fn a_refusal_says_where(rt: HostRuntime) -> Result<(), Fail> {
        let refusal = Refusal {
            kind: Kind::UnknownGate,
            line: 3,
            column: 17,
        };
        let cases: [(ReadError, &str); 2] = [
            (
                ReadError::Refused(refusal),
                "line 3, column 17: there is no such gate",
            ),
            (ReadError::OutOfMemory, "out of memory"),
        ];
        for (error, text) in cases {
            let shown = format!(in rt.alloc(); "{error}")?;
            assert_eq!(rt; shown.as_str(), text);
        }
        Ok(())
    }
}
