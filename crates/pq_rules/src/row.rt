ghost use Rattle.std.specs.Prelude.{◌≡◌};
ghost use Rattle.pq_rules.specs.Fault.{with_phase, HasNoFault};
ghost use Rattle.pq_rules.specs.Row.{IsSound};

use pq_gate::{Gate, GateList};
use std::marker::Model;
use thiserror::Error;

/// A row that nobody has checked: on so many wires, numbered from 0, the pattern is to be replaced by
/// the replacement.
#[derive(Drop)]
pub struct RawRow {
    pub wires: u8,
    pub pattern: GateList,
    pub replacement: GateList,
}

/// Why a raw row is no row.
#[derive(Clone, Copy, Debug, PartialEq, Eq, Drop, Error)]
pub enum RowFault {
    /// There aren't 1 to 3 wires, or a gate names another wire, or a CX has one wire twice, or the
    /// pattern leaves out a wire.
    #[error("there aren't 1 to 3 wires, or the gates don't fit them")]
    Wires,

    /// The pattern has more than 8 gates.
    #[error("the pattern has more than 8 gates")]
    TooLong,

    /// The replacement has at least as many gates as the pattern.
    #[error("the replacement isn't shorter than the pattern")]
    NotShorter,

    /// The matrices differ by more than a phase. This is the first pair of basis states, in ascending
    /// order of `from`, then of `to`, such that no single phase makes the entries of all pairs up to
    /// and with it agree. Bit w of a basis state's number is the value of wire w.
    #[error("the matrices differ by more than a phase at the basis states {from} and {to}")]
    Differs { from: u8, to: u8 },
}

/// A sound row: on its wires the pattern's matrix is ω^phase times the replacement's, where ω is the
/// eighth root of unity e^(iπ/4), and the replacement is shorter.
#[derive(Drop)]
pub struct Row {
    raw: RawRow,
    phase: u8,
}

impl Model for Row {
    ghost use Rattle.pq_rules.specs.Row.{RowView};

    ghost Value = { RowView };

    ghost use Rattle.pq_rules.specs.Row.{IsSound};

    ghost view = { λ a. record { wires = a.raw.wires; pattern = a.raw.pattern.items; replacement = a.raw.replacement.items; phase = a.phase } };

    ghost invariant = { λ a. IsSound (record { wires = a.raw.wires; pattern = a.raw.pattern.items; replacement = a.raw.replacement.items; phase = a.phase }) };
}

impl Row {
    // the raw row with its phase; so no fault of it comes
    pub(crate) fn checked(raw: RawRow, phase: u8) -> Row
        requires { IsSound (with_phase raw phase) }
        ensures row { result ≡ with_phase raw phase }
        ensures ok { HasNoFault raw }
    {
        Row { raw, phase }
    }

    /// How many eighths of a whole turn the pattern turns by more than the replacement, from 0 to 7.
    pub fn phase(&self) -> u8
        ensures phase { result ≡ self.now.phase }
        ensures sound { IsSound self.now }
    {
        self.phase
    }

    /// The gates that may be replaced.
    pub fn pattern(&self) -> &[Gate]
        ensures pattern { result.now ≡ self.now.pattern }
        ensures sound { IsSound self.now }
    {
        self.raw.pattern.as_slice()
    }

    /// The gates that may stand in their place.
    pub fn replacement(&self) -> &[Gate]
        ensures replacement { result.now ≡ self.now.replacement }
        ensures sound { IsSound self.now }
    {
        self.raw.replacement.as_slice()
    }

    /// The number of wires, from 1 to 3.
    pub fn wires(&self) -> u8
        ensures wires { result ≡ self.now.wires }
        ensures sound { IsSound self.now }
    {
        self.raw.wires
    }
}

#[cfg(test)]
mod tests {
    use super::*;
    use std::test::Fail;

    #[test]
    fn a_fault_says_what_is_wrong(rt: HostRuntime) -> Result<(), Fail> {
        let cases: [(RowFault, &str); 4] = [
            (
                RowFault::Wires,
                "there aren't 1 to 3 wires, or the gates don't fit them",
            ),
            (RowFault::TooLong, "the pattern has more than 8 gates"),
            (
                RowFault::NotShorter,
                "the replacement isn't shorter than the pattern",
            ),
            (
                RowFault::Differs { from: 2, to: 7 },
                "the matrices differ by more than a phase at the basis states 2 and 7",
            ),
        ];
        for (fault, text) in cases {
            let shown = format!(in rt.alloc(); "{fault}")?;
            assert_eq!(rt; shown.as_str(), text);
        }
        Ok(())
    }
}
