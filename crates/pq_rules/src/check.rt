ghost use Rattle.std.specs.Prelude.{◌≡◌, ◌<◌, length, IfOk, IfErr};
ghost use Rattle.pq_rules.specs.Fault.{with_phase, Comes, HasNoFault};
ghost use Rattle.pq_rules.specs.Row.{IsSound};

use crate::compare::{has_its_wires, phase_of};
use crate::row::{RawRow, Row, RowFault};
use pq_limits::MAX_ROW_GATES;

/// Checks a raw row by computing the matrices of both sides. It takes no memory. The faults are tried
/// in the order in which `RowFault` lists them; `laws::one_fault` says that at most one of them comes.
#[tactic(auto, using(crate::proofs::FaultLaws::sound_from))]
pub fn check_row(raw: RawRow) -> Result<Row, RowFault>
    ensures row { IfOk result (λ row. row ≡ with_phase raw row.phase) }
    ensures sound { IfOk result (λ row. IsSound row) }

    // A row is given only where no fault comes, and a fault only where it comes.
    ensures ok { IfOk result (λ row. HasNoFault raw) }
    ensures fault { IfErr result (λ fault. Comes raw fault) }
{
    let pattern = raw.pattern.as_slice();
    let replacement = raw.replacement.as_slice();
    if !has_its_wires(raw.wires, pattern, replacement) {
        return Err(RowFault::Wires);
    }
    if pattern.len() > MAX_ROW_GATES {
        return Err(RowFault::TooLong);
    }
    if replacement.len() >= pattern.len() {
        return Err(RowFault::NotShorter);
    }
    match phase_of(raw.wires, pattern, replacement) {
        Ok(phase) => Ok(Row::checked(raw, phase)),
        Err((from, to)) => Err(RowFault::Differs { from, to }),
    }
}

#[cfg(test)]
mod tests {
    use super::*;
    use crate::rules::Rules;
    use pq_gate::{Eighths, Gate, GateList};
    use pq_list::OutOfMemory;
    use std::alloc::Global;
    use std::process::Abort;
    use std::test::Fail;

    const H: Gate = Gate::H { wire: 0 };

    const X: Gate = Gate::X { wire: 0 };

    const T: Gate = Gate::Phase {
        eighths: Eighths::T,
        wire: 0,
    };

    const TDG: Gate = Gate::Phase {
        eighths: Eighths::Tdg,
        wire: 0,
    };

    const Z: Gate = Gate::Phase {
        eighths: Eighths::Z,
        wire: 0,
    };

    const CX: Gate = Gate::Cx {
        control: 0,
        target: 1,
    };

    fn raw_row(
        alloc: Global,
        wires: u8,
        pattern: &[Gate],
        replacement: &[Gate],
    ) -> Result<RawRow, OutOfMemory>
        requires pattern { length pattern.now < 100 }
        requires replacement { length replacement.now < 100 }
    {
        Ok(RawRow {
            wires,
            pattern: GateList::of(Vec::from_slice(alloc, pattern)?),
            replacement: GateList::of(Vec::from_slice(alloc, replacement)?),
        })
    }

    // the check names this fault
    fn names(
        rt: &(impl Abort + AllocGlobal),
        wires: u8,
        pattern: &[Gate],
        replacement: &[Gate],
        fault: RowFault,
    ) -> Result<(), OutOfMemory>
        requires pattern { length pattern.now < 100 }
        requires replacement { length replacement.now < 100 }
    {
        match check_row(raw_row(rt.alloc(), wires, pattern, replacement)?) {
            Ok(_row) => panic!(rt; "no fault"),
            Err(found) => assert!(rt; found == fault, "{found:?}"),
        }
        Ok(())
    }

    #[test]
    fn each_fault_is_named(rt: HostRuntime) -> Result<(), Fail> {
        names(&rt, 1, &[T, T], &[Z], RowFault::Differs { from: 1, to: 1 })?;
        names(&rt, 1, &[H], &[H], RowFault::NotShorter)?;
        names(&rt, 1, &[H; 9], &[], RowFault::TooLong)?;
        names(&rt, 3, &[CX, CX], &[], RowFault::Wires)?;
        Ok(())
    }

    #[test]
    fn x_t_x_is_a_row_of_phase_1(rt: HostRuntime) -> Result<(), Fail> {
        let raw = raw_row(rt.alloc(), 1, &[X, T, X], &[TDG])?;
        let row = check_row(raw).ok().expect(&rt, "a row");
        assert_eq!(rt; row.phase(), 1);
        let rules = Rules::builtin(rt.alloc())?;
        assert_eq!(rt; rules.count(), 52);
        let rules = rules.with(rt.alloc(), vec![in rt.alloc(); row]?)?;
        assert_eq!(rt; rules.count(), 53);
        Ok(())
    }

    // the check finds the phase of the row
    fn finds_its_phase(rt: &(impl Abort + AllocGlobal), row: &Row) -> Result<(), OutOfMemory> {
        let pattern = row.pattern();
        let replacement = row.replacement();
        let raw = raw_row(rt.alloc(), row.wires(), pattern, replacement)?;
        match check_row(raw) {
            Ok(found) => assert_eq!(rt; found.phase(), row.phase()),
            Err(fault) => panic!(rt; "{fault:?}"),
        }
        Ok(())
    }

    #[test]
    fn each_built_in_row_is_found_with_its_phase(rt: HostRuntime) -> Result<(), Fail> {
        let rules = Rules::builtin(rt.alloc())?;
        for number in 1..=52u32 {
            let row = rules.row(number).expect(&rt, "a row");
            finds_its_phase(&rt, row)?;
        }
        Ok(())
    }
}
