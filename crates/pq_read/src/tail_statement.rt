ghost use Rattle.std.specs.Prelude.{◌≡◌, ◌≤◌, ◌+◌, [], ◌∷◌, ◌++◌, length, OnOk, IfOk};
ghost use Rattle.pq_lex.specs.Lex.{tokens};
ghost use Rattle.pq_text.specs.Program.{entries_of};
ghost use Rattle.pq_read.specs.After.{barrier_wires, barrier_at, measure_at, measurements, paired};
ghost use Rattle.pq_read.specs.Registers.{IsArgument};
ghost use Rattle.pq_read.specs.Gives.{Gives, left, later};

use crate::argument::{Argument, read_argument};
use crate::barrier_wires::BarrierWires;
use crate::refusal::{Kind, ReadError};
use crate::registers::Registers;
use crate::tail::Tail;
use crate::token::{demand_arrow, demand_end, goes_over, refused};
use pq_lex::{Form, Lexer};
use pq_limits::MAX_ENTRIES;
use pq_list::OutOfMemory;
use std::alloc::Global;

// The bits of a measurement, which are as many as the qubits.
fn check_pair(a: &Argument, b: &Argument) -> Result<(), ReadError>
    ensures { Gives (λ _. tt) result (paired a.now b.now) }
{
    if a.count != b.count {
        return Err(b.refused(Kind::SizeMismatch));
    }
    Ok(())
}

// Appends the measurements of the places of one argument into those of another.
fn push_measurements(tail: &mut Tail, a: &Argument, b: &Argument) -> Result<(), OutOfMemory>
    requires a { IsArgument a.now }
    requires b { IsArgument b.now }
    requires same { a.now.count ≡ b.now.count }
    requires room { entries_of tail.old + a.now.count ≤ MAX_ENTRIES }
    ensures { OnOk result (tail.new ≡ tail.old ++ measurements a.now b.now) }
{
    for k in 0..a.count {
        tail.push_measurement(a.first + k, b.first + k)?;
    }
    Ok(())
}

/// What follows `measure`, with the `;`: the tail with the measurements.
#[tactic(auto, unfolding(crate::specs::After::measure_at))]
pub fn read_measure(
    lexer: &mut Lexer,
    quantum: &Registers,
    classical: &Registers,
    tail: &mut Tail,
) -> Result<(), ReadError>
    ensures read { Gives (λ _. (tail.new, [])) result (measure_at quantum.now classical.now tail.old (left lexer.old)) }
    ensures later { OnOk result (tokens lexer.new ≡ later lexer.old) }
{
    let a = read_argument(lexer, quantum)?;
    demand_arrow(lexer)?;
    let b = read_argument(lexer, classical)?;
    check_pair(&a, &b)?;
    let end = demand_end(lexer)?;
    if tail.entries() + a.count > MAX_ENTRIES {
        return Err(refused(Kind::TailTooLong, &end));
    }
    push_measurements(tail, &a, &b)?;
    Ok(())
}

// The wires of the arguments of a barrier.
fn read_wires(alloc: Global, lexer: &mut Lexer, quantum: &Registers) -> Result<Vec<u64>, ReadError>
    ensures read { Gives (λ wires. (wires.items, left lexer.new)) result (barrier_wires quantum.now [] 0 (left lexer.old)) }
    ensures later { OnOk result (later lexer.new ≡ later lexer.old) }
{
    let mut wires = BarrierWires::new(alloc)?;
    loop {
        let a = read_argument(lexer, quantum)?;
        wires.adjoin_argument(&a)?;
        if !goes_over(lexer, Form::Comma) {
            return Ok(wires.into_wires());
        }
    }
}

/// What follows `barrier`, with the `;`: the tail with the barrier.
#[tactic(auto, unfolding(crate::specs::After::barrier_at))]
pub fn read_barrier(
    alloc: Global,
    lexer: &mut Lexer,
    quantum: &Registers,
    tail: &mut Tail,
) -> Result<(), ReadError>
    ensures read { Gives (λ _. (tail.new, [])) result (barrier_at quantum.now tail.old (left lexer.old)) }
    ensures later { OnOk result (tokens lexer.new ≡ later lexer.old) }
{
    let wires = read_wires(alloc, lexer, quantum)?;
    let end = demand_end(lexer)?;
    if tail.entries() as usize + wires.len() > MAX_ENTRIES as usize {
        return Err(refused(Kind::TailTooLong, &end));
    }
    tail.push_barrier(wires)?;
    Ok(())
}
