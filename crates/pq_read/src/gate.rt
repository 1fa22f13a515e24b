ghost use Rattle.std.specs.Prelude.{◌≡◌, ℕ, ◌≤◌, ◌<◌, ◌+◌, ◌*◌, ◌∷◌, [], ◌++◌, length, true, OnOk, IfOk, vec_len};
ghost use Rattle.pq_gate.specs.declared.gate.Gate.TheVariants as gate;
ghost use Rattle.pq_read.specs.declared.word.GateWord.TheVariants.{Y, Cz, Cy, Swap, Ccx};
ghost use Rattle.pq_read.specs.Arguments.{arguments_at, arguments_after};
ghost use Rattle.pq_read.specs.Lists.{each_below};
ghost use Rattle.pq_read.specs.Expansion.{expansion, instances, nth_place, instance, gates_of};
ghost use Rattle.pq_read.specs.After.{gate_at};
ghost use Rattle.pq_lex.specs.Lex.{tokens};
ghost use Rattle.pq_read.specs.Gives.{Gives, left, later};
ghost use Rattle.pq_read.specs.Listed.{listed, AreArguments};

use crate::argument::{Argument, check_second, check_third, read_argument};
use crate::refusal::{Kind, ReadError};
use crate::registers::Registers;
use crate::token::{demand_end, demand_mark, refused};
use crate::word::GateWord;
use pq_gate::{Eighths, Gate};
use pq_lex::{Form, Lexer};
use pq_limits::{MAX_GATES, MAX_PLACES};
use pq_list::OutOfMemory;

/// The arguments of a gate.
#[derive(Clone, Copy)]
pub enum Arguments {
    One(Argument),
    Two(Argument, Argument),
    Three(Argument, Argument, Argument),
}

#[tactic(auto, unfolding(crate::specs::Arguments::arguments_at, crate::specs::Arguments::arguments_after))]
fn one_argument(lexer: &mut Lexer, registers: &Registers) -> Result<Arguments, ReadError>
    ensures read { Gives (λ x. (listed x, left lexer.new)) result (arguments_at registers.now 0 (left lexer.old)) }
    ensures later { OnOk result (later lexer.new ≡ later lexer.old) }
    ensures told { IfOk result AreArguments }
{
    let first = read_argument(lexer, registers)?;
    Ok(Arguments::One(first))
}

#[tactic(auto, unfolding(crate::specs::Arguments::arguments_at, crate::specs::Arguments::arguments_after))]
fn two_arguments(lexer: &mut Lexer, registers: &Registers) -> Result<Arguments, ReadError>
    ensures read { Gives (λ x. (listed x, left lexer.new)) result (arguments_at registers.now 1 (left lexer.old)) }
    ensures later { OnOk result (later lexer.new ≡ later lexer.old) }
    ensures told { IfOk result AreArguments }
{
    let first = read_argument(lexer, registers)?;
    demand_mark(lexer, Form::Comma)?;
    let second = read_argument(lexer, registers)?;
    check_second(&first, &second)?;
    Ok(Arguments::Two(first, second))
}

#[tactic(auto, unfolding(crate::specs::Arguments::arguments_at, crate::specs::Arguments::arguments_after))]
fn three_arguments(lexer: &mut Lexer, registers: &Registers) -> Result<Arguments, ReadError>
    ensures read { Gives (λ x. (listed x, left lexer.new)) result (arguments_at registers.now 2 (left lexer.old)) }
    ensures later { OnOk result (later lexer.new ≡ later lexer.old) }
    ensures told { IfOk result AreArguments }
{
    let first = read_argument(lexer, registers)?;
    demand_mark(lexer, Form::Comma)?;
    let second = read_argument(lexer, registers)?;
    check_second(&first, &second)?;
    demand_mark(lexer, Form::Comma)?;
    let third = read_argument(lexer, registers)?;
    check_third(&first, &second, &third)?;
    Ok(Arguments::Three(first, second, third))
}

impl Arguments {
    // How many instances there are: the size of the registers, or one.
    fn instances(&self) -> u32
        requires { AreArguments self.now }
        ensures count { result ≡ instances (listed self.now) }
        ensures within { result ≤ MAX_PLACES }
    {
        match self {
            Arguments::One(a) => a.count,
            Arguments::Two(a, b) => { if a.whole { a.count } else { b.count } }
            Arguments::Three(a, b, c) => {
                if a.whole {
                    a.count
                } else if b.whole {
                    b.count
                } else {
                    c.count
                }
            }
        }
    }

    // The places of the arguments in the instance k, and 0 for those that aren't there.
    fn places(&self, k: u32) -> (u32, u32, u32)
        requires kept { AreArguments self.now }
        requires instance { k < MAX_PLACES }
        ensures first { result.0 ≡ nth_place (listed self.now) 0 k }
        ensures second { result.1 ≡ nth_place (listed self.now) 1 k }
        ensures third { result.2 ≡ nth_place (listed self.now) 2 k }
    {
        match self {
            Arguments::One(a) => (a.place(k), 0, 0),
            Arguments::Two(a, b) => (a.place(k), b.place(k), 0),
            Arguments::Three(a, b, c) => (a.place(k), b.place(k), c.place(k)),
        }
    }
}

// Appends the gates of one instance.
fn push_instance(
    gates: &mut Vec<Gate>,
    word: GateWord,
    a: u32,
    b: u32,
    c: u32,
) -> Result<(), OutOfMemory>
    ensures { OnOk result (gates.new.items ≡ gates.old.items ++ expansion word a b c) }
{
    match word {
        GateWord::H => gates.push(Gate::H { wire: a })?,
        GateWord::X => gates.push(Gate::X { wire: a })?,
        GateWord::Y => gates.extend_from_slice(&y_gates(a))?,
        GateWord::Id => {}
        GateWord::Phase(eighths) => gates.push(Gate::Phase { eighths, wire: a })?,
        GateWord::Cx => gates.push(Gate::Cx {
            control: a,
            target: b,
        })?,
        GateWord::Cz => gates.extend_from_slice(&cz_gates(a, b))?,
        GateWord::Cy => gates.extend_from_slice(&cy_gates(a, b))?,
        GateWord::Swap => gates.extend_from_slice(&swap_gates(a, b))?,
        GateWord::Ccx => gates.extend_from_slice(&ccx_gates(a, b, c))?,
    }
    Ok(())
}

fn phase(eighths: Eighths, wire: u32) -> Gate
    ensures { result ≡ gate.Phase eighths wire }
{
    Gate::Phase { eighths, wire }
}

fn cx(control: u32, target: u32) -> Gate
    ensures { result ≡ gate.Cx control target }
{
    Gate::Cx { control, target }
}

fn y_gates(a: u32) -> [Gate; 3]
    ensures { result ≡ expansion Y a 0 0 }
{
    [
        phase(Eighths::Sdg, a),
        Gate::X { wire: a },
        phase(Eighths::S, a),
    ]
}

fn cz_gates(a: u32, b: u32) -> [Gate; 3]
    ensures { result ≡ expansion Cz a b 0 }
{
    [Gate::H { wire: b }, cx(a, b), Gate::H { wire: b }]
}

fn cy_gates(a: u32, b: u32) -> [Gate; 3]
    ensures { result ≡ expansion Cy a b 0 }
{
    [phase(Eighths::Sdg, b), cx(a, b), phase(Eighths::S, b)]
}

fn swap_gates(a: u32, b: u32) -> [Gate; 3]
    ensures { result ≡ expansion Swap a b 0 }
{
    [cx(a, b), cx(b, a), cx(a, b)]
}

fn ccx_gates(a: u32, b: u32, c: u32) -> [Gate; 15]
    ensures { result ≡ expansion Ccx a b c }
{
    [
        Gate::H { wire: c },
        cx(b, c),
        phase(Eighths::Tdg, c),
        cx(a, c),
        phase(Eighths::T, c),
        cx(b, c),
        phase(Eighths::Tdg, c),
        cx(a, c),
        phase(Eighths::T, b),
        phase(Eighths::T, c),
        Gate::H { wire: c },
        cx(a, b),
        phase(Eighths::T, a),
        phase(Eighths::Tdg, b),
        cx(a, b),
    ]
}

// How many gates an instance has.
fn gates_each(word: GateWord) -> u32
    ensures each { (a b c : ℕ) → length (expansion word a b c) ≡ result }
    ensures few { result ≤ 15 }
{
    match word {
        GateWord::H => 1,
        GateWord::X => 1,
        GateWord::Y => 3,
        GateWord::Id => 0,
        GateWord::Phase(_) => 1,
        GateWord::Cx => 1,
        GateWord::Cz => 3,
        GateWord::Cy => 3,
        GateWord::Swap => 3,
        GateWord::Ccx => 15,
    }
}

// Appends the gates of all instances.
fn push_gates(
    gates: &mut Vec<Gate>,
    word: GateWord,
    arguments: &Arguments,
) -> Result<(), OutOfMemory>
    requires { AreArguments arguments.now }
    ensures { OnOk result (gates.new.items ≡ gates.old.items ++ gates_of word (listed arguments.now)) }
{
    if gates_each(word) == 0 {
        return Ok(());
    }
    for k in 0..arguments.instances() {
        let (a, b, c) = arguments.places(k);
        push_instance(gates, word, a, b, c)?;
    }
    Ok(())
}

// How many gates all instances have.
#[tactic(auto, using(crate::proofs::Counts::length_gates))]
fn count_gates(word: GateWord, arguments: &Arguments) -> u32
    requires { AreArguments arguments.now }
    ensures { result ≡ length (gates_of word (listed arguments.now)) }
{
    arguments.instances() * gates_each(word)
}

fn read_arguments(
    lexer: &mut Lexer,
    registers: &Registers,
    more: u8,
) -> Result<Arguments, ReadError>
    requires { more ≤ 2 }
    ensures read { Gives (λ x. (listed x, left lexer.new)) result (arguments_at registers.now more (left lexer.old)) }
    ensures later { OnOk result (later lexer.new ≡ later lexer.old) }
    ensures told { IfOk result AreArguments }
{
    match more {
        0 => one_argument(lexer, registers),
        1 => two_arguments(lexer, registers),
        _ => three_arguments(lexer, registers),
    }
}

/// The arguments of a known gate and the `;`: the gates with those of the statement.
#[tactic(auto, unfolding(crate::specs::After::gate_at))]
pub fn read_gate(
    lexer: &mut Lexer,
    word: GateWord,
    registers: &Registers,
    gates: &mut Vec<Gate>,
) -> Result<(), ReadError>
    requires { length gates.old.items ≤ MAX_GATES }
    ensures read { Gives (λ _. (gates.new.items, [])) result (gate_at word registers.now gates.old.items (left lexer.old)) }
    ensures later { OnOk result (tokens lexer.new ≡ later lexer.old) }
    ensures within { OnOk result (length gates.new.items ≤ MAX_GATES) }
{
    let arguments = read_arguments(lexer, registers, word.more_arguments())?;
    let end = demand_end(lexer)?;
    if gates.len() as u64 + u64::from(count_gates(word, &arguments)) > u64::from(MAX_GATES) {
        return Err(refused(Kind::TooManyGates, &end));
    }
    push_gates(gates, word, &arguments)?;
    Ok(())
}
