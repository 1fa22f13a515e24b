ghost use Rattle.std.specs.Prelude.{◌≡◌, ℕ, ◌/◌, ◌%◌, ◌<◌, ◌≤◌, IfOk};
ghost use Rattle.pq_limits.specs.Limits.{AreQubits};
ghost use Rattle.pq_gate.specs.declared.gate.Gate.TheVariants.{Phase};
ghost use Rattle.pq_text.specs.WellFormed.{WellFormed};
ghost use Rattle.pq_read.specs.Environment.{view};
ghost use Rattle.pq_generate.specs.Generated.{cx_of, gate_of, gates_from, generated, on_one_register};

use pq_gate::{Eighths, Gate, GateList};
use pq_io::OutOfMemory;
use pq_limits::MAX_GATES;
use pq_read::{Name, Program, RegList, Register, TailList};
use rand_core::{Rng, SeedableRng};
use rand_xoshiro::SplitMix64;
use std::alloc::Global;

// the number of the kind of a CX
const CX: u64 = 7;

/// The program of a seed: so many gates on one quantum register `q`. There are 1 to 4,096 qubits, and at
/// most 1,048,576 gates. Each gate comes of one word of SplitMix64, which is started with the seed as its
/// state.
pub fn generate(alloc: Global, seed: u64, qubits: u32, gates: u32) -> Result<Program, OutOfMemory>
    requires qubits { AreQubits qubits }
    requires gates { gates ≤ MAX_GATES }
    ensures generated { IfOk result (λ program. view program ≡ generated seed qubits gates) }
    ensures well_formed { IfOk result (λ program. WellFormed (view program)) }
{
    let list = gates_of_seed(alloc, seed, qubits, gates)?;
    let program = on_one_register(alloc, qubits, list)?;
    Ok(program)
}

/// The gates of a seed, as many as asked for.
#[tactic(auto, using(crate::proofs::Words::none_yet))]
fn gates_of_seed(alloc: Global, seed: u64, qubits: u32, gates: u32) -> Result<GateList, OutOfMemory>
    requires { AreQubits qubits }
    ensures { IfOk result (λ list. list.items ≡ gates_from gates qubits seed) }
{
    let mut words = SplitMix64::seed_from_u64(seed);
    let mut list = GateList::with_room(alloc, gates)?;
    for _number in 0..gates {
        list.push_kept(gate(words.next_u64(), qubits));
    }
    Ok(list)
}

/// The program of these gates on one quantum register `q`.
fn on_one_register(alloc: Global, qubits: u32, gates: GateList) -> Result<Program, OutOfMemory>
    ensures { IfOk result (λ program. view program ≡ on_one_register qubits gates.items) }
{
    let name = Name::of(alloc, "q")?;
    let mut qregs = RegList::with_room(alloc, 1)?;
    qregs.push_kept(Register { name, size: qubits });
    Ok(Program {
        qregs,
        cregs: RegList::with_room(alloc, 0)?,
        gates,
        tail: TailList::with_room(alloc, 0)?,
    })
}

/// The gate of a word.
fn gate(word: u64, qubits: u32) -> Gate
    requires { AreQubits qubits }
    ensures { result ≡ gate_of (word % 8) qubits (word / 8) }
{
    let kind = word % 8;
    let number = word / 8;
    if kind == CX {
        cx(number, qubits)
    } else {
        on_one_wire(kind, (number % u64::from(qubits)) as u32)
    }
}

/// The gate on a wire of a kind that has one wire.
fn on_one_wire(kind: u64, wire: u32) -> Gate
    requires { kind < CX }
    ensures { (qubits number : ℕ) → wire ≡ number % qubits → result ≡ gate_of kind qubits number }
{
    if kind >= 2 {
        phase(eighths_of(kind), wire)
    } else if kind == 1 {
        Gate::X { wire }
    } else {
        Gate::H { wire }
    }
}

/// The eighths of a kind that is a phase. Which kind comes can't be foretold, so they are looked up and not jumped to.
fn eighths_of(kind: u64) -> Eighths
    requires phase { 2 ≤ kind }
    requires one_wire { kind < CX }
    ensures { (qubits number : ℕ) → Phase result (number % qubits) ≡ gate_of kind qubits number }
{
    match kind {
        2 => Eighths::Z,
        3 => Eighths::S,
        4 => Eighths::Sdg,
        5 => Eighths::T,
        _ => Eighths::Tdg,
    }
}

/// A phase on a wire.
fn phase(eighths: Eighths, wire: u32) -> Gate
    ensures { result ≡ Phase eighths wire }
{
    Gate::Phase { eighths, wire }
}

/// A CX whose control and target are taken by the number; on one qubit an H.
fn cx(number: u64, qubits: u32) -> Gate
    requires { AreQubits qubits }
    ensures { result ≡ cx_of qubits number }
{
    if qubits == 1 {
        return Gate::H { wire: 0 };
    }
    let qubits = u64::from(qubits);
    let control = number % qubits;
    let target = (control + 1 + number / qubits % (qubits - 1)) % qubits;
    Gate::Cx {
        control: control as u32,
        target: target as u32,
    }
}
