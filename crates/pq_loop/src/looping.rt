ghost use Rattle.std.specs.Prelude.{◌≡◌, ◌↔◌, ◌+◌, ◌*◌, ◌%◌, ◌<◌, ◌≤◌, ℕ, [], IfOk, IsOk, IsTrue, length};
ghost use Rattle.pq_gate.specs.Circuit.{IsCircuit};
ghost use Rattle.pq_gate.specs.Matrix.{Same};
ghost use Rattle.pq_gaps.specs.Gaps.{first_fingers};
ghost use Rattle.pq_limits.specs.Limits.{AreWorkers, IsOmega};
ghost use Rattle.pq_method.specs.Round.{Round};
ghost use Rattle.pq_method.specs.Opt.{first_state, numbers_of, Local};
ghost use Rattle.pq_loop.specs.Loops.{IsCovered, cells_left};
ghost use Rattle.pq_loop.specs.Receipts.{receipt_of};

use crate::one_round::make_round;
#[cfg(test)]
use crate::segments::gaps_of;
use pq_array::GateArray;
use pq_board::Receipt;
use pq_finger::Fingers;
use pq_gate::{Gate, GateList};
use pq_limits::MAX_GATES;
use pq_list::OutOfMemory;
use pq_method::Step;
use pq_round::WorkGate;
use pq_rules::Rules;
use std::alloc::Global;
use std::marker::Model;
use std::thread::Threads;

/// Rounds over the gates of a circuit. Contracts see the state, which is the gates that are left and the
/// fingers as gaps; the number of cells; the window length Omega and the rules; and the rounds, the oracle's calls and the phase
/// so far. The type keeps that nothing is overlooked: each run of at most Omega gates that has a redex lies
/// in the segment of a finger.
#[derive(Drop)]
pub struct Loop {
    array: GateArray,

    // at places of live gates, or at the end
    fingers: Fingers,
    rules: Rules,
    omega: u32,
    rounds: u64,
    calls: u64,
    phase: u8,
    first_fingers: u64,
}

impl Model for Loop {
    ghost use Rattle.std.specs.Prelude.{length};
    ghost use Rattle.pq_loop.specs.Loops.{LoopView};

    ghost Value = { LoopView };

    ghost use Rattle.pq_loop.specs.Segments.{state_of};
    ghost use Rattle.pq_loop.specs.Loops.{IsKept};

    ghost view = { λ a. record { state = state_of a.array a.fingers; cells = length a.array; omega = a.omega; rules = a.rules; rounds = a.rounds; calls = a.calls; phase = a.phase; first_fingers = a.first_fingers } };

    ghost invariant = { λ a. IsKept a.array a.fingers a.rules a.omega a.rounds a.calls a.phase };
}

/// What is left when there is no finger any more.
#[derive(Drop)]
pub struct Finished {
    /// The gates.
    pub gates: GateList,

    /// How many rounds there were.
    pub rounds: u64,

    /// How often the oracle was called: the selected fingers of all rounds.
    pub calls: u64,

    /// By how many eighths of a whole turn the gates that went in turn more than these, from 0 to 7.
    pub phase: u8,

    /// How many fingers there were in the beginning.
    pub first_fingers: u64,
}

impl Loop {
    /// The loop before its first round over a copy of these gates, as `of` makes it.
    pub fn open(
        alloc: Global,
        gates: &[Gate],
        omega: u32,
        rules: Rules,
    ) -> Result<Loop, OutOfMemory>
        requires omega { IsOmega omega }
        requires few { length gates.now ≤ MAX_GATES }
        ensures state { IfOk result (λ made. made.state ≡ first_state omega gates.now) }
        ensures cells { IfOk result (λ made. made.cells ≡ length gates.now) }
        ensures omega { IfOk result (λ made. made.omega ≡ omega) }
        ensures rules { IfOk result (λ made. made.rules ≡ rules) }
        ensures counts { IfOk result (λ made. (made.rounds ≡ 0) × (made.calls ≡ 0) × (made.phase ≡ 0)) }
        ensures first_fingers { IfOk result (λ made. made.first_fingers ≡ length (first_fingers (length gates.now) omega)) }
        ensures covered { IfOk result (λ made. IsCovered made) }
    {
        let copy = Vec::from_slice(alloc, gates)?;
        Loop::of(alloc, GateList::of(copy), omega, rules)
    }

    /// The loop before its first round over the gates of this list, which becomes its cells: no gate is copied. The first
    /// fingers stand at each multiple of Omega that is less than the number of gates, and overlook nothing. Omega is 2 to
    /// 1,024, and there are at most 1,048,576 gates.
    pub fn of(alloc: Global, gates: GateList, omega: u32, rules: Rules) -> Result<Loop, OutOfMemory>
        requires omega { IsOmega omega }
        requires few { length gates.items ≤ MAX_GATES }
        ensures state { IfOk result (λ made. made.state ≡ first_state omega gates.items) }
        ensures cells { IfOk result (λ made. made.cells ≡ length gates.items) }
        ensures omega { IfOk result (λ made. made.omega ≡ omega) }
        ensures rules { IfOk result (λ made. made.rules ≡ rules) }
        ensures counts { IfOk result (λ made. (made.rounds ≡ 0) × (made.calls ≡ 0) × (made.phase ≡ 0)) }
        ensures first_fingers { IfOk result (λ made. made.first_fingers ≡ length (first_fingers (length gates.items) omega)) }
        ensures covered { IfOk result (λ made. IsCovered made) }
    {
        // the rows are sound
        let _rows = rules.count();
        let count = gates.as_slice().len() as u64;
        let array = GateArray::of(alloc, gates)?;
        let fingers = Fingers::first(alloc, count, omega)?;
        let first_fingers = fingers.places().len() as u64;
        Ok(Loop {
            array,
            fingers,
            rules,
            omega,
            rounds: 0,
            calls: 0,
            phase: 0,
            first_fingers,
        })
    }

    /// Whether there is no finger any more.
    pub fn is_done(&self) -> bool
        ensures { IsTrue result ↔ (self.now.state.fingers ≡ []) }
    {
        self.fingers.places().is_empty()
    }

    /// How many fingers there are.
    pub fn fingers_left(&self) -> u64
        ensures { result ≡ length self.now.state.fingers }
    {
        self.fingers.places().len() as u64
    }

    /// How many cells the gates stand in: as many as gates at the opening.
    pub fn cells(&self) -> u64
        ensures { result ≡ self.now.cells }
    {
        self.array.cells()
    }

    /// One round, while there is a finger: the segments of the selected fingers are given to the oracle, its answers
    /// are put in their places, and the fingers are settled and moved. Where twice the gates are then fewer than the cells,
    /// the gates get as many cells as they are; else the cells stay. So many workers, 1 to 64, give them to the oracle,
    /// as `run_round` of `pq_round` says; the gate is called before and after each. The receipt is that of the round's
    /// board. Where memory is refused, the loop is spent.
    pub fn round<R: Threads + Sync, G: WorkGate>(
        self,
        rt: &R,
        alloc: Global,
        workers: u32,
        gate: &G,
    ) -> Result<(Loop, Step, Receipt), OutOfMemory>
        requires going { 0 < length self.state.fingers }
        requires workers { AreWorkers workers }
        ensures round { IfOk result (λ made. Round self.rules self.omega self.state made.0.state made.1) }
        ensures cells { IfOk result (λ made. made.0.cells ≡ cells_left self.cells (length made.0.state.gates)) }
        ensures settings { IfOk result (λ made. (made.0.omega ≡ self.omega) × (made.0.rules ≡ self.rules) × (made.0.first_fingers ≡ self.first_fingers)) }
        ensures rounds { IfOk result (λ made. made.0.rounds ≡ self.rounds + 1) }
        ensures calls { IfOk result (λ made. made.0.calls ≡ self.calls + made.1.selected) }
        ensures phase { IfOk result (λ made. made.0.phase ≡ (self.phase + made.1.phase) % 8) }
        ensures same { IfOk result (λ made. (n : ℕ) → IsCircuit n self.state.gates → Same n self.state.gates made.0.state.gates made.1.phase) }
        ensures covered { IfOk result (λ made. IsCovered self × IsCovered made.0) }
        ensures bound { IfOk result (λ made. length made.0.state.fingers + 2 * length made.0.state.gates + made.1.selected
            ≤ length self.state.fingers + 2 * length self.state.gates) }
        ensures some { IfOk result (λ made. 0 < made.1.selected) }
        ensures receipt { IfOk result (λ made. made.2 ≡ receipt_of (numbers_of self.state made.0.state made.1)) }
    {
        let Loop {
            array,
            fingers,
            rules,
            omega,
            rounds,
            calls,
            phase,
            first_fingers,
        } = self;
        let (array, fingers, step, receipt) = make_round(
            rt, alloc, array, &fingers, &rules, omega, workers, gate,
        )?;
        let after = Loop {
            array,
            fingers,
            rules,
            omega,
            rounds: rounds + 1,
            calls: calls + step.selected,
            phase: (phase + step.phase) % 8,
            first_fingers,
        };
        Ok((after, step, receipt))
    }

    /// What is left, where there is no finger any more: no run of at most Omega gates has a redex. There were at most
    /// as many rounds as calls. The gates stay in the memory in which they stand, so that no memory is taken.
    pub fn finish(self, _alloc: Global) -> Result<Finished, OutOfMemory>
        requires { self.state.fingers ≡ [] }
        ensures gates { IfOk result (λ made. made.gates.items ≡ self.state.gates) }
        ensures counts { IfOk result (λ made. (made.rounds ≡ self.rounds) × (made.calls ≡ self.calls) × (made.phase ≡ self.phase) × (made.first_fingers ≡ self.first_fingers)) }
        ensures local { IfOk result (λ made. Local self.rules self.omega made.gates.items) }
        ensures rounds { IfOk result (λ made. made.rounds ≤ made.calls) }
        ensures always { IsOk result }
    {
        Ok(Finished {
            gates: self.array.into_gates(),
            rounds: self.rounds,
            calls: self.calls,
            phase: self.phase,
            first_fingers: self.first_fingers,
        })
    }

    /// The gaps of the fingers.
    #[cfg(test)]
    pub(crate) fn gaps(&self, alloc: Global) -> Result<Vec<u64>, OutOfMemory>
        ensures { IfOk result (λ gaps. gaps.items ≡ self.now.state.fingers) }
    {
        gaps_of(alloc, &self.array, &self.fingers)
    }
}
