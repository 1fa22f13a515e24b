use crate::generate;
use pq_gate::{Eighths, Gate};
use rand_core::{Rng, SeedableRng};
use rand_xoshiro::SplitMix64;
use std::alloc::AllocError;

// What SplitMix64 is known to give from the state 0 on.
const WORDS: [u64; 5] = [
    0xE220_A839_7B1D_CDAF,
    0x6E78_9E6A_A1B9_65F4,
    0x06C4_5D18_8009_454F,
    0xF88B_B8A8_724C_81EC,
    0x1B39_896A_51A8_749B,
];

// The gates of these words on two qubits, worked out by hand.
const GATES: [Gate; 5] = [
    Gate::Cx {
        control: 1,
        target: 0,
    },
    Gate::Phase {
        eighths: Eighths::Sdg,
        wire: 0,
    },
    Gate::Cx {
        control: 1,
        target: 0,
    },
    Gate::Phase {
        eighths: Eighths::Sdg,
        wire: 1,
    },
    Gate::Phase {
        eighths: Eighths::S,
        wire: 1,
    },
];

// The gates of the first three words on five qubits, worked out by another program.
const SPREAD: [Gate; 3] = [
    Gate::Cx {
        control: 1,
        target: 2,
    },
    Gate::Phase {
        eighths: Eighths::Sdg,
        wire: 2,
    },
    Gate::Cx {
        control: 4,
        target: 1,
    },
];

#[test]
fn the_words_from_the_state_0_are_those_of_splitmix64(rt: HostRuntime) {
    let mut words = SplitMix64::seed_from_u64(0);
    for word in WORDS {
        assert_eq!(rt; words.next_u64(), word);
    }
}

#[test]
fn the_first_gates_of_the_seed_0_are_those_worked_out(rt: HostRuntime) -> Result<(), AllocError> {
    let program = generate(rt.alloc(), 0, 2, 5)?;
    assert!(rt; program.gates.as_slice() == GATES.as_slice());
    let program = generate(rt.alloc(), 0, 5, 3)?;
    assert!(rt; program.gates.as_slice() == SPREAD.as_slice());
    Ok(())
}

#[test]
fn a_program_of_no_gates_has_the_register_q_alone(rt: HostRuntime) -> Result<(), AllocError> {
    let program = generate(rt.alloc(), 0, 1, 0)?;
    let qregs = program.qregs.as_slice();
    assert_eq!(rt; qregs.len(), 1);
    assert_eq!(rt; qregs[0].name.as_str(), "q");
    assert_eq!(rt; qregs[0].size, 1);
    assert!(rt; program.cregs.as_slice().is_empty());
    assert!(rt; program.gates.as_slice().is_empty());
    assert!(rt; program.tail.as_slice().is_empty());
    Ok(())
}

// How many of the gates have the kind cx.
fn couplings(gates: &[Gate]) -> usize {
    gates
        .iter()
        .filter(|gate| matches!(gate, Gate::Cx { .. }))
        .count()
}

#[test]
fn on_one_qubit_no_cx_comes(rt: HostRuntime) -> Result<(), AllocError> {
    for (seed, qubits, some) in [(0, 1, false), (1, 1, false), (0, 2, true), (1, 3, true)] {
        let program = generate(rt.alloc(), seed, qubits, 64)?;
        let count = couplings(program.gates.as_slice());
        assert!(rt; (count > 0) == some, "at {seed} and {qubits}");
    }
    Ok(())
}
