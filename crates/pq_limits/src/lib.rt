//! Every limit of the program, once. The facts that contracts cite, as `IsOmega`, stand in `specs/Limits.antt`, over
//! these numbers.
#![tactic(auto)]

ghost use Rattle.std.specs.Prelude.{◌≡◌, ◌*◌};
ghost use Rattle.pq_limits.specs.Limits.{IsOmega, AreWorkers};

/// The least Omega, in gates.
pub const MIN_OMEGA: u32 = 2;

/// The greatest Omega, in gates.
pub const MAX_OMEGA: u32 = 1024;

/// Omega where none is given, in gates.
pub const DEFAULT_OMEGA: u32 = 64;

/// The fewest workers.
pub const MIN_WORKERS: u32 = 1;

/// The most workers.
pub const MAX_WORKERS: u32 = 64;

/// The workers where no number is given.
pub const DEFAULT_WORKERS: u32 = 4;

/// The most gates of a program, after expansion.
pub const MAX_GATES: u32 = 1_048_576;

/// The most places of a kind: a program has at most so many qubits and at most so many classical bits.
pub const MAX_PLACES: u32 = 4096;

/// The fewest qubits of a generated program.
pub const MIN_QUBITS: u32 = 1;

/// The most qubits of a program.
pub const MAX_QUBITS: u32 = MAX_PLACES;

/// The most classical bits of a program.
pub const MAX_BITS: u32 = MAX_PLACES;

/// The most entries of a tail: the wires of its barriers, and the measured bits.
pub const MAX_ENTRIES: u32 = 1_048_576;

/// The fewest bytes of a register's name.
pub const MIN_NAME: usize = 1;

/// The most bytes of a register's name.
pub const MAX_NAME: usize = 64;

/// The most bytes of an input.
pub const MAX_INPUT: u64 = 67_108_864;

/// The most gates on either side of a rule row.
pub const MAX_ROW_GATES: usize = 8;

/// The fewest wires of a rule row.
pub const MIN_ROW_WIRES: u8 = 1;

/// The most wires of a rule row.
pub const MAX_ROW_WIRES: u8 = 3;

/// The most rows that may follow the built-in ones.
pub const MAX_EXTRA_ROWS: usize = 256;

/// The most gates of a segment: twice the greatest Omega.
pub const MAX_SEGMENT: u32 = 2 * MAX_OMEGA;

/// The most jobs of a board.
pub const MAX_JOBS: u64 = 1_048_576;

/// A law: what stands where no number is given lies within its limits, and a segment has room for a window on either
/// side of a place.
pub fn defaults_lie_within()
    ensures omega { IsOmega DEFAULT_OMEGA }
    ensures workers { AreWorkers DEFAULT_WORKERS }
    ensures segment { MAX_SEGMENT ≡ 2 * MAX_OMEGA }
{}
