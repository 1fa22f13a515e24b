/// What the program is to do.
#[derive(Clone, Copy, Debug, PartialEq, Eq)]
pub enum Command {
    /// Optimise the program that is read.
    Opt,

    /// Look for a redex in the program that is read.
    Check,

    /// Generate a program.
    Gen,

    /// Optimise a generated program, and report on it alone.
    Bench,
}

/// A command with its numbers. Omega is 2 to 1,024, there are 1 to 64 workers, 1 to 4,096 qubits and at most
/// 1,048,576 gates.
#[derive(Clone, Copy, Debug, PartialEq, Eq)]
pub enum Settings {
    Opt {
        omega: u32,
        workers: u32,
        drop_barriers: bool,
    },
    Check {
        omega: u32,
        drop_barriers: bool,
    },
    Gen {
        seed: u64,
        qubits: u32,
        gates: u32,
    },
    Bench {
        omega: u32,
        workers: u32,
        seed: u64,
        qubits: u32,
        gates: u32,
    },
}
