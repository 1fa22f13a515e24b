ghost use Rattle.std.specs.Prelude.{◌≡◌, ◌≤◌, bytes_eq};
ghost use Rattle.std.specs.List.{list_any};
ghost use Rattle.pq_read.specs.Words.{coupled_gates, turning_gates, other_gates, among, or_else, included_gate, always_gate, gate_named, more_arguments, unsupported_words, other_word, first_word};

use pq_gate::Eighths;
use pq_text::is_among;

/// The gates of the language that are accepted, by their names.
#[derive(Clone, Copy)]
pub enum GateWord {
    H,
    X,
    Y,
    Id,
    Phase(Eighths),
    Cx,
    Cz,
    Cy,
    Swap,
    Ccx,
}

/// What a statement is by its first word.
#[derive(Clone, Copy)]
pub enum FirstWord {
    Include,
    Qreg,
    Creg,
    Barrier,
    Measure,
    Gate(GateWord),
    Unsupported,
    Unknown,
}

/// Whether two texts are the same.
#[inline(always)]
pub fn is_text(text: &[u8], word: &[u8]) -> bool
    ensures { result ≡ bytes_eq text.now word.now }
{
    text == word
}

fn coupled_gate(word: &[u8]) -> Option<GateWord>
    ensures { result ≡ among coupled_gates word.now }
{
    if is_text(b"cx", word) {
        Some(GateWord::Cx)
    } else if is_text(b"cz", word) {
        Some(GateWord::Cz)
    } else if is_text(b"cy", word) {
        Some(GateWord::Cy)
    } else if is_text(b"swap", word) {
        Some(GateWord::Swap)
    } else if is_text(b"ccx", word) {
        Some(GateWord::Ccx)
    } else {
        None
    }
}

fn turning_gate(word: &[u8]) -> Option<GateWord>
    ensures { result ≡ among turning_gates word.now }
{
    if is_text(b"t", word) {
        Some(GateWord::Phase(Eighths::T))
    } else if is_text(b"tdg", word) {
        Some(GateWord::Phase(Eighths::Tdg))
    } else if is_text(b"s", word) {
        Some(GateWord::Phase(Eighths::S))
    } else if is_text(b"sdg", word) {
        Some(GateWord::Phase(Eighths::Sdg))
    } else if is_text(b"z", word) {
        Some(GateWord::Phase(Eighths::Z))
    } else {
        None
    }
}

fn other_gate(word: &[u8]) -> Option<GateWord>
    ensures { result ≡ among other_gates word.now }
{
    if is_text(b"h", word) {
        Some(GateWord::H)
    } else if is_text(b"x", word) {
        Some(GateWord::X)
    } else if is_text(b"y", word) {
        Some(GateWord::Y)
    } else if is_text(b"id", word) {
        Some(GateWord::Id)
    } else {
        None
    }
}

// A gate that the include makes known.
fn gate_of_include(word: &[u8]) -> Option<GateWord>
    ensures { result ≡ included_gate word.now }
{
    if let Some(gate) = coupled_gate(word) {
        return Some(gate);
    }
    if let Some(gate) = turning_gate(word) {
        return Some(gate);
    }
    other_gate(word)
}

fn gate_of_language(word: &[u8]) -> Option<GateWord>
    ensures { result ≡ always_gate word.now }
{
    if is_text(b"CX", word) {
        Some(GateWord::Cx)
    } else {
        None
    }
}

// The gate that a word names, where the include was read or not.
fn known_gate(included: bool, word: &[u8]) -> Option<GateWord>
    ensures { result ≡ gate_named included word.now }
{
    if included {
        if let Some(gate) = gate_of_include(word) {
            return Some(gate);
        }
    }
    gate_of_language(word)
}

impl GateWord {
    /// How many arguments it takes beside the first one.
    pub fn more_arguments(self) -> u8
        ensures count { result ≡ more_arguments self }
        ensures few { result ≤ 2 }
    {
        match self {
            GateWord::H => 0,
            GateWord::X => 0,
            GateWord::Y => 0,
            GateWord::Id => 0,
            GateWord::Phase(_) => 0,
            GateWord::Cx => 1,
            GateWord::Cz => 1,
            GateWord::Cy => 1,
            GateWord::Swap => 1,
            GateWord::Ccx => 2,
        }
    }
}

const UNSUPPORTED: [&str; 28] = [
    "opaque", "if", "reset", "gate", "U", "u", "u0", "u1", "u2", "u3", "p", "rx", "ry", "rz", "sx",
    "sxdg", "ch", "crx", "cry", "crz", "cp", "cu", "cu1", "cu3", "csx", "cswap", "rxx", "rzz",
];

fn is_unsupported(word: &[u8]) -> bool
    ensures { result ≡ list_any (λ known. bytes_eq known word.now) unsupported_words }
{
    is_among(&UNSUPPORTED, word)
}

// What a statement is by a first word that is no known gate.
fn word_of_statement(word: &[u8]) -> FirstWord
    ensures { result ≡ other_word word.now }
{
    if is_text(b"include", word) {
        FirstWord::Include
    } else if is_text(b"qreg", word) {
        FirstWord::Qreg
    } else if is_text(b"creg", word) {
        FirstWord::Creg
    } else if is_text(b"barrier", word) {
        FirstWord::Barrier
    } else if is_text(b"measure", word) {
        FirstWord::Measure
    } else if is_unsupported(word) {
        FirstWord::Unsupported
    } else {
        FirstWord::Unknown
    }
}

/// What a statement is by its first word, where the include was read or not.
pub fn read_first_word(included: bool, word: &[u8]) -> FirstWord
    ensures { result ≡ first_word included word.now }
{
    match known_gate(included, word) {
        Some(gate) => FirstWord::Gate(gate),
        None => word_of_statement(word),
    }
}
