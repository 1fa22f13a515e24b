ghost use Rattle.std.specs.Prelude.{◌≡◌, ◌+◌, ◌^◌, ◌<◌, ◌≤◌, [], ◌++◌, IfOk, OnOk, length};
ghost use Rattle.pq_lex.specs.declared.ends.Mode.TheVariants.{Code};
ghost use Rattle.pq_lex.specs.Ends.{mode_after, IsEnded};
ghost use Rattle.pq_read.specs.Begins.{position_of, joined, IsBegun, AreSettled};
ghost use Rattle.pq_lex.specs.Lex.{tokens};
ghost use Rattle.pq_read.specs.Environment.{view};
ghost use Rattle.pq_read.specs.Gives.{Gives};
ghost use Rattle.pq_read.specs.Reads.{read_tokens};
ghost use Rattle.pq_read.specs.Drafts.{env_of};
ghost use Rattle.pq_read.specs.Leads.{Leads, FailsFrom, IsWithin};

use crate::draft::Draft;
use crate::known::{has_known_fault, known_fault};
use crate::program::{Options, Program};
use crate::refusal::ReadError;
use crate::statements::{read_ended, read_rest};
use pq_lex::{Lexer, Mode, last_end};
use pq_limits::MAX_GATES;
use pq_list::OutOfMemory;
use std::alloc::Global;

// How many bytes a statement has before a fault in it is looked for.
const LONG: usize = 4096;

/// The statement that isn't finished: its bytes so far, the place where they begin, what the next byte is read as,
/// and how many bytes there are when a fault is looked for the next time.
#[derive(Drop)]
pub struct Begun {
    pub bytes: Vec<u8>,
    pub line: u32,
    pub column: u32,
    pub mode: Mode,
    pub due: usize,
}

impl Begun {
    /// Nothing at the start of a text.
    pub fn new(alloc: Global) -> Begun
        ensures place { position_of result ≡ record { rest = []; line = 1; column = 1 } }
        ensures begun { IsBegun 2 result }
    {
        Begun {
            bytes: Vec::new(alloc),
            line: 1,
            column: 1,
            mode: Mode::Code,
            due: LONG,
        }
    }
}

// What is begun where this text stands at a place: all but what is skipped at its start.
fn begin(
    alloc: Global,
    text: &[u8],
    line: u32,
    column: u32,
    mode: Mode,
) -> Result<Begun, OutOfMemory>
    requires column { 1 ≤ column }
    requires fits { line + (column + length text.now) < 2 ^ 32 }
    ensures settled { IfOk result (λ b. AreSettled (record { rest = text.now; line = line; column = column }) (position_of b)) }
    ensures mode { IfOk result (λ b. b.mode ≡ mode) }
{
    let mut lexer = Lexer::at(text, line, column);
    lexer.settle();
    let bytes = Vec::from_slice(alloc, lexer.rest())?;
    Ok(Begun {
        bytes,
        line: lexer.line(),
        column: lexer.column(),
        mode,
        due: LONG,
    })
}

// What is begun with a piece behind it that ends no statement.
fn grow(alloc: Global, begun: Begun, piece: &[u8], mode: Mode) -> Result<Begun, OutOfMemory>
    requires column { 1 ≤ begun.column }
    requires fits { begun.line + (begun.column + (length begun.bytes.items + length piece.now)) < 2 ^ 32 }
    ensures settled { IfOk result (λ b. AreSettled (joined begun piece.now) (position_of b)) }
    ensures mode { IfOk result (λ b. b.mode ≡ mode) }
{
    let Begun {
        mut bytes,
        line,
        column,
        mode: _,
        due,
    } = begun;
    let has_token = bytes.len() > 2;
    bytes.extend_from_slice(piece)?;
    if has_token {
        Ok(Begun {
            bytes,
            line,
            column,
            mode,
            due,
        })
    } else {
        begin(alloc, bytes.as_slice(), line, column, mode)
    }
}

// The statements of what is begun and of a text that ends the last of them: the line and the column where they end.
fn read_front(
    alloc: Global,
    draft: &mut Draft,
    begun: Begun,
    text: &[u8],
    options: Options,
) -> Result<(u32, u32), ReadError>
    requires gates { length draft.old.gates.items ≤ MAX_GATES }
    requires ended { IsEnded Code (begun.bytes.items ++ text.now) }
    requires column { 1 ≤ begun.column }
    requires fits { begun.line + (begun.column + (length begun.bytes.items + length text.now)) < 2 ^ 32 }
    ensures read { IfOk result (λ end. Leads options (env_of draft.old) (joined begun text.now) (env_of draft.new) (record { rest = []; line = end.0; column = end.1 })) }
    ensures place { IfOk result (λ end. IsWithin end (begun.line + (begun.column + (length begun.bytes.items + length text.now)))) }
    ensures fails { FailsFrom options (env_of draft.old) (joined begun text.now) result }
    ensures within { OnOk result (length draft.new.gates.items ≤ MAX_GATES) }
{
    let Begun {
        mut bytes,
        line,
        column,
        mode: _,
        due: _,
    } = begun;
    if bytes.is_empty() {
        return read_ended(alloc, draft, text, line, column, options);
    }
    match bytes.extend_from_slice(text) {
        Ok(()) => read_ended(alloc, draft, bytes.as_slice(), line, column, options),
        Err(_) => Err(ReadError::OutOfMemory),
    }
}

// What is begun, or its fault where it is long and its fault is known. It is looked for again once there are twice as
// many bytes.
fn refuse_long(
    alloc: Global,
    draft: &mut Draft,
    mut begun: Begun,
    options: Options,
) -> Result<Begun, ReadError>
    requires gates { length draft.old.gates.items ≤ MAX_GATES }
    requires column { 1 ≤ begun.column }
    requires fits { begun.line + (begun.column + length begun.bytes.items) < 2 ^ 32 }
    ensures same { IfOk result (λ b. position_of b ≡ position_of begun) }
    ensures mode { IfOk result (λ b. b.mode ≡ begun.mode) }
    ensures draft { OnOk result (env_of draft.new ≡ env_of draft.old) }
    ensures within { OnOk result (length draft.new.gates.items ≤ MAX_GATES) }
    ensures fails { FailsFrom options (env_of draft.old) (position_of begun) result }
{
    let count = begun.bytes.len();
    if count < begun.due {
        return Ok(begun);
    }
    if has_known_fault(draft, &begun) {
        return Err(known_fault(alloc, draft, &begun, options));
    }
    begun.due = 2 * count;
    Ok(begun)
}

/// Reads what is begun with a piece behind it, as far as statements are finished, and answers what is begun then.
#[tactic(auto, using(crate::proofs::Beginning::begun_grown, crate::proofs::Beginning::front_ended))]
pub fn read_piece(
    alloc: Global,
    draft: &mut Draft,
    begun: Begun,
    piece: &[u8],
    options: Options,
) -> Result<Begun, ReadError>
    requires gates { length draft.old.gates.items ≤ MAX_GATES }
    requires column { 1 ≤ begun.column }
    requires mode { begun.mode ≡ mode_after Code begun.bytes.items }
    requires fits { begun.line + (begun.column + (length begun.bytes.items + length piece.now)) < 2 ^ 32 }
    ensures read { IfOk result (λ b. Leads options (env_of draft.old) (joined begun piece.now) (env_of draft.new) (position_of b)) }
    ensures begun { IfOk result (IsBegun (begun.line + (begun.column + (length begun.bytes.items + length piece.now)))) }
    ensures fails { FailsFrom options (env_of draft.old) (joined begun piece.now) result }
    ensures within { OnOk result (length draft.new.gates.items ≤ MAX_GATES) }
{
    let ended = last_end(begun.mode, piece);
    if ended.count == 0 {
        return match grow(alloc, begun, piece, ended.mode) {
            Ok(begun) => refuse_long(alloc, draft, begun, options),
            Err(_) => Err(ReadError::OutOfMemory),
        };
    }
    let (front, back) = piece.split_at(ended.count);
    let (line, column) = read_front(alloc, draft, begun, front, options)?;
    match begin(alloc, back, line, column, ended.mode) {
        Ok(begun) => Ok(begun),
        Err(_) => Err(ReadError::OutOfMemory),
    }
}

/// The program of a draft and of what is begun, which nothing follows.
pub fn read_last(
    alloc: Global,
    draft: Draft,
    begun: Begun,
    options: Options,
) -> Result<Program, ReadError>
    requires gates { length draft.gates.items ≤ MAX_GATES }
    requires column { 1 ≤ begun.column }
    requires fits { begun.line + (begun.column + length begun.bytes.items) < 2 ^ 32 }
    ensures { Gives view result (read_tokens options (env_of draft) (tokens (position_of begun))) }
{
    let mut lexer = Lexer::at(begun.bytes.as_slice(), begun.line, begun.column);
    read_rest(alloc, draft, &mut lexer, options)
}
