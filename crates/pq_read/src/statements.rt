ghost use Rattle.std.specs.Prelude.{◌≡◌, ◌+◌, ◌^◌, ◌<◌, ◌≤◌, [], IfOk, OnOk, true, length};
ghost use Rattle.pq_lex.specs.declared.ends.Mode.TheVariants.{Code};
ghost use Rattle.pq_lex.specs.Ends.{IsEnded};
ghost use Rattle.pq_lex.specs.Lex.{tokens};
ghost use Rattle.pq_read.specs.Environment.{view};
ghost use Rattle.pq_read.specs.Drafts.{env_of};
ghost use Rattle.pq_read.specs.Reads.{is_done, read_tokens};
ghost use Rattle.pq_read.specs.Gives.{Gives};
ghost use Rattle.pq_read.specs.Leads.{AreRead, FailsOn, Leads, FailsFrom, IsWithin};

use crate::draft::Draft;
use crate::program::{Options, Program};
use crate::refusal::ReadError;
use pq_lex::Lexer;
use pq_limits::MAX_GATES;
use std::alloc::Global;

// Whether nothing is left: the header was read, and the end of the text stands next.
#[tactic(auto, using(crate::proofs::Pieces::done_told))]
fn is_done(draft: &Draft, lexer: &mut Lexer) -> bool
    ensures test { result ≡ is_done (env_of draft.now) (tokens lexer.new) }
    ensures same { tokens lexer.new ≡ tokens lexer.old }
    ensures last { result ≡ true → length (tokens lexer.new) ≡ 1 }
{
    let ended = lexer.is_at_end();
    draft.header && ended
}

/// The pieces of a text one after another, and its rest.
pub fn read_pieces(
    alloc: Global,
    draft: &mut Draft,
    lexer: &mut Lexer,
    options: Options,
) -> Result<(), ReadError>
    requires { length draft.old.gates.items ≤ MAX_GATES }
    ensures read { Gives (λ _. (env_of draft.new).program) result (read_tokens options (env_of draft.old) (tokens lexer.old)) }
    ensures within { OnOk result (length draft.new.gates.items ≤ MAX_GATES) }
{
    'pieces: loop {
        if is_done(draft, lexer) {
            return Ok(());
        }
        draft.piece(alloc, lexer, options)?;
    }
}

/// The program of a draft and of what is left of the text.
pub fn read_rest(
    alloc: Global,
    mut draft: Draft,
    lexer: &mut Lexer,
    options: Options,
) -> Result<Program, ReadError>
    requires { length draft.gates.items ≤ MAX_GATES }
    ensures { Gives view result (read_tokens options (env_of draft) (tokens lexer.old)) }
{
    read_pieces(alloc, &mut draft, lexer, options)?;
    Ok(draft.into_program())
}

// Whole statements one after another.
fn read_statements(
    alloc: Global,
    draft: &mut Draft,
    lexer: &mut Lexer,
    options: Options,
) -> Result<(), ReadError>
    requires { length draft.old.gates.items ≤ MAX_GATES }
    ensures read { OnOk result (AreRead options (env_of draft.old) (tokens lexer.old) (env_of draft.new) (tokens lexer.new)) }
    ensures fails { FailsOn options (env_of draft.old) (tokens lexer.old) result }
    ensures within { OnOk result (length draft.new.gates.items ≤ MAX_GATES) }
{
    'statements: loop {
        if lexer.is_at_end() {
            return Ok(());
        }
        draft.piece(alloc, lexer, options)?;
    }
}

/// The statements of a text that begins at a place, and ends with a `;` among the tokens: the line and the column
/// where it ends.
pub fn read_ended(
    alloc: Global,
    draft: &mut Draft,
    text: &[u8],
    line: u32,
    column: u32,
    options: Options,
) -> Result<(u32, u32), ReadError>
    requires gates { length draft.old.gates.items ≤ MAX_GATES }
    requires ended { IsEnded Code text.now }
    requires column { 1 ≤ column }
    requires fits { line + (column + length text.now) < 2 ^ 32 }
    ensures read { IfOk result (λ end. Leads options (env_of draft.old) (record { rest = text.now; line = line; column = column })
        (env_of draft.new) (record { rest = []; line = end.0; column = end.1 })) }
    ensures place { IfOk result (λ end. IsWithin end (line + (column + length text.now))) }
    ensures fails { FailsFrom options (env_of draft.old) (record { rest = text.now; line = line; column = column }) result }
    ensures within { OnOk result (length draft.new.gates.items ≤ MAX_GATES) }
{
    let mut lexer = Lexer::at(text, line, column);
    read_statements(alloc, draft, &mut lexer, options)?;
    let end = lexer.next();
    Ok((end.line, end.column))
}
