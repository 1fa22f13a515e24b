ghost use Rattle.std.specs.Prelude.{◌≡◌, ◌≢◌, ◌+◌, ◌^◌, ◌<◌, ◌≤◌, ◌&&◌, true, false, length, codes, bytes_eq};
ghost use Rattle.pq_lex.specs.Lex.{tokens};
ghost use Rattle.pq_read.specs.declared.program.Options.{Options};
ghost use Rattle.pq_lex.specs.Token.{seen};
ghost use Rattle.pq_read.specs.declared.known.Expected.TheVariants.{Nothing};
ghost use Rattle.pq_read.specs.Expected.{is_index as is_index_of, after_token};
ghost use Rattle.pq_read.specs.Begins.{position_of};
ghost use Rattle.pq_read.specs.Drafts.{env_of};
ghost use Rattle.pq_read.specs.Leads.{HasFault, FailsAt};
ghost use Rattle.pq_read.specs.Unknown.{HasNoKnownFault};

use crate::argument::Span;
use crate::begun::Begun;
use crate::draft::Draft;
use crate::program::Options;
use crate::refusal::ReadError;
use crate::registers::Registers;
use crate::statements::read_pieces;
use crate::token::{has_form, integer_value};
use crate::word::is_text;
use pq_lex::{Form, Lexer, Token};
use pq_limits::MAX_GATES;
use std::alloc::Global;

// A statement that is no barrier is read or refused by so many tokens.
const ENOUGH: u32 = 16;

// Whether a number is an index of a register.
fn is_index(token: &Token, span: Span) -> bool
    ensures { result ≡ is_index_of span (seen token.now) }
{
    match integer_value(token.bytes) {
        Some(index) => index < span.size,
        None => false,
    }
}

// What a barrier has next. Where there may be an index, it is one of the register that was named.
#[derive(Clone, Copy)]
enum Expected {
    Name,
    AfterName(Span),
    Index(Span),
    AfterIndex,
    AfterBracket,
    Nothing,
}

impl Expected {
    // What it has behind a token, over these registers.
    fn after(self, token: &Token, registers: &Registers) -> Expected
        ensures { result ≡ after_token registers.now self (seen token.now) }
    {
        match self {
            Expected::Name if has_form(token, Form::Word) => match registers.find(token.bytes) {
                Some(span) => Expected::AfterName(span),
                None => Expected::Nothing,
            },
            Expected::AfterName(span) if has_form(token, Form::LeftBracket) => Expected::Index(
                span,
            ),
            Expected::AfterName(_) if has_form(token, Form::Comma) => Expected::Name,
            Expected::Index(span) if has_form(token, Form::Number) && is_index(token, span) => {
                Expected::AfterIndex
            }
            Expected::AfterIndex if has_form(token, Form::RightBracket) => Expected::AfterBracket,
            Expected::AfterBracket if has_form(token, Form::Comma) => Expected::Name,
            _ => Expected::Nothing,
        }
    }

    fn is_nothing(self) -> bool
        ensures yes { result ≡ true → self ≡ Nothing }
        ensures no_other { result ≡ false → self ≢ Nothing }
    {
        matches!(self, Expected::Nothing)
    }
}

// Whether a statement begins a barrier by its first token.
fn begins_barrier(draft: &Draft, first: &Token) -> bool
    ensures { result ≡ (draft.now.header && bytes_eq (codes "barrier") first.now.bytes.now) }
{
    draft.header && is_text(b"barrier", first.bytes)
}

// Whether so many tokens before a `;`, behind which a barrier has this next, are those of a fault.
fn is_refused(long: bool, count: u32, expected: Expected) -> bool
    ensures short { result ≡ true → long ≡ false → ENOUGH ≤ count }
    ensures long { result ≡ true → long ≡ true → expected ≡ Nothing }
    ensures few { result ≡ false → long ≡ false → count < ENOUGH }
    ensures straight { result ≡ false → long ≡ true → expected ≢ Nothing }
{
    if long {
        expected.is_nothing()
    } else {
        count >= ENOUGH
    }
}

/// Whether what is begun is refused whatever follows it: its tokens end with a malformed one, they are as many as a
/// statement has that is no barrier, or they begin a barrier and go on as none over these registers does.
pub fn has_known_fault(draft: &Draft, begun: &Begun) -> bool
    requires column { 1 ≤ begun.now.column }
    requires fits { begun.now.line + (begun.now.column + length begun.now.bytes.items) < 2 ^ 32 }
    ensures fault { result ≡ true → (options : Options) → HasFault options (env_of draft.now) (position_of begun.now) }
    ensures none { result ≡ false → HasNoKnownFault (env_of draft.now) (position_of begun.now) }
{
    let mut lexer = Lexer::at(begun.bytes.as_slice(), begun.line, begun.column);
    let Some(first) = lexer.sure() else {
        return lexer.is_malformed();
    };
    if has_form(&first, Form::Semicolon) {
        return false;
    }
    let long = begins_barrier(draft, &first);
    let mut count: u32 = 1;
    let mut expected = Expected::Name;
    'tokens: loop {
        if is_refused(long, count, expected) {
            return true;
        }
        let Some(token) = lexer.sure() else {
            return lexer.is_malformed();
        };
        if has_form(&token, Form::Semicolon) {
            return false;
        }
        count = count.saturating_add(1);
        expected = expected.after(&token, &draft.quantum);
    }
}

/// The fault of what is begun, which is known whatever follows.
#[tactic(auto, using(crate::proofs::Walked::known_fails, crate::proofs::Walked::known_never))]
pub fn known_fault(alloc: Global, draft: &mut Draft, begun: &Begun, options: Options) -> ReadError
    requires gates { length draft.old.gates.items ≤ MAX_GATES }
    requires column { 1 ≤ begun.now.column }
    requires fits { begun.now.line + (begun.now.column + length begun.now.bytes.items) < 2 ^ 32 }
    requires known { HasFault options (env_of draft.old) (position_of begun.now) }
    ensures { FailsAt options (env_of draft.old) (position_of begun.now) result }
{
    let mut rest = Lexer::at(begun.bytes.as_slice(), begun.line, begun.column);
    match read_pieces(alloc, draft, &mut rest, options) {
        Err(error) => error,
        Ok(()) => unreachable!(),
    }
}
