ghost use Rattle.std.specs.Prelude.{◌≡◌, ◌≤◌, ◌+◌, [], true, OnOk, IfOk};
ghost use Rattle.pq_lex.specs.Token.{seen};
ghost use Rattle.pq_lex.specs.Lex.{tokens};
ghost use Rattle.pq_text.specs.Program.{places_of};
ghost use Rattle.pq_read.specs.Environment.{register_view};
ghost use Rattle.pq_read.specs.After.{header_word, header_at, include_at, is_taken, new_name, new_size, declared_at, begins_header};
ghost use Rattle.pq_read.specs.Registers.{IsKept};
ghost use Rattle.pq_read.specs.Gives.{Gives, left, later};

use crate::refusal::{Kind, ReadError};
use crate::token::{demand_end, demand_number, demand_quoted, has_form, refused};
use crate::word::is_text;
use pq_lex::{Form, Lexer, Token};

fn is_header_word(token: &Token) -> bool
    ensures { result ≡ begins_header (seen token.now) }
{
    has_form(token, Form::Word) && is_text(b"OPENQASM", token.bytes)
}

// The word that a text begins with.
fn read_header_word<'t>(lexer: &mut Lexer<'t>) -> Result<Token<'t>, ReadError>
    ensures read { Gives (λ t. (seen t, left lexer.new)) result (header_word (left lexer.old)) }
    ensures later { OnOk result (later lexer.new ≡ later lexer.old) }
{
    let token = lexer.next();
    if is_header_word(&token) {
        return Ok(token);
    }
    if has_form(&token, Form::Malformed) {
        Err(refused(Kind::BadToken, &token))
    } else {
        Err(refused(Kind::NoHeader, &token))
    }
}

/// The header of a text, with its `;`.
#[tactic(auto, unfolding(crate::specs::After::header_at))]
pub fn read_header(lexer: &mut Lexer) -> Result<(), ReadError>
    ensures read { Gives (λ _. (tt, [])) result (header_at (left lexer.old)) }
    ensures later { OnOk result (tokens lexer.new ≡ later lexer.old) }
{
    read_header_word(lexer)?;
    let version = demand_number(lexer)?;
    if !is_text(b"2.0", version.bytes) {
        return Err(refused(Kind::Unsupported, &version));
    }
    demand_end(lexer)?;
    Ok(())
}

/// What follows the word `include`, with the `;`.
#[tactic(auto, unfolding(crate::specs::After::include_at))]
pub fn read_include(lexer: &mut Lexer) -> Result<(), ReadError>
    ensures read { Gives (λ _. (tt, [])) result (include_at (left lexer.old)) }
    ensures later { OnOk result (tokens lexer.new ≡ later lexer.old) }
{
    let file = demand_quoted(lexer)?;
    if !is_text(b"\"qelib1.inc\"", file.bytes) {
        return Err(refused(Kind::Unsupported, &file));
    }
    demand_end(lexer)?;
    Ok(())
}
