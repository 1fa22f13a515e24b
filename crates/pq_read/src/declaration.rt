ghost use Rattle.std.specs.Prelude.{◌≡◌, ◌≤◌, ◌+◌, [], ◌∷◌, ◌++◌, true, false, min, OnOk, IfOk};
ghost use Rattle.pq_lex.specs.Token.{seen};
ghost use Rattle.pq_lex.specs.Lex.{tokens};
ghost use Rattle.pq_text.specs.Program.{places_of};
ghost use Rattle.pq_read.specs.Environment.{register_view};
ghost use Rattle.pq_text.specs.Name.{is_name};
ghost use Rattle.pq_read.specs.Faults.{value_of};
ghost use Rattle.pq_read.specs.After.{is_taken, new_name, new_size, declared_at};
ghost use Rattle.pq_read.specs.Registers.{IsNew};
ghost use Rattle.pq_read.specs.Gives.{Gives, left, later};

use crate::name::{Name, name_of};
use crate::program::Register;
use crate::refusal::{Kind, ReadError};
use crate::registers::Registers;
use crate::token::{demand_end, demand_mark, demand_word, integer, refused};
use pq_lex::{Form, GREAT, Lexer, Token};
use pq_limits::{MAX_NAME, MAX_PLACES};
use pq_text::is_lawful_name;
use std::alloc::Global;

// Whether a register of either kind has this name.
fn has_register(quantum: &Registers, classical: &Registers, name: &[u8]) -> bool
    ensures { result ≡ is_taken quantum.now classical.now name.now }
{
    quantum.find(name).is_some() || classical.find(name).is_some()
}

// The name of a new register.
fn check_name(quantum: &Registers, classical: &Registers, token: &Token) -> Result<(), ReadError>
    ensures read { Gives (λ _. token.now.bytes.now) result (new_name quantum.now classical.now (seen token.now)) }
    ensures named { OnOk result (is_name token.now.bytes.now ≡ true) }
    ensures free { OnOk result (is_taken quantum.now classical.now token.now.bytes.now ≡ false) }
{
    if !is_lawful_name(token.bytes) {
        return Err(refused(Kind::Syntax, token));
    }
    if token.bytes.len() > MAX_NAME {
        return Err(refused(Kind::NameTooLong, token));
    }
    if has_register(quantum, classical, token.bytes) {
        return Err(refused(Kind::RepeatedName, token));
    }
    Ok(())
}

// The size of a new register beside those of its kind.
#[tactic(auto, using(crate::proofs::Sizes::size_zero, crate::proofs::Sizes::size_many, crate::proofs::Sizes::size_fits))]
fn check_size(
    too_many: Kind,
    registers: &Registers,
    token: &Token,
    size: u32,
) -> Result<(), ReadError>
    requires { size ≡ min (value_of (seen token.now)) GREAT }
    ensures read { Gives (λ _. size) result (new_size too_many registers.now (seen token.now)) }
    ensures some { OnOk result (1 ≤ size) }
    ensures room { OnOk result (places_of registers.now + size ≤ MAX_PLACES) }
{
    if size == 0 {
        return Err(refused(Kind::BadSize, token));
    }
    let total = registers.total();
    if total + size > MAX_PLACES {
        return Err(refused(too_many, token));
    }
    Ok(())
}

/// What follows `qreg` or `creg`, with the `;`: a register beside those of its kind.
#[tactic(auto, unfolding(crate::specs::After::declared_at))]
pub fn read_declaration(
    alloc: Global,
    lexer: &mut Lexer,
    too_many: Kind,
    quantum: &Registers,
    classical: &Registers,
    own: &Registers,
) -> Result<Register, ReadError>
    ensures read { Gives (λ r. (register_view r, [])) result
        (declared_at too_many quantum.now classical.now own.now (left lexer.old)) }
    ensures later { OnOk result (tokens lexer.new ≡ later lexer.old) }
    ensures told { IfOk result (λ r. IsNew own.now (register_view r)) }
    ensures free { IfOk result (λ r. is_taken quantum.now classical.now (register_view r).name ≡ false) }
{
    let word = demand_word(lexer)?;
    check_name(quantum, classical, &word)?;
    demand_mark(lexer, Form::LeftBracket)?;
    let (token, size) = integer(lexer)?;
    check_size(too_many, own, &token, size)?;
    demand_mark(lexer, Form::RightBracket)?;
    demand_end(lexer)?;
    let name = name_of(alloc, word.bytes)?;
    Ok(Register { name, size })
}
