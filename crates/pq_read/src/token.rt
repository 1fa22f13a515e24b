ghost use Rattle.std.specs.Prelude.{◌≡◌, ◌≤◌, ◌^◌, [], OnOk, IfOk, Ok, MatchOption, true, false, length, min};
ghost use Rattle.std.specs.List.{list_all};
ghost use Rattle.std.specs.Char.{is_ascii_digit};
ghost use Rattle.std.specs.Str.Parse.{digits_value};
ghost use Rattle.pq_lex.specs.declared.token.Form.TheVariants.{Word, Number, Quoted, Semicolon, Arrow};
ghost use Rattle.pq_lex.specs.Front.{mark_byte};
ghost use Rattle.pq_lex.specs.Token.{seen, is_last};
ghost use Rattle.pq_lex.specs.Lex.{tokens};
ghost use Rattle.pq_read.specs.declared.refusal.ReadError.TheVariants.{Refused};
ghost use Rattle.pq_read.specs.Faults.{refused as refused_at, unexpected as unexpected_at, is_form, head, demanded, integer_at, value_of};
ghost use Rattle.pq_read.specs.Gives.{Gives, left, later, IsInside};

use crate::refusal::{Kind, ReadError, Refusal};
use pq_lex::{Form, GREAT, Lexer, Token};

/// A fault of this kind at a token.
#[cold]
#[inline(never)]
pub fn refused(kind: Kind, token: &Token) -> ReadError
    ensures { result ≡ Refused (refused_at kind (seen token.now)) }
{
    ReadError::Refused(Refusal {
        kind,
        line: token.line,
        column: token.column,
    })
}

/// A token that isn't allowed at its place.
#[cold]
pub fn unexpected(token: &Token) -> ReadError
    ensures { result ≡ Refused (unexpected_at (seen token.now)) }
{
    if has_form(token, Form::Malformed) {
        refused(Kind::BadToken, token)
    } else {
        refused(Kind::Syntax, token)
    }
}

/// Whether a token has this form.
#[inline(always)]
pub fn has_form(token: &Token, form: Form) -> bool
    ensures { result ≡ is_form form (seen token.now) }
{
    token.form.number() == form.number()
}

// The next token, which must be of this form.
#[inline(never)]
fn demand<'t>(lexer: &mut Lexer<'t>, form: Form) -> Result<Token<'t>, ReadError>
    requires { IsInside form }
    ensures read { Gives (λ t. (seen t, left lexer.new)) result (demanded form (left lexer.old)) }
    ensures later { OnOk result (later lexer.new ≡ later lexer.old) }
{
    let token = lexer.next();
    if has_form(&token, form) {
        Ok(token)
    } else {
        Err(unexpected(&token))
    }
}

/// The next token, which must be quoted.
pub fn demand_quoted<'t>(lexer: &mut Lexer<'t>) -> Result<Token<'t>, ReadError>
    ensures read { Gives (λ t. (seen t, left lexer.new)) result (demanded Quoted (left lexer.old)) }
    ensures later { OnOk result (later lexer.new ≡ later lexer.old) }
{
    demand(lexer, Form::Quoted)
}

/// The next token, which must be the arrow.
pub fn demand_arrow<'t>(lexer: &mut Lexer<'t>) -> Result<Token<'t>, ReadError>
    ensures read { Gives (λ t. (seen t, left lexer.new)) result (demanded Arrow (left lexer.old)) }
    ensures later { OnOk result (later lexer.new ≡ later lexer.old) }
{
    demand(lexer, Form::Arrow)
}

/// The next token, which must be a number.
pub fn demand_number<'t>(lexer: &mut Lexer<'t>) -> Result<Token<'t>, ReadError>
    ensures read { Gives (λ t. (seen t, left lexer.new)) result (demanded Number (left lexer.old)) }
    ensures later { OnOk result (later lexer.new ≡ later lexer.old) }
{
    demand(lexer, Form::Number)
}

/// The next token, which must be a word.
#[inline(always)]
pub fn demand_word<'t>(lexer: &mut Lexer<'t>) -> Result<Token<'t>, ReadError>
    ensures read { Gives (λ t. (seen t, left lexer.new)) result (demanded Word (left lexer.old)) }
    ensures later { OnOk result (later lexer.new ≡ later lexer.old) }
{
    match lexer.word() {
        Some(token) => Ok(token),
        None => demand(lexer, Form::Word),
    }
}

/// The next token, which must be this mark.
#[inline(always)]
pub fn demand_mark<'t>(lexer: &mut Lexer<'t>, mark: Form) -> Result<Token<'t>, ReadError>
    requires inside { IsInside mark }
    requires mark { 1 ≤ mark_byte mark }
    ensures read { Gives (λ t. (seen t, left lexer.new)) result (demanded mark (left lexer.old)) }
    ensures later { OnOk result (later lexer.new ≡ later lexer.old) }
{
    match lexer.eat(mark) {
        Some(token) => Ok(token),
        None => demand(lexer, mark),
    }
}

// The next token, which must be the `;` that ends the piece and isn't.
#[inline(never)]
fn demand_any_end<'t>(lexer: &mut Lexer<'t>) -> Result<Token<'t>, ReadError>
    ensures read { Gives (λ t. (seen t, [])) result (demanded Semicolon (left lexer.old)) }
    ensures later { OnOk result (tokens lexer.new ≡ later lexer.old) }
{
    let token = lexer.next();
    if has_form(&token, Form::Semicolon) {
        Ok(token)
    } else {
        Err(unexpected(&token))
    }
}

/// The next token, which must be the `;` that ends the piece.
#[inline(always)]
pub fn demand_end<'t>(lexer: &mut Lexer<'t>) -> Result<Token<'t>, ReadError>
    ensures read { Gives (λ t. (seen t, [])) result (demanded Semicolon (left lexer.old)) }
    ensures later { OnOk result (tokens lexer.new ≡ later lexer.old) }
{
    match lexer.eat(Form::Semicolon) {
        Some(token) => Ok(token),
        None => demand_any_end(lexer),
    }
}

/// Goes over the next token where it is this mark.
#[inline(always)]
pub fn goes_over(lexer: &mut Lexer, mark: Form) -> bool
    requires inside { IsInside mark }
    requires mark { 1 ≤ mark_byte mark }
    ensures test { result ≡ is_form mark (head (left lexer.old)) }
    ensures read { result ≡ true → demanded mark (left lexer.old) ≡ Ok (head (left lexer.old), left lexer.new) }
    ensures same { result ≡ false → tokens lexer.new ≡ tokens lexer.old }
    ensures later { later lexer.new ≡ later lexer.old }
{
    match lexer.eat(mark) {
        Some(_) => true,
        None => false,
    }
}

/// The value of some digits, which stops growing at a million, or `None` where a byte is no digit.
pub fn integer_value(digits: &[u8]) -> Option<u32>
    ensures { MatchOption result
        (list_all is_ascii_digit digits.now ≡ false)
        (λ value. (list_all is_ascii_digit digits.now ≡ true) × (value ≡ min (digits_value 10 digits.now) GREAT)) }
{
    let mut value: u32 = 0;
    for digit in digits {
        if !digit.is_ascii_digit() {
            return None;
        }
        value = (value * 10 + u32::from(*digit - b'0')).min(GREAT);
    }
    Some(value)
}

// The next token, which must be an integer, and its value, whatever comes next.
#[tactic(auto, unfolding(crate::specs::Faults::integer_at))]
#[inline(never)]
fn any_integer<'t>(lexer: &mut Lexer<'t>) -> Result<(Token<'t>, u32), ReadError>
    ensures read { Gives (λ x. (seen x.0, left lexer.new)) result (integer_at (left lexer.old)) }
    ensures later { OnOk result (later lexer.new ≡ later lexer.old) }
    ensures value { IfOk result (λ x. x.1 ≡ min (value_of (seen x.0)) GREAT) }
{
    let token = demand(lexer, Form::Number)?;
    match integer_value(token.bytes) {
        Some(value) => Ok((token, value)),
        None => Err(refused(Kind::Syntax, &token)),
    }
}

/// The next token, which must be an integer, and its value, which stops growing at a million.
#[inline(always)]
pub fn integer<'t>(lexer: &mut Lexer<'t>) -> Result<(Token<'t>, u32), ReadError>
    ensures read { Gives (λ x. (seen x.0, left lexer.new)) result (integer_at (left lexer.old)) }
    ensures later { OnOk result (later lexer.new ≡ later lexer.old) }
    ensures value { IfOk result (λ x. x.1 ≡ min (value_of (seen x.0)) GREAT) }
{
    match lexer.integer() {
        Some(x) => Ok(x),
        None => any_integer(lexer),
    }
}
