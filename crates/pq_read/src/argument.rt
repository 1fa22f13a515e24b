ghost use Rattle.std.specs.Prelude.{◌≡◌, ◌≤◌, ◌<◌, ◌+◌, ◌∷◌, [], true, OnOk, IfOk};
ghost use Rattle.pq_lex.specs.Token.{seen};
ghost use Rattle.pq_read.specs.declared.refusal.ReadError.TheVariants.{Refused};
ghost use Rattle.pq_read.specs.Arguments.{indexed_at, argument_at, arguments_at, differ as differ_of, meet as meet_of, fits as fits_of, place_at};
ghost use Rattle.pq_read.specs.Lists.{is_in_span};
ghost use Rattle.pq_read.specs.Expansion.{nth_place, instances as instances_of_all};
ghost use Rattle.pq_read.specs.Registers.{IsArgument};
ghost use Rattle.pq_read.specs.Gives.{Gives, left, later};

use crate::refusal::{Kind, ReadError, Refusal};
use crate::registers::Registers;
use crate::token::{demand_mark, demand_word, goes_over, integer, refused};
use pq_lex::{Form, Lexer, Token};
use pq_limits::MAX_PLACES;

/// Where a register's places begin, and how many it has.
#[derive(Clone, Copy)]
pub struct Span {
    pub first: u32,
    pub size: u32,
}

/// An argument of a statement: `count` places from `first` on, and the place of its name in the text.
/// A whole register takes part with all of its places; else there is one.
#[derive(Clone, Copy)]
pub struct Argument {
    pub first: u32,
    pub count: u32,
    pub whole: bool,
    pub line: u32,
    pub column: u32,
}

// What follows `[` in an argument.
#[tactic(auto, unfolding(crate::specs::Arguments::indexed_at))]
#[inline(always)]
fn read_index(lexer: &mut Lexer, span: Span, name: &Token) -> Result<Argument, ReadError>
    requires { span.first + span.size ≤ MAX_PLACES }
    ensures read { Gives (λ a. (a, left lexer.new)) result (indexed_at span (seen name.now) (left lexer.old)) }
    ensures later { OnOk result (later lexer.new ≡ later lexer.old) }
    ensures told { IfOk result IsArgument }
{
    let (token, index) = integer(lexer)?;
    if index >= span.size {
        return Err(refused(Kind::IndexOutOfRange, &token));
    }
    demand_mark(lexer, Form::RightBracket)?;
    Ok(Argument {
        first: span.first + index,
        count: 1,
        whole: false,
        line: name.line,
        column: name.column,
    })
}

/// The argument over these registers that the next tokens are.
#[tactic(auto, unfolding(crate::specs::Arguments::argument_at))]
pub fn read_argument(lexer: &mut Lexer, registers: &Registers) -> Result<Argument, ReadError>
    ensures read { Gives (λ a. (a, left lexer.new)) result (argument_at registers.now (left lexer.old)) }
    ensures later { OnOk result (later lexer.new ≡ later lexer.old) }
    ensures told { IfOk result IsArgument }
{
    let name = demand_word(lexer)?;
    let span = registers.named(&name)?;
    if goes_over(lexer, Form::LeftBracket) {
        return read_index(lexer, span, &name);
    }
    Ok(Argument {
        first: span.first,
        count: span.size,
        whole: true,
        line: name.line,
        column: name.column,
    })
}

impl Argument {
    /// The place that it has in the instance k.
    #[inline(always)]
    pub fn place(&self, k: u32) -> u32
        requires kept { IsArgument self.now }
        requires instance { k < MAX_PLACES }
        ensures { result ≡ place_at self.now k }
    {
        if self.whole {
            self.first + k
        } else {
            self.first
        }
    }

    /// A fault of this kind at its name.
    pub fn refused(&self, kind: Kind) -> ReadError
        ensures { result ≡ Refused (record { kind = kind; line = self.now.line; column = self.now.column }) }
    {
        ReadError::Refused(Refusal {
            kind,
            line: self.line,
            column: self.column,
        })
    }
}

// Whether two arguments are registers of different sizes.
fn differ(a: &Argument, b: &Argument) -> bool
    ensures { result ≡ differ_of a.now b.now }
{
    a.whole && b.whole && a.count != b.count
}

// Whether a place is one of `count` places from `first` on.
fn is_in(first: u32, count: u32, place: u32) -> bool
    requires { first + count ≤ MAX_PLACES }
    ensures { result ≡ is_in_span first count place }
{
    first <= place && place < first + count
}

// Whether two arguments are the same place in some instance.
#[tactic(auto, using(crate::proofs::Meets::meets_ww, crate::proofs::Meets::meets_ws, crate::proofs::Meets::meets_sw, crate::proofs::Meets::meets_ss))]
fn meet(a: &Argument, b: &Argument) -> bool
    requires a { IsArgument a.now }
    requires b { IsArgument b.now }
    ensures { result ≡ meet_of a.now b.now }
{
    if a.whole {
        if b.whole {
            a.first == b.first
        } else {
            is_in(a.first, a.count, b.first)
        }
    } else if b.whole {
        is_in(b.first, b.count, a.first)
    } else {
        a.first == b.first
    }
}

/// Checks an argument after the one before it.
#[inline(always)]
pub fn check_second(first: &Argument, a: &Argument) -> Result<(), ReadError>
    requires first { IsArgument first.now }
    requires a { IsArgument a.now }
    ensures { Gives (λ _. tt) result (fits_of (first.now ∷ []) a.now) }
{
    if differ(a, first) {
        return Err(a.refused(Kind::SizeMismatch));
    }
    if meet(a, first) {
        return Err(a.refused(Kind::SameQubit));
    }
    Ok(())
}

/// Checks an argument after the two before it.
pub fn check_third(first: &Argument, second: &Argument, a: &Argument) -> Result<(), ReadError>
    requires first { IsArgument first.now }
    requires second { IsArgument second.now }
    requires a { IsArgument a.now }
    ensures { Gives (λ _. tt) result (fits_of (first.now ∷ second.now ∷ []) a.now) }
{
    if differ(a, first) || differ(a, second) {
        return Err(a.refused(Kind::SizeMismatch));
    }
    if meet(a, first) || meet(a, second) {
        return Err(a.refused(Kind::SameQubit));
    }
    Ok(())
}
