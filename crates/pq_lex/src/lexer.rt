ghost use Rattle.std.specs.Prelude.{◌≡◌, ◌≢◌, ◌⊎◌, true, false, ◌==◌, ℕ, ◌+◌, ◌^◌, ◌<◌, ◌≤◌, List, [], ◌∷◌, length, take, drop, min, IfSome, IfNone};
ghost use Rattle.std.specs.List.{list_all};
ghost use Rattle.std.specs.Char.{is_ascii_digit};
ghost use Rattle.std.specs.Str.Parse.{digits_value};
ghost use Rattle.pq_lex.specs.declared.token.Form.TheVariants.{Word, Number, Missing, Malformed};
ghost use Rattle.pq_lex.specs.Token.{seen, is_last, number_of};
ghost use Rattle.pq_lex.specs.Front.{blank_length, fronted, front, mark_byte};
ghost use Rattle.pq_lex.specs.Added.{extended, after_blank, StaysMalformed, IsUndecided, IsUnsure};
ghost use Rattle.pq_lex.specs.Ends.{mode_after};
ghost use Rattle.pq_lex.specs.declared.ends.Mode.TheVariants.{Code};
ghost use Rattle.pq_lex.specs.Lex.{Position, tokens, moved, next_line, tokens_of, from_token, first_form, begins_integer};

use crate::front::{
    GREAT, blank_front, byte_of, integer_front, is_decided, is_last, is_next, token_front,
    word_front,
};
use crate::token::{Form, Token};
use pq_limits::MAX_INPUT;
use std::marker::Model;

/// A cursor in a text. Contracts see what is left of the text, and the place where that begins.
#[derive(Drop)]
pub struct Lexer<'t> {
    rest: &'t [u8],
    line: u32,
    column: u32,
}

impl<'t> Model for Lexer<'t> {
    ghost use Rattle.std.specs.Prelude.{◌+◌, ◌^◌, ◌<◌, ◌≤◌, length};
    ghost use Rattle.pq_lex.specs.Lex.{Position};

    ghost Value = { Position };

    ghost view = { λ a. record { rest = a.rest.now; line = a.line; column = a.column } };

    ghost invariant = { λ a. (1 ≤ a.column) × (a.line + (a.column + length a.rest.now) < 2 ^ 32) };
}

impl<'t> Lexer<'t> {
    /// A cursor at the start of a text.
    pub fn new(text: &'t [u8]) -> Lexer<'t>
        requires { length text.now ≤ MAX_INPUT }
        ensures position { result ≡ record { rest = text.entry.now; line = 1; column = 1 } }
        ensures tokens { tokens result ≡ tokens_of text.entry.now }
    {
        Lexer {
            rest: text,
            line: 1,
            column: 1,
        }
    }

    /// A cursor at a place, where this text begins.
    pub fn at(text: &'t [u8], line: u32, column: u32) -> Lexer<'t>
        requires column { 1 ≤ column }
        requires fits { line + (column + length text.now) < 2 ^ 32 }
        ensures { result ≡ record { rest = text.entry.now; line = line; column = column } }
    {
        Lexer {
            rest: text,
            line,
            column,
        }
    }

    /// What is left of the text.
    pub fn rest(&self) -> &'t [u8]
        ensures { result.now ≡ self.now.rest }
    {
        self.rest
    }

    /// The line where that begins.
    pub fn line(&self) -> u32
        ensures { result ≡ self.now.line }
    {
        self.line
    }

    /// The column where that begins.
    pub fn column(&self) -> u32
        ensures column { result ≡ self.now.column }
        ensures some { 1 ≤ result }
    {
        self.column
    }

    // Goes over some bytes that hold no newline.
    #[inline(always)]
    fn advance(&mut self, count: usize)
        requires { count ≤ length self.old.rest }
        ensures { self.new ≡ moved count self.old }
    {
        let rest = self.rest;
        self.column += count as u32;
        self.rest = &rest[count..];
    }

    // Goes over a newline.
    #[inline(always)]
    fn begin_line(&mut self)
        requires { 1 ≤ length self.old.rest }
        ensures { self.new ≡ next_line self.old }
    {
        let rest = self.rest;
        self.line += 1;
        self.column = 1;
        self.rest = &rest[1..];
    }

    // Goes over what is skipped as one at the start.
    #[inline(always)]
    fn skip_one(&mut self, count: usize)
        requires some { 1 ≤ count }
        requires blank { count ≡ blank_length self.old.rest }
        requires within { count ≤ length self.old.rest }
        ensures same { tokens self.new ≡ tokens self.old }
        ensures less { length self.new.rest < length self.old.rest }
        ensures after { self.new ≡ after_blank self.old }
    {
        if self.rest[0] == b'\n' {
            self.begin_line();
        } else {
            self.advance(count);
        }
    }

    // Goes over all that is skipped before the next token.
    #[inline(always)]
    fn skip_blanks(&mut self)
        ensures same { tokens self.new ≡ tokens self.old }
        ensures none { blank_length self.new.rest ≡ 0 }
    {
        loop {
            let count = blank_front(self.rest);
            if count == 0 {
                return;
            }
            self.skip_one(count);
        }
    }

    // Leaves the first two bytes of a comment that the text ends in.
    fn cut_comment(&mut self)
        requires comment { blank_length self.old.rest ≡ length self.old.rest }
        requires long { 3 ≤ length self.old.rest }
        ensures same { (more : List ℕ) → tokens (extended self.new more) ≡ tokens (extended self.old more) }
        ensures mode { mode_after Code self.new.rest ≡ mode_after Code self.old.rest }
        ensures place { self.new.line + (self.new.column + length self.new.rest) ≤ self.old.line + (self.old.column + length self.old.rest) }
        ensures two { length self.new.rest ≡ 2 }
    {
        let rest = self.rest;
        self.column += (rest.len() - 2) as u32;
        self.rest = &rest[..2];
    }

    // Goes over what is skipped at the start and followed by a byte.
    fn skip_followed(&mut self)
        ensures same { (more : List ℕ) → tokens (extended self.new more) ≡ tokens (extended self.old more) }
        ensures mode { mode_after Code self.new.rest ≡ mode_after Code self.old.rest }
        ensures place { self.new.line + (self.new.column + length self.new.rest) ≤ self.old.line + (self.old.column + length self.old.rest) }
        ensures front { (blank_length self.new.rest ≡ 0) ⊎ (blank_length self.new.rest ≡ length self.new.rest) }
    {
        'blanks: loop {
            let count = blank_front(self.rest);
            if count == 0 || count == self.rest.len() {
                return;
            }
            self.skip_one(count);
        }
    }

    /// Goes over what is skipped before the next token, as far as that is so whatever bytes are added to the text.
    /// Of a comment that the text ends in, the first two bytes are left, and of blanks there the last.
    pub fn settle(&mut self)
        ensures same { (more : List ℕ) → tokens (extended self.new more) ≡ tokens (extended self.old more) }
        ensures mode { mode_after Code self.new.rest ≡ mode_after Code self.old.rest }
        ensures place { self.new.line + (self.new.column + length self.new.rest) ≤ self.old.line + (self.old.column + length self.old.rest) }
        ensures front { (blank_length self.new.rest ≡ 0) ⊎ (length self.new.rest ≤ 2) }
    {
        self.skip_followed();
        let left = self.rest.len();
        if 2 < left && blank_front(self.rest) == left {
            self.cut_comment();
        }
    }

    // Goes over the token at the start, where nothing is skipped.
    #[inline(always)]
    fn take(&mut self, form: Form, count: usize) -> Token<'t>
        requires none { blank_length self.old.rest ≡ 0 }
        requires front { fronted form count ≡ front self.old.rest }
        requires within { count ≤ length self.old.rest }
        ensures taken { tokens self.old ≡ from_token (seen result) (tokens self.new) }
        ensures form { result.form ≡ form }
        ensures bytes { result.bytes.now ≡ take count self.old.rest }
        ensures sure { is_last form ≡ false → count + 3 ≤ length self.old.rest
            → (more : List ℕ) → tokens (extended self.old more) ≡ from_token (seen result) (tokens (extended self.new more)) }
    {
        let token = Token {
            form,
            bytes: &self.rest[..count],
            line: self.line,
            column: self.column,
        };
        self.advance(count);
        token
    }

    /// The next token. After a missing or a malformed one there is none.
    #[inline(always)]
    pub fn next(&mut self) -> Token<'t>
        ensures { tokens self.old ≡ from_token (seen result) (tokens self.new) }
    {
        self.skip_blanks();
        let (form, count) = token_front(self.rest);
        self.take(form, count)
    }

    /// The next token where it is the same whatever bytes are added to the text: three bytes follow it.
    pub fn sure(&mut self) -> Option<Token<'t>>
        ensures found { IfSome result (λ t. (more : List ℕ) → tokens (extended self.old more) ≡ from_token (seen t) (tokens (extended self.new more))) }
        ensures inner { IfSome result (λ t. is_last t.form ≡ false) }
        ensures stays { IfNone result ((more : List ℕ) → tokens (extended self.new more) ≡ tokens (extended self.old more)) }
        ensures none { IfNone result (IsUnsure self.new.rest) }
    {
        self.skip_followed();
        let (form, count) = token_front(self.rest);
        if is_last(form) || self.rest.len() < count + 3 || blank_front(self.rest) != 0 {
            None
        } else {
            Some(self.take(form, count))
        }
    }

    /// Whether a malformed token comes next whatever bytes are added to the text.
    pub fn is_malformed(&self) -> bool
        ensures stays { result ≡ true → StaysMalformed self.now }
        ensures none { result ≡ false → (blank_length self.now.rest ≢ 0) ⊎ (IsUndecided self.now.rest ⊎ ((number_of (front self.now.rest).form == number_of Malformed) ≡ false)) }
    {
        if !is_decided(self.rest) || blank_front(self.rest) != 0 {
            return false;
        }
        let (form, _) = token_front(self.rest);
        form.number() == Form::Malformed.number()
    }

    /// The next token where it is this mark, which is one of those that no longer mark begins with.
    #[inline(always)]
    pub fn eat(&mut self, mark: Form) -> Option<Token<'t>>
        requires { 1 ≤ mark_byte mark }
        ensures found { IfSome result (λ t. tokens self.old ≡ from_token (seen t) (tokens self.new)) }
        ensures form { IfSome result (λ t. t.form ≡ mark) }
        ensures other { IfNone result ((number_of (first_form (tokens self.old)) == number_of mark) ≡ false) }
        ensures stays { IfNone result (tokens self.new ≡ tokens self.old) }
    {
        self.skip_blanks();
        if is_next(byte_of(mark), self.rest) {
            Some(self.take(mark, 1))
        } else {
            None
        }
    }

    /// The next token where it is a word.
    #[tactic(auto, using(crate::proofs::Others::word_other))]
    #[inline(always)]
    pub fn word(&mut self) -> Option<Token<'t>>
        ensures found { IfSome result (λ t. tokens self.old ≡ from_token (seen t) (tokens self.new)) }
        ensures form { IfSome result (λ t. t.form ≡ Word) }
        ensures other { IfNone result ((number_of (first_form (tokens self.old)) == number_of Word) ≡ false) }
        ensures stays { IfNone result (tokens self.new ≡ tokens self.old) }
    {
        self.skip_blanks();
        let bytes = word_front(self.rest);
        if bytes == 0 {
            None
        } else {
            Some(self.take(Form::Word, bytes))
        }
    }

    /// The next token and its value, which stops growing at a million, where it is an integer.
    #[tactic(auto, using(crate::proofs::Others::integer_other))]
    #[inline(always)]
    pub fn integer(&mut self) -> Option<(Token<'t>, u32)>
        ensures found { IfSome result (λ x. tokens self.old ≡ from_token (seen x.0) (tokens self.new)) }
        ensures form { IfSome result (λ x. x.0.form ≡ Number) }
        ensures digits { IfSome result (λ x. list_all is_ascii_digit x.0.bytes.now ≡ true) }
        ensures value { IfSome result (λ x. x.1 ≡ min (digits_value 10 x.0.bytes.now) GREAT) }
        ensures other { IfNone result (begins_integer (tokens self.old) ≡ false) }
        ensures stays { IfNone result (tokens self.new ≡ tokens self.old) }
    {
        self.skip_blanks();
        let (digits, value) = integer_front(self.rest);
        if digits == 0 {
            None
        } else {
            Some((self.take(Form::Number, digits), value))
        }
    }

    /// Whether the end of the text comes next.
    #[inline(always)]
    pub fn is_at_end(&mut self) -> bool
        ensures same { tokens self.new ≡ tokens self.old }
        ensures end { result ≡ (number_of (first_form (tokens self.new)) == number_of Missing) }
        ensures last { result ≡ true → length (tokens self.new) ≡ 1 }
    {
        self.skip_blanks();
        self.rest.is_empty()
    }

    /// The form of the next token, which stays next.
    #[inline(always)]
    pub fn peek(&mut self) -> Form
        ensures same { tokens self.new ≡ tokens self.old }
        ensures form { result ≡ first_form (tokens self.new) }
        ensures last { is_last result ≡ true → length (tokens self.new) ≡ 1 }
    {
        self.skip_blanks();
        let (form, _) = token_front(self.rest);
        form
    }
}
