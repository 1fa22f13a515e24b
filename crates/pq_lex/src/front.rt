ghost use Rattle.std.specs.Prelude.{◌≡◌, ◌==◌, ◌&&◌, ◌+◌, ◌^◌, ◌<◌, ◌≤◌, length, take, drop, slice_index, min, true, false, IsTrue};
ghost use Rattle.std.specs.List.{position_or_len};
ghost use Rattle.pq_lex.specs.Front.{is_outside_word, is_no_digit, is_newline, is_unquotable, blank_length, some_digits, exponent_digits, exponent_length, fraction_length, decimal_length, number_front, quoted_front, begins_with, mark_front, mark_byte, fronted, front, form_and_count};
ghost use Rattle.pq_lex.specs.declared.token.Form.TheVariants.{Word, Number};
ghost use Rattle.pq_lex.specs.Token.{is_last, number_of};
ghost use Rattle.pq_lex.specs.Added.{IsUndecided};
ghost use Rattle.std.specs.List.{list_all};
ghost use Rattle.std.specs.Char.{is_ascii_digit};
ghost use Rattle.std.specs.Str.Parse.{digits_value};

use crate::token::Form;

/// What the value of an integer stops growing at.
pub const GREAT: u32 = 1_000_000;

// A byte that a word can't have.
#[inline(always)]
fn ends_word(byte: u8) -> bool
    ensures { result ≡ is_outside_word byte }
{
    !byte.is_ascii_alphanumeric() && byte != b'_'
}

#[inline(always)]
fn ends_digits(byte: u8) -> bool
    ensures { result ≡ is_no_digit byte }
{
    !byte.is_ascii_digit()
}

#[inline(always)]
fn ends_line(byte: u8) -> bool
    ensures { result ≡ is_newline byte }
{
    byte == b'\n'
}

// A byte that a text between quotes can't hold.
#[inline(always)]
fn ends_quoted(byte: u8) -> bool
    ensures { result ≡ is_unquotable byte }
{
    byte == b'\n' || byte == b'"'
}

// How many bytes at the start a word may have.
#[inline(always)]
fn word_bytes(text: &[u8]) -> usize
    ensures place { result ≡ position_or_len is_outside_word text.now }
    ensures within { result ≤ length text.now }
{
    for (i, byte) in text.iter().enumerate() {
        if ends_word(*byte) {
            return i;
        }
    }
    text.len()
}

// How many digits there are at the start.
#[inline(always)]
fn digits(text: &[u8]) -> usize
    ensures place { result ≡ position_or_len is_no_digit text.now }
    ensures within { result ≤ length text.now }
{
    for (i, byte) in text.iter().enumerate() {
        if ends_digits(*byte) {
            return i;
        }
    }
    text.len()
}

// How many bytes stand before the first newline, or the end.
#[inline(never)]
fn line_bytes(text: &[u8]) -> usize
    ensures place { result ≡ position_or_len is_newline text.now }
    ensures within { result ≤ length text.now }
{
    for (i, byte) in text.iter().enumerate() {
        if ends_line(*byte) {
            return i;
        }
    }
    text.len()
}

// How many bytes stand before the first `"` or newline, or the end.
#[inline(never)]
fn quoted_bytes(text: &[u8]) -> usize
    ensures place { result ≡ position_or_len is_unquotable text.now }
    ensures within { result ≤ length text.now }
{
    for (i, byte) in text.iter().enumerate() {
        if ends_quoted(*byte) {
            return i;
        }
    }
    text.len()
}

// The bytes before some digits and these, or 0 where there is no digit.
#[inline(never)]
fn some_digits_after(before: usize, text: &[u8]) -> usize
    requires { before + length text.now < 2 ^ 64 }
    ensures count { result ≡ some_digits before text.now }
    ensures within { result ≤ before + length text.now }
{
    let count = digits(text);
    if count == 0 { 0 } else { before + count }
}

// What follows `e`.
#[inline(never)]
fn exponent_rest(text: &[u8]) -> usize
    requires { length text.now + 1 < 2 ^ 64 }
    ensures count { result ≡ exponent_digits text.now }
    ensures within { result ≤ length text.now + 1 }
{
    match text {
        [b'+' | b'-', rest @ ..] => some_digits_after(2, rest),
        _ => some_digits_after(1, text),
    }
}

// How many bytes an exponent at the start has, 0 where there is none.
#[inline(always)]
fn exponent(text: &[u8]) -> usize
    ensures count { result ≡ exponent_length text.now }
    ensures within { result ≤ length text.now }
{
    match text {
        [b'e' | b'E', rest @ ..] => exponent_rest(rest),
        _ => 0,
    }
}

// How many bytes a `.` at the start and the digits after it have, 0 where there is none.
#[inline(always)]
fn fraction(text: &[u8]) -> usize
    ensures count { result ≡ fraction_length text.now }
    ensures within { result ≤ length text.now }
{
    match text {
        [b'.', rest @ ..] => 1 + digits(rest),
        _ => 0,
    }
}

// How many bytes a number without exponent has, 0 where there is none.
#[inline(always)]
fn decimal_bytes(text: &[u8]) -> usize
    ensures count { result ≡ decimal_length text.now }
    ensures within { result ≤ length text.now }
{
    let whole = digits(text);
    let all = whole + fraction(&text[whole..]);
    if whole == 0 && all == 1 { 0 } else { all }
}

#[inline(always)]
fn number(text: &[u8]) -> (Form, usize)
    ensures front { form_and_count result ≡ number_front text.now }
    ensures within { result.1 ≤ length text.now }
{
    let count = decimal_bytes(text);
    if count == 0 {
        (Form::Malformed, 0)
    } else {
        (Form::Number, count + exponent(&text[count..]))
    }
}

// A text between quotes, by what follows the first quote.
#[inline(never)]
fn quoted(rest: &[u8]) -> (Form, usize)
    requires { length rest.now + 1 < 2 ^ 64 }
    ensures front { form_and_count result ≡ quoted_front rest.now }
    ensures within { result.1 ≤ length rest.now + 1 }
{
    let inside = quoted_bytes(rest);
    match &rest[inside..] {
        [b'"', ..] => (Form::Quoted, inside + 2),
        _ => (Form::Malformed, 0),
    }
}

/// Whether this byte comes next.
#[inline(always)]
pub(crate) fn is_next(mark: u8, rest: &[u8]) -> bool
    ensures next { result ≡ begins_with mark rest.now }
    ensures some { IsTrue result → 1 ≤ length rest.now }
{
    match rest {
        [first, ..] => *first == mark,
        [] => false,
    }
}

// A mark, by its first byte and what follows that.
#[inline(always)]
fn mark(first: u8, rest: &[u8]) -> (Form, usize)
    ensures front { form_and_count result ≡ mark_front first rest.now }
    ensures within { result.1 ≤ length rest.now + 1 }
{
    match first {
        b';' => (Form::Semicolon, 1),
        b',' => (Form::Comma, 1),
        b'(' => (Form::LeftParenthesis, 1),
        b')' => (Form::RightParenthesis, 1),
        b'[' => (Form::LeftBracket, 1),
        b']' => (Form::RightBracket, 1),
        b'{' => (Form::LeftBrace, 1),
        b'}' => (Form::RightBrace, 1),
        b'+' => (Form::Plus, 1),
        b'*' => (Form::Star, 1),
        b'/' => (Form::Slash, 1),
        b'^' => (Form::Caret, 1),
        b'-' => {
            if is_next(b'>', rest) {
                (Form::Arrow, 2)
            } else {
                (Form::Minus, 1)
            }
        }
        b'=' => {
            if is_next(b'=', rest) {
                (Form::DoubleEqual, 2)
            } else {
                (Form::Malformed, 0)
            }
        }
        _ => (Form::Malformed, 0),
    }
}

/// The form of the token at the start of a text that nothing is skipped of, and how many bytes it
/// has: none for the end of the text and for what is malformed.
#[tactic(auto, unfolding(crate::specs::Front::front))]
#[inline(always)]
pub(crate) fn token_front(text: &[u8]) -> (Form, usize)
    ensures front { form_and_count result ≡ front text.now }
    ensures within { result.1 ≤ length text.now }
{
    match text {
        [] => (Form::Missing, 0),
        [first, rest @ ..] => match *first {
            b'a'..=b'z' | b'A'..=b'Z' => (Form::Word, 1 + word_bytes(rest)),
            b'0'..=b'9' | b'.' => number(text),
            b'"' => quoted(rest),
            other => mark(other, rest),
        },
    }
}

/// The byte of a mark that no longer mark begins with, 0 for the other forms.
#[inline(always)]
pub(crate) fn byte_of(mark: Form) -> u8
    ensures { result ≡ mark_byte mark }
{
    match mark {
        Form::Semicolon => b';',
        Form::Comma => b',',
        Form::LeftParenthesis => b'(',
        Form::RightParenthesis => b')',
        Form::LeftBracket => b'[',
        Form::RightBracket => b']',
        Form::LeftBrace => b'{',
        Form::RightBrace => b'}',
        _ => 0,
    }
}

/// How many bytes the word at the start of a text has that nothing is skipped of, 0 where there is none.
#[inline(always)]
pub(crate) fn word_front(text: &[u8]) -> usize
    ensures front { 1 ≤ result → fronted Word result ≡ front text.now }
    ensures none { result ≡ 0 → (number_of (front text.now).form == number_of Word) ≡ false }
    ensures within { result ≤ length text.now }
{
    match text {
        [first, rest @ ..] if first.is_ascii_alphabetic() => 1 + word_bytes(rest),
        _ => 0,
    }
}

// How many digits there are at the start, and their value.
#[inline(always)]
fn valued_digits(text: &[u8]) -> (usize, u32)
    ensures place { result.0 ≡ position_or_len is_no_digit text.now }
    ensures digits { list_all is_ascii_digit (take result.0 text.now) ≡ true }
    ensures value { result.1 ≡ min (digits_value 10 (take result.0 text.now)) GREAT }
    ensures within { result.0 ≤ length text.now }
{
    let mut value: u32 = 0;
    for (i, byte) in text.iter().enumerate() {
        if !byte.is_ascii_digit() {
            return (i, value);
        }
        value = (value * 10 + u32::from(*byte - b'0')).min(GREAT);
    }
    (text.len(), value)
}

/// How many bytes the integer at the start of a text has that nothing is skipped of, and its value. There are
/// none where no integer is there.
#[inline(always)]
pub(crate) fn integer_front(text: &[u8]) -> (usize, u32)
    ensures front { 1 ≤ result.0 → fronted Number result.0 ≡ front text.now }
    ensures none { result.0 ≡ 0 → (number_of (front text.now).form == number_of Number && list_all is_ascii_digit (take (front text.now).count text.now)) ≡ false }
    ensures digits { list_all is_ascii_digit (take result.0 text.now) ≡ true }
    ensures value { result.1 ≡ min (digits_value 10 (take result.0 text.now)) GREAT }
    ensures within { result.0 ≤ length text.now }
{
    let (count, value) = valued_digits(text);
    let rest = &text[count..];
    if fraction(rest) == 0 && exponent(rest) == 0 {
        (count, value)
    } else {
        (0, 0)
    }
}

/// How many bytes at the start of a text are skipped as one: a separator, or a comment.
#[inline(always)]
pub(crate) fn blank_front(text: &[u8]) -> usize
    ensures count { result ≡ blank_length text.now }
    ensures within { result ≤ length text.now }
{
    match text {
        [b' ' | b'\t' | b'\r' | b'\n', ..] => 1,
        [b'/', b'/', rest @ ..] => 2 + line_bytes(rest),
        _ => 0,
    }
}

/// Whether nothing is read after a token of this form.
pub(crate) fn is_last(form: Form) -> bool
    ensures { result ≡ is_last form }
{
    matches!(form, Form::Missing | Form::Malformed)
}

/// Whether a byte follows the first one, and where that is a `"`, its line ends.
pub(crate) fn is_decided(text: &[u8]) -> bool
    ensures some { result ≡ true → 2 ≤ length text.now }
    ensures line { result ≡ true → slice_index text.now 0 ≡ 34 → position_or_len is_newline (drop 1 text.now) < length (drop 1 text.now) }
    ensures none { result ≡ false → IsUndecided text.now }
{
    match text {
        [b'"', line @ ..] => line_bytes(line) < line.len(),
        _ => text.len() >= 2,
    }
}
