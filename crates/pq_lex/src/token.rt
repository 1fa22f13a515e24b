ghost use Rattle.std.specs.Prelude.{◌≡◌};
ghost use Rattle.pq_lex.specs.Token.{number_of};

/// What kind of token it is.
#[derive(Clone, Copy, Debug, PartialEq, Eq)]
pub enum Form {
    /// A letter, then letters, digits or `_`.
    Word,

    /// Digits, perhaps with one `.` and an exponent.
    Number,

    /// Text between two `"` on one line.
    Quoted,

    Semicolon,
    Comma,
    LeftParenthesis,
    RightParenthesis,
    LeftBracket,
    RightBracket,
    LeftBrace,
    RightBrace,
    Plus,
    Minus,
    Star,
    Slash,
    Caret,

    /// `->`
    Arrow,

    /// `==`
    DoubleEqual,

    /// The end of the text.
    Missing,

    /// A byte that begins no token, or the `"` of a text that isn't closed on its line.
    Malformed,
}

impl Form {
    /// Its number in the order in which the forms are listed.
    pub fn number(self) -> u8
        ensures { result ≡ number_of self }
    {
        self as u8
    }
}

/// A token and its place: the line and the column of its first byte, both counted from 1. The bytes
/// of a quoted text include the two quotes; a missing or a malformed token has none.
#[derive(Clone, Copy, Debug, PartialEq, Eq)]
pub struct Token<'t> {
    pub form: Form,
    pub bytes: &'t [u8],
    pub line: u32,
    pub column: u32,
}
