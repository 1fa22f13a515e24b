ghost use Rattle.std.specs.Prelude.{◌≡◌, ℕ, ◌+◌, ◌-◌, ◌^◌, ◌<◌, ◌≤◌, true, false, length, take, slice_index};
ghost use Rattle.pq_lex.specs.Ends.{after_code, after_byte, mode_after, IsEnded, EndsAt, EndsLast};
ghost use Rattle.pq_lex.specs.declared.ends.Mode.TheVariants.{Code};

/// What the next byte of a text is read as.
#[derive(Clone, Copy, Debug, PartialEq, Eq)]
pub enum Mode {
    /// A part of a token, or between tokens.
    Code,

    /// The same, behind a `/` that may begin a comment.
    AfterSlash,

    /// A part of a comment.
    Comment,

    /// A part of a quoted text.
    Quote,
}

// The mode behind a byte that no comment and no quoted text holds.
#[inline(always)]
fn after_code(byte: u8) -> Mode
    ensures { result ≡ after_code byte }
{
    match byte {
        b'"' => Mode::Quote,
        b'/' => Mode::AfterSlash,
        _ => Mode::Code,
    }
}

impl Mode {
    /// The mode behind this byte.
    #[inline(always)]
    pub fn after(self, byte: u8) -> Mode
        ensures { result ≡ after_byte self byte }
    {
        match self {
            Mode::Code => after_code(byte),
            Mode::AfterSlash if byte == b'/' => Mode::Comment,
            Mode::AfterSlash => after_code(byte),
            Mode::Comment if byte == b'\n' => Mode::Code,
            Mode::Comment => Mode::Comment,
            Mode::Quote if byte == b'"' || byte == b'\n' => Mode::Code,
            Mode::Quote => Mode::Quote,
        }
    }

    #[inline(always)]
    fn is_code(self) -> bool
        ensures yes { result ≡ true → self ≡ Code }
        ensures no_other { result ≡ false → ¬ (self ≡ Code) }
    {
        match self {
            Mode::Code => true,
            _ => false,
        }
    }
}

/// How far a text was gone over.
#[derive(Clone, Copy, Debug, PartialEq, Eq)]
pub struct Ended {
    /// How many bytes stand before the end of its last `;` that is a token; 0 where there is none.
    pub count: usize,

    /// The mode behind the text.
    pub mode: Mode,
}

impl Ended {
    // The same over one byte more, behind so many.
    #[inline(always)]
    fn more(self, before: usize, byte: u8) -> Ended
        requires { before + 1 < 2 ^ 64 }
        ensures mode { result.mode ≡ after_byte self.mode byte }
        ensures count { EndsAt (before + 1) byte (after_byte self.mode byte) self.count result.count }
    {
        let mode = self.mode.after(byte);
        if byte == b';' && mode.is_code() {
            Ended {
                count: before + 1,
                mode,
            }
        } else {
            Ended {
                count: self.count,
                mode,
            }
        }
    }
}

// The same for bytes one after another.
fn ended_in(mode: Mode, text: &[u8]) -> Ended
    ensures last { EndsLast mode text.now result.count (length text.now) }
    ensures mode { result.mode ≡ mode_after mode text.now }
{
    let mut found = Ended { count: 0, mode };
    for (i, byte) in text.iter().enumerate() {
        found = found.more(i, *byte);
    }
    found
}

// How many bytes stand before the last line, which may be empty.
fn before_line(text: &[u8]) -> usize
    ensures within { result ≤ length text.now }
    ensures newline { 1 ≤ result → slice_index text.now (result - 1) ≡ 10 }
{
    let mut left = text.len();
    'bytes: while left > 0 && text[left - 1] != b'\n' {
        left -= 1;
    }
    left
}

// The mode at the start of a line: a newline ends comments and quoted texts.
fn mode_at(mode: Mode, start: usize) -> Mode
    ensures first { start ≡ 0 → result ≡ mode }
    ensures other { 1 ≤ start → result ≡ Code }
{
    if start == 0 { mode } else { Mode::Code }
}

// Where the last `;` ends of a text that ends with a newline, by its lines from the last one on.
fn last_in_lines(mode: Mode, text: &[u8]) -> usize
    ensures { EndsLast mode text.now result (length text.now) }
{
    let mut left = text.len();
    'lines: while left > 0 {
        let start = before_line(&text[..left - 1]);
        let line = ended_in(mode_at(mode, start), &text[start..left]);
        if line.count > 0 {
            return start + line.count;
        }
        left = start;
    }
    0
}

/// Where the last `;` of a text ends that is a token whatever follows, and the mode behind the text. It is looked
/// for line by line from the end of the text.
pub fn last_end(mode: Mode, text: &[u8]) -> Ended
    ensures ended { 1 ≤ result.count → IsEnded mode (take result.count text.now) }
    ensures within { result.count ≤ length text.now }
    ensures last { (k : ℕ) → result.count ≤ k → k < length text.now → ¬ IsEnded mode (take (k + 1) text.now) }
    ensures mode { result.mode ≡ mode_after mode text.now }
{
    let start = before_line(text);
    let line = ended_in(mode_at(mode, start), &text[start..]);
    if line.count > 0 {
        Ended {
            count: start + line.count,
            mode: line.mode,
        }
    } else {
        Ended {
            count: last_in_lines(mode, &text[..start]),
            mode: line.mode,
        }
    }
}
