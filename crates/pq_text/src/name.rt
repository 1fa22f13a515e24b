ghost use Rattle.std.specs.Prelude.{◌≡◌, ◌↔◌, IsTrue, slice_index, bytes_eq};
ghost use Rattle.std.specs.List.{list_any, list_all};
ghost use Rattle.std.specs.Char.{is_ascii_lowercase};
ghost use Rattle.pq_text.specs.Name.{reserved_words, is_name_byte, is_name, IsLawfulName};

/// Whether the text is a lawful name: a lower-case letter, then letters, digits or `_`, and no word
/// of the language. Its length isn't looked at.
pub fn is_lawful_name(name: &[u8]) -> bool
    ensures test { result ≡ is_name name.now }
    ensures lawful { IsTrue result ↔ IsLawfulName name.now }
{
    has_name_form(name)
}

#[tactic(auto, unfolding(crate::specs::Name::is_name))]
fn has_name_form(name: &[u8]) -> bool
    ensures { result ≡ is_name name.now }
{
    begins_low(name) && has_name_bytes(name) && !is_reserved(name)
}

fn begins_low(name: &[u8]) -> bool
    ensures { result ≡ is_ascii_lowercase (slice_index name.now 0) }
{
    match name.first() {
        Some(first) => first.is_ascii_lowercase(),
        None => false,
    }
}

fn has_name_bytes(name: &[u8]) -> bool
    ensures { result ≡ list_all is_name_byte name.now }
{
    name.iter().all(|b| is_name_byte(*b))
}

fn is_name_byte(byte: u8) -> bool
    ensures { result ≡ is_name_byte byte }
{
    byte.is_ascii_alphanumeric() || byte == b'_'
}

const RESERVED: [&str; 16] = [
    "qreg", "creg", "gate", "opaque", "barrier", "measure", "reset", "if", "include", "pi", "sin",
    "cos", "tan", "exp", "ln", "sqrt",
];

fn is_reserved(name: &[u8]) -> bool
    ensures { result ≡ list_any (λ word. bytes_eq word name.now) reserved_words }
{
    is_among(&RESERVED, name)
}

/// Whether a text is one of some words.
pub fn is_among(words: &[&str], text: &[u8]) -> bool
    ensures { result ≡ list_any (λ word. bytes_eq word.now text.now) words.now }
{
    words.iter().any(|word| word.as_bytes() == text)
}
