ghost use Rattle.std.specs.Prelude.{◌≡◌, ◌≤◌, length, List, ℕ};
ghost use Rattle.pq_lex.specs.Added.{ChangesLater};
ghost use Rattle.pq_lex.specs.Ends.{IsEnded, EndsForGood};
ghost use Rattle.pq_lex.specs.declared.ends.Mode.TheVariants.{Code};
ghost use Rattle.pq_lex.specs.Lex.{Position, tokens};
ghost use Rattle.pq_lex.specs.Grammar.{BeginsLongest};
ghost use Rattle.pq_lex.specs.declared.token.Form.{Form};
ghost use Rattle.pq_lex.specs.Token.{number_of};

/// A form is known by its number.
pub fn forms_have_numbers()
    ensures { (f g : Form) → number_of f ≡ number_of g → f ≡ g }
{}

/// A text always has a token, if only the missing one at its end.
pub fn texts_have_tokens()
    ensures { (p : Position) → 1 ≤ length (tokens p) }
{}

/// Bytes that are added at the end of a text change only what stands after: what is skipped at the start, if
/// a byte follows it, and the token at the start, if it isn't malformed and three bytes follow it, stay.
pub fn added_bytes_change_what_follows()
    ensures { (p : Position) (more : List ℕ) → ChangesLater p more }
{}

/// What follows a text that ends with a `;` among its tokens adds tokens, from where the text ends, and changes
/// none.
pub fn texts_end_for_good()
    ensures { (p : Position) → 1 ≤ p.column → IsEnded Code p.rest → EndsForGood p }
{}

/// Where nothing is to be skipped, the first token is the longest prefix of the text that has the form of a word, a
/// number, a quoted text or a mark.
pub fn tokens_are_longest()
    ensures { (p : Position) → BeginsLongest p }
{}
