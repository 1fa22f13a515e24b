//! Sets of small numbers, as words of 64 bits.

ghost use Rattle.std.specs.Prelude.{◌≡◌, ◌≢◌, ℕ, ◌*◌, ◌/◌, ◌<◌, ◌≤◌, ◌↔◌, true, length};
ghost use Rattle.std.specs.Int.{bit_at};
ghost use Rattle.pq_match.specs.Waiting.{HasNumber};

/// Puts a number into the set.
#[tactic(auto, using(crate::proofs::NumberSets::inserted_has, crate::proofs::NumberSets::inserted_others))]
pub fn insert(words: &mut [u64], number: usize)
    requires { number / 64 < length words.old }
    ensures has { HasNumber words.new number }
    ensures others { (other : ℕ) → other ≢ number → HasNumber words.new other ↔ HasNumber words.old other }
{
    words[number / 64] |= 1 << (number % 64);
}

/// Takes a number out of the set.
#[tactic(auto, using(crate::proofs::NumberSets::removed_not, crate::proofs::NumberSets::removed_others))]
pub fn remove(words: &mut [u64], number: usize)
    requires { number / 64 < length words.old }
    ensures gone { HasNumber words.new number → ⊥ }
    ensures others { (other : ℕ) → other ≢ number → HasNumber words.new other ↔ HasNumber words.old other }
{
    words[number / 64] &= !(1 << (number % 64));
}

/// The least number of the set from this word on, or the end of the words where there is none.
#[tactic(auto, using(crate::proofs::NumberSets::none_yet, crate::proofs::NumberSets::none_more))]
pub fn least_from(words: &[u64], word: usize) -> usize
    requires { length words.now ≤ 1024 }
    ensures has { result < 64 * length words.now → HasNumber words.now result }
    ensures least { (number : ℕ) → 64 * word ≤ number → number < result → HasNumber words.now number → ⊥ }
    ensures within { result ≤ 64 * length words.now }
{
    for index in word..words.len() {
        let bits = words[index];
        if bits != 0 {
            return index * 64 + lowest_bit(bits) as usize;
        }
    }
    words.len() * 64
}

/// The least bit that the word has.
#[tactic(auto, using(crate::proofs::NumberSets::lowest_bit_is))]
pub fn lowest_bit(word: u64) -> u32
    requires { 0 < word }
    ensures below { result < 64 }
    ensures has { bit_at word result ≡ 1 }
    ensures lowest { (bit : ℕ) → bit < result → bit_at word bit ≡ 0 }
{
    word.trailing_zeros()
}

/// The word without its bit.
#[tactic(auto, using(crate::proofs::WakingWords::cleared_less, crate::proofs::WakingWords::cleared_others))]
pub fn without(word: u64, bit: u32) -> u64
    requires below { bit < 64 }
    requires has { bit_at word bit ≡ 1 }
    ensures less { result < word }
    ensures others { (other : ℕ) → other < 64 → other ≢ bit → bit_at result other ≡ bit_at word other }
{
    word & !(1 << bit)
}

/// The word with a bit more, where that is wanted.
#[tactic(auto, using(crate::proofs::WakingWords::more_has, crate::proofs::WakingWords::more_keeps))]
pub fn with_if(wanted: bool, word: u64, bit: u32) -> u64
    requires { bit < 64 }
    ensures has { wanted ≡ true → bit_at result bit ≡ 1 }
    ensures kept { (other : ℕ) → bit_at word other ≡ 1 → bit_at result other ≡ 1 }
{
    if wanted { word | 1 << bit } else { word }
}
