//! Words with a bit for each query.
ghost use Rattle.std.specs.Prelude.{◌≡◌, ◌≢◌, ℕ, ◌<◌, ◌≤◌, length, true, false};
ghost use Rattle.std.specs.Int.{bit_at};
ghost use Rattle.exec_query_index.specs.Buckets.{AreNamed};

use crate::boxes::QueryBox;

/// Returns the word with a bit set.
pub fn with_bit(word: u64, bit: usize) -> u64
    requires { bit < 64 }
    ensures own { bit_at result bit ≡ 1 }
    ensures others { (i : ℕ) → i ≢ bit → bit_at result i ≡ bit_at word i }
{
    word | (1 << bit)
}

/// Returns whether a bit of a word is set.
pub fn has_bit(word: u64, bit: usize) -> bool
    requires { bit < 64 }
    ensures set { result ≡ true → bit_at word bit ≡ 1 }
    ensures clear { result ≡ false → bit_at word bit ≡ 0 }
{
    (word >> bit) & 1 == 1
}

/// Returns the word with a bit cleared.
pub fn without_bit(word: u64, bit: usize) -> u64
    requires { bit < 64 }
    ensures own { bit_at result bit ≡ 0 }
    ensures others { (i : ℕ) → i < 64 → i ≢ bit → bit_at result i ≡ bit_at word i }
{
    word & !(1 << bit)
}

/// Returns the place of the lowest bit of a word that has one.
pub fn lowest_bit(word: u64) -> usize
    requires { 0 < word }
    ensures few { result < 64 }
    ensures own { bit_at word result ≡ 1 }
    ensures below { (i : ℕ) → i < result → bit_at word i ≡ 0 }
{
    word.trailing_zeros() as usize
}

/// Returns the word with a bit for each box.
pub fn named_of(boxes: &[Option<QueryBox>]) -> u64
    requires { length boxes.now ≤ 64 }
    ensures { AreNamed boxes.now result }
{
    let mut word = 0;
    for k in 0..boxes.len() {
        if boxes[k].is_some() {
            word = with_bit(word, k);
        }
    }
    word
}
