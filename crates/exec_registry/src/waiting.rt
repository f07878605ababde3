//! The live queries of which answers may wait, as bits of a word.
ghost use Rattle.std.specs.Prelude.{◌≡◌, ◌≢◌, ℕ, ◌<◌, true, false};
ghost use Rattle.std.specs.Int.{bit_at};

use exec_query_index::with_bit;

/// Returns the word with the bit of a place where an answer may wait there.
pub fn noted(word: u64, place: usize, waits: bool) -> u64
    requires { place < 64 }
    ensures own { waits ≡ true → bit_at result place ≡ 1 }
    ensures none { waits ≡ false → result ≡ word }
    ensures others { (i : ℕ) → i ≢ place → bit_at result i ≡ bit_at word i }
{
    if waits { with_bit(word, place) } else { word }
}
