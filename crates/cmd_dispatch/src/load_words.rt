//! The words of a load.
ghost use Rattle.std.specs.Prelude.{◌≡◌, ℕ, ◌<◌, ◌≤◌, IfSome, MatchOption};
ghost use Rattle.cmd_dispatch.specs.LoadWords.{IsLoadSize, AreLoad};

use crate::words::read_size;
use cmd_session::is_word;

/// The most rows of a load.
const MOST_ROWS: u64 = 100_000;

// The number of rows that a text is.
fn read_load_size(text: &str) -> Option<u32>
    ensures { MatchOption result ((n : ℕ) → IsLoadSize text.now n → ⊥) (λ n. IsLoadSize text.now n) }
{
    match read_size(text, MOST_ROWS) {
        Some(rows) => Some(rows as u32),
        None => None,
    }
}

/// Returns how many rows a load has, where the words are `load N`; nothing for all other words.
pub fn load_rows(words: &[String]) -> Option<u32>
    ensures rows { MatchOption result ((n : ℕ) → AreLoad words.now n → ⊥) (λ n. AreLoad words.now n) }
    ensures within { IfSome result (λ n. (0 < n) × (n ≤ 100000)) }
{
    rows_of(words)
}

// The number of rows that the words ask for.
fn rows_of(words: &[String]) -> Option<u32>
    ensures { MatchOption result ((n : ℕ) → AreLoad words.now n → ⊥) (λ n. AreLoad words.now n) }
{
    match words {
        [load, number] => {
            if is_word(load, "load") {
                read_load_size(number.as_str())
            } else {
                None
            }
        }
        _ => None,
    }
}
