//! The words that say how many rows a session may take.
ghost use Rattle.std.specs.Prelude.{◌≡◌, ℕ, ◌<◌, ◌^◌, MatchOption, decimal};
ghost use Rattle.std.specs.Str.{bytes_eq};
ghost use Rattle.std.specs.String.{string_bytes};
ghost use Rattle.cmd_session.specs.Words.{IsRowLimit};

use crate::session::Session;
use itoa::Buffer;

/// The most rows that a session may take.
const MOST_ROWS: u64 = Session::MOST_ROWS;

/// Returns the number that a text is in its shortest form.
pub fn read_number(text: &str) -> Option<u64>
    ensures { MatchOption result ((n : ℕ) → n < 2 ^ 64 → text.now ≡ decimal n → ⊥) (λ n. text.now ≡ decimal n) }
{
    match text.parse::<u64>() {
        Err(_) => None,
        Ok(number) => {
            let mut buffer = Buffer::new();
            if buffer.format(number).as_bytes() == text.as_bytes() {
                Some(number)
            } else {
                None
            }
        }
    }
}

/// Returns the number of rows of a session that a text is: 1 to 2^40, in its shortest form.
pub fn read_row_limit(text: &str) -> Option<u64>
    ensures { MatchOption result ((n : ℕ) → IsRowLimit text.now n → ⊥) (λ n. IsRowLimit text.now n) }
{
    match read_number(text) {
        None => None,
        Some(number) => {
            if number == 0 {
                None
            } else if MOST_ROWS < number {
                None
            } else {
                Some(number)
            }
        }
    }
}

/// Returns whether the word is this text.
pub fn is_word(word: &String, text: &str) -> bool
    ensures { result ≡ bytes_eq (string_bytes word.now) text.now }
{
    word.as_str() == text
}
