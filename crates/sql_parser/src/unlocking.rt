//! Texts that may unlock, told by their first word.
ghost use Rattle.std.specs.Prelude.{◌≡◌, ℤ, false};
ghost use Rattle.sql_parser.specs.Syntax.{IsStatement};
ghost use Rattle.sql_parser.specs.Unlocking as unlocking;
ghost use Rattle.sql_parser.specs.declared.tree.Statement.TheVariants.{Unlock};

use crate::transitions::is_unlock;
use sql_text::{split_word, trim_start};

// The word behind the blanks at the front of a text.
fn first_word(text: &[u8]) -> &[u8]
    ensures { result.now ≡ unlocking.first_word text.now }
{
    split_word(trim_start(text)).0
}

/// Returns whether the first word of a text is UNLOCK, in any case of letters. Any other text is no statement that unlocks.
pub fn may_unlock(text: &[u8]) -> bool
    ensures is { result ≡ unlocking.may_unlock text.now }
    ensures never { result ≡ false → (k : ℤ) → IsStatement text.now (Unlock k) → ⊥ }
{
    is_unlock(first_word(text))
}
