//! The words that ask for a family.
ghost use Rattle.std.specs.Prelude.{◌≡◌, ℕ, ◌<◌, ◌≤◌, IfSome, MatchOption};
ghost use Rattle.cmd_lower.specs.declared.form.LowerForm.{LowerForm};
ghost use Rattle.cmd_dispatch.specs.LowerWords.{IsFamilySize, AreLower};

use crate::words::read_size;
use cmd_lower::{Families, LowerForm};
use cmd_session::is_word;

/// The most rows of a family.
const MOST_ROWS: u64 = 1000;

// What is asked for with a text as the number of rows.
fn form_with(text: &str, families: Families) -> Option<LowerForm>
    ensures { MatchOption result ((n : ℕ) → IsFamilySize text.now n → ⊥) (λ form. IsFamilySize text.now form.rows × (form.families ≡ families)) }
{
    match read_size(text, MOST_ROWS) {
        Some(rows) => Some(LowerForm {
            rows: rows as u16,
            families,
        }),
        None => None,
    }
}

// What the words ask for.
fn form_of(words: &[String]) -> Option<LowerForm>
    ensures { MatchOption result ((form : LowerForm) → AreLower words.now form → ⊥) (λ form. AreLower words.now form) }
{
    match words {
        [lower, number] => {
            if is_word(lower, "lower") {
                form_with(number.as_str(), Families::FirstTwo)
            } else {
                None
            }
        }
        [lower, option, number] => {
            if is_word(lower, "lower") && is_word(option, "--c3") {
                form_with(number.as_str(), Families::All)
            } else {
                None
            }
        }
        _ => None,
    }
}

/// Returns what family is asked for, where the words are `lower N` or `lower --c3 N`; nothing for all other words.
pub fn lower_form(words: &[String]) -> Option<LowerForm>
    ensures form { MatchOption result ((form : LowerForm) → AreLower words.now form → ⊥) (λ form. AreLower words.now form) }
    ensures within { IfSome result (λ form. (0 < form.rows) × (form.rows ≤ 1000)) }
{
    form_of(words)
}
