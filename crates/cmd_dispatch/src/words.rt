//! The words of a session.
ghost use Rattle.std.specs.Prelude.{◌≡◌, ◌↔◌, ℕ, ◌<◌, ◌≤◌, ◌^◌, Bool, IsTrue, IfSome, MatchOption, List, None, false, [], ◌∷◌, map};
ghost use Rattle.std.specs.String.{string_bytes};
ghost use Rattle.cmd_dispatch.specs.declared.words.RunForm.{RunForm};
ghost use Rattle.cmd_dispatch.specs.Words.{IsFileName, IsSize, AreLast, AreOptions, AreRun, rows_or_most};
ghost use Rattle.cmd_dispatch.specs.FrontWords.{StartsWithLimit};

use cmd_session::{Session, is_word, read_number, read_row_limit};

/// The most rows that a session may take.
const MOST_ROWS: u64 = Session::MOST_ROWS;

/// What the words ask of a session.
#[derive(Clone, Copy, Debug, PartialEq, Eq)]
pub struct RunForm {
    /// How many rows the session may take: 1 to 2^40.
    pub limit: u64,
    /// Whether each line is answered by one line.
    pub each: bool,
    /// Whether the last word names a file, of which the lines come before those of the input.
    pub file: bool,
}

/// Returns whether the words are this one alone.
pub fn is_alone(words: &[String], text: &str) -> bool
    ensures { IsTrue result ↔ map string_bytes words.now ≡ text.now ∷ [] }
{
    match words {
        [word] => is_word(word, text),
        _ => false,
    }
}

/// Returns the words behind the first one, where that is this text.
pub fn words_behind<'a>(words: &'a [String], text: &str) -> Option<&'a [String]>
    ensures { MatchOption result ((others : List (List ℕ)) → map string_bytes words.now ≡ text.now ∷ others → ⊥)
        (λ others. map string_bytes words.now ≡ text.now ∷ map string_bytes others.now) }
{
    match words {
        [first, others @ ..] => {
            if is_word(first, text) {
                Some(others)
            } else {
                None
            }
        }
        _ => None,
    }
}

// Whether a text is a name of a file.
fn is_file_name(text: &[u8]) -> bool
    ensures { IsTrue result ↔ IsFileName text.now }
{
    match text {
        [first, ..] => *first != b'-',
        _ => false,
    }
}

/// Returns whether the last words name a file; nothing where there are several, or the only one is no name of a file.
pub fn last_words(words: &[String]) -> Option<bool>
    ensures { MatchOption result ((file : Bool) → AreLast (map string_bytes words.now) file → ⊥) (λ file. AreLast (map string_bytes words.now) file) }
{
    match words {
        [] => Some(false),
        [name] => {
            if is_file_name(name.as_bytes()) {
                Some(true)
            } else {
                None
            }
        }
        _ => None,
    }
}

/// Returns the number from 1 to this bound that a text is, in its shortest form.
pub fn read_size(text: &str, most: u64) -> Option<u64>
    ensures size { MatchOption result ((n : ℕ) → IsSize most text.now n → ⊥) (λ n. IsSize most text.now n) }
    ensures few { IfSome result (λ n. n ≤ most) }
{
    match read_number(text) {
        None => None,
        Some(number) => {
            if number == 0 {
                None
            } else if most < number {
                None
            } else {
                Some(number)
            }
        }
    }
}

// The number of rows that the first word is.
fn first_limit(words: &[String]) -> Option<u64>
    ensures { MatchOption result ((n : ℕ) → StartsWithLimit (map string_bytes words.now) n → ⊥) (λ n. StartsWithLimit (map string_bytes words.now) n) }
{
    match words {
        [number, ..] => read_row_limit(number.as_str()),
        _ => None,
    }
}

// How many rows a session may take of which the words say so, or say nothing.
fn rows_or_most(limit: Option<u64>) -> u64
    ensures { result ≡ rows_or_most limit }
{
    match limit {
        Some(limit) => limit,
        None => MOST_ROWS,
    }
}

// What the words behind `run` ask for, where these options came before them.
fn options(words: &[String], limit: Option<u64>, each: bool) -> Option<RunForm>
    ensures { MatchOption result ((form : RunForm) → AreOptions (map string_bytes words.now) limit each form → ⊥) (λ form. AreOptions (map string_bytes words.now) limit each form) }
{
    if let Some(others) = words_behind(words, "--each") {
        return if each {
            None
        } else {
            options(others, limit, true)
        };
    }
    if let Some(others) = words_behind(words, "--rows") {
        return match limit {
            Some(_) => None,
            None => match first_limit(others) {
                Some(number) => options(&others[1..], Some(number), each),
                None => None,
            },
        };
    }
    match last_words(words) {
        Some(file) => Some(RunForm {
            limit: rows_or_most(limit),
            each,
            file,
        }),
        None => None,
    }
}

/// Returns what the words ask of a session, where they are `run [--rows N] [--each] [FILE]`, with the options in any order; nothing for all
/// other words.
pub fn run_form(words: &[String]) -> Option<RunForm>
    ensures form { MatchOption result ((form : RunForm) → AreRun words.now form → ⊥) (λ form. AreRun words.now form) }
    ensures within { IfSome result (λ form. (0 < form.limit) × (form.limit ≤ 2 ^ 40)) }
{
    form_of(words)
}

// What the words ask of a session.
fn form_of(words: &[String]) -> Option<RunForm>
    ensures { MatchOption result ((form : RunForm) → AreRun words.now form → ⊥) (λ form. AreRun words.now form) }
{
    match words_behind(words, "run") {
        Some(others) => options(others, None, false),
        None => None,
    }
}
