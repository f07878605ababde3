//! The words of a session over feeds.
ghost use Rattle.std.specs.Prelude.{◌≡◌, ◌∷◌, ℕ, ◌+◌, ◌-◌, ◌<◌, ◌≤◌, ◌^◌, List, Option, MatchBool, MatchOption, IfSome, None, Some, codes, drop, length, map};
ghost use Rattle.std.specs.List.{list_all};
ghost use Rattle.std.specs.String.{string_bytes};
ghost use Rattle.cmd_feeds.specs.FeedWord as feed_words;
ghost use Rattle.cmd_feeds.specs.Words.{AreFeedNames, AreFound, IsRead, IsReadBehind, IsRowsOption, IsScriptOption, NamesRead, are_feed_words, found_sources, is_script_name, one_on, word_at};
ghost use Rattle.cmd_feeds.specs.declared.words.RowsOption.TheVariants as rows;
ghost use Rattle.cmd_feeds.specs.declared.words.ScriptOption.TheVariants as scripts;

use crate::feed_word::is_feed_word;
use cmd_session::{Session, is_word, read_row_limit};

/// What the words of a session over feeds ask for.
#[derive(Clone, Copy, Debug, PartialEq, Eq)]
pub struct FeedWords {
    /// How many rows the session may take: 1 to 2^40.
    pub limit: u64,
    /// The place of the script's name among the words, from 0, where they name one.
    pub script: Option<usize>,
    /// The place of the first word for a feed, from 0.
    pub first: usize,
    /// How many words for feeds there are: 2 to 8.
    pub count: usize,
}

impl FeedWords {
    /// Returns how many sources belong to them: one for each feed, and one for the script.
    pub fn sources(&self) -> usize
        requires { self.now.count ≤ 8 }
        ensures { result ≡ found_sources self.now }
    {
        match self.script {
            None => self.count,
            Some(_) => self.count + 1,
        }
    }
}

// Whether the option of a row limit comes first, and what it says.
#[derive(Clone, Copy)]
enum RowsOption {
    Absent,
    Wrong,
    Given(u64),
}

// Whether the option of a script comes first, and whether the name of one stands behind it.
#[derive(Clone, Copy)]
enum ScriptOption {
    Absent,
    Wrong,
    Given,
}

// What the options among the words behind `feeds` say, with places among these.
#[derive(Clone, Copy)]
struct Options {
    limit: u64,
    script: Option<usize>,
    first: usize,
}

// Whether a word may be the name of a script.
fn is_script_name(word: &str) -> bool
    ensures { result ≡ is_script_name word.now }
{
    match word.as_bytes() {
        [first, ..] => *first != b'-',
        _ => false,
    }
}

// Reads the option of a row limit, where it comes first.
fn rows_option(words: &[String]) -> RowsOption
    ensures { IsRowsOption result (map string_bytes words.now) }
{
    match words {
        [option, number, ..] => {
            if !is_word(option, "--rows") {
                RowsOption::Absent
            } else {
                match read_row_limit(number.as_str()) {
                    Some(limit) => RowsOption::Given(limit),
                    None => RowsOption::Wrong,
                }
            }
        }
        [option] => {
            if is_word(option, "--rows") {
                RowsOption::Wrong
            } else {
                RowsOption::Absent
            }
        }
        [] => RowsOption::Absent,
    }
}

// Reads the option of a script, where it comes first.
fn script_option(words: &[String]) -> ScriptOption
    ensures { IsScriptOption result (map string_bytes words.now) }
{
    match words {
        [option, file, ..] => {
            if !is_word(option, "--script") {
                ScriptOption::Absent
            } else if is_script_name(file.as_str()) {
                ScriptOption::Given
            } else {
                ScriptOption::Wrong
            }
        }
        [option] => {
            if is_word(option, "--script") {
                ScriptOption::Wrong
            } else {
                ScriptOption::Absent
            }
        }
        [] => ScriptOption::Absent,
    }
}

// Reads the option of a script, where it comes behind that of a row limit.
fn script_behind(words: &[String], limit: u64) -> Option<Options>
    requires rows { IsRowsOption (rows.Given limit) (map string_bytes words.now) }
    requires some { 0 < limit }
    requires few { limit ≤ 2 ^ 40 }
    ensures { IsRead result (map string_bytes words.now) }
{
    match script_option(&words[2..]) {
        ScriptOption::Absent => Some(Options {
            limit,
            script: None,
            first: 2,
        }),
        ScriptOption::Wrong => None,
        ScriptOption::Given => Some(Options {
            limit,
            script: Some(3),
            first: 4,
        }),
    }
}

// Reads the option of a row limit, where it comes behind that of a script.
fn rows_behind(words: &[String]) -> Option<Options>
    requires script { IsScriptOption scripts.Given (map string_bytes words.now) }
    ensures { IsRead result (map string_bytes words.now) }
{
    match rows_option(&words[2..]) {
        RowsOption::Absent => Some(Options {
            limit: Session::MOST_ROWS,
            script: Some(1),
            first: 2,
        }),
        RowsOption::Wrong => None,
        RowsOption::Given(limit) => Some(Options {
            limit,
            script: Some(1),
            first: 4,
        }),
    }
}

// Reads the options among the words behind `feeds`.
fn options_of(words: &[String]) -> Option<Options>
    ensures { IsRead result (map string_bytes words.now) }
{
    match rows_option(words) {
        RowsOption::Wrong => None,
        RowsOption::Given(limit) => script_behind(words, limit),
        RowsOption::Absent => match script_option(words) {
            ScriptOption::Wrong => None,
            ScriptOption::Given => rows_behind(words),
            ScriptOption::Absent => Some(Options {
                limit: Session::MOST_ROWS,
                script: None,
                first: 0,
            }),
        },
    }
}

// Whether each of these words names a feed behind a script.
fn are_all_feed_words(words: &[String]) -> bool
    ensures { result ≡ list_all feed_words.is_feed_word (map string_bytes words.now) }
{
    match words {
        [word, others @ ..] => {
            if !is_feed_word(word.as_str()) {
                return false;
            }
            are_all_feed_words(others)
        }
        [] => true,
    }
}

// Whether the words may name feeds, behind a script or without one.
fn are_feed_words(script: Option<usize>, words: &[String]) -> bool
    ensures { (texts : List (List ℕ)) → result ≡ are_feed_words (word_at texts script) (map string_bytes words.now) }
{
    match script {
        None => true,
        Some(_) => are_all_feed_words(words),
    }
}

// The place one further on.
fn one_on(place: Option<usize>) -> Option<usize>
    requires { IfSome place (λ n. n < 8) }
    ensures { result ≡ one_on place }
{
    match place {
        None => None,
        Some(n) => Some(n + 1),
    }
}

// Reads the words for feeds behind the options, where there are 2 to 8 and each may name one.
fn names_behind(words: &[String], options: Options) -> Option<FeedWords>
    requires { IsRead (Some options) (map string_bytes words.now) }
    ensures { NamesRead result options (map string_bytes words.now) }
{
    let names = words.split_at(options.first).1;
    if names.len() < 2 {
        return None;
    }
    if 8 < names.len() {
        return None;
    }
    if !are_feed_words(options.script, names) {
        return None;
    }
    Some(FeedWords {
        limit: options.limit,
        script: one_on(options.script),
        first: options.first + 1,
        count: names.len(),
    })
}

// Whether the first word is `feeds`.
fn asks_feeds(words: &[String]) -> bool
    ensures { MatchBool result ((others : List (List ℕ)) × (map string_bytes words.now ≡ codes "feeds" ∷ others)) ((others : List (List ℕ)) → map string_bytes words.now ≡ codes "feeds" ∷ others → ⊥) }
{
    match words {
        [first, ..] => is_word(first, "feeds"),
        [] => false,
    }
}

// Reads the words behind `feeds`.
fn read_behind(words: &[String]) -> Option<FeedWords>
    ensures { IsReadBehind result (map string_bytes words.now) }
{
    match options_of(words) {
        None => None,
        Some(options) => names_behind(words, options),
    }
}

/// Returns what the words ask for, where they are `feeds [--rows N] [--script FILE] W1 .. Wk`, the options in any order and each at most once, with 2
/// to 8 words for feeds; nothing for all other words. Without a script each word is the name of a file. Behind a script it is one too, or
/// names of streams with commas between, `@` and the name of a file; any other word with an `@`, and no `/` before it, is wrong.
pub fn feeds_of(words: &[String]) -> Option<FeedWords>
    ensures { MatchOption result ((limit : ℕ) → (script : Option (List ℕ)) → (names : List (List ℕ)) → AreFeedNames words.now limit script names → ⊥) (AreFound words.now) }
{
    if !asks_feeds(words) {
        return None;
    }
    read_behind(words.split_at(1).1)
}
