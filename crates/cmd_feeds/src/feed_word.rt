//! A word that names a feed behind a script.
ghost use Rattle.std.specs.Prelude.{◌≡◌, ◌<◌, false, true, if◌then◌else◌, MatchOption};
ghost use Rattle.std.specs.List.{before_first, after_first, list_all};
ghost use Rattle.sql_text.specs.Name.{is_name};
ghost use Rattle.cmd_feeds.specs.FeedWord.{is_at, says_streams, names_in, file_in, is_feed_word};
ghost use Rattle.cmd_feeds.specs.FeedWord as words;

use sql_text::{Name, cut};

// Whether a text has a `/`.
fn has_slash(text: &str) -> bool
    ensures { result ≡ words.has_slash text.now }
{
    text.as_bytes().iter().any(|b| *b == b'/')
}

/// Returns what a word says before its first `@` and behind it, where that says streams.
pub fn streams_and_file(word: &str) -> Option<(&str, &str)>
    ensures { MatchOption result (says_streams word.now ≡ false) (λ parts. (says_streams word.now ≡ true) × (parts.0.now ≡ before_first is_at word.now) × (parts.1.now ≡ after_first is_at word.now)) }
{
    match word.split_once('@') {
        None => None,
        Some(parts) => {
            if has_slash(parts.0) {
                None
            } else {
                Some(parts)
            }
        }
    }
}

// Whether each piece of a text, cut at its commas, is a name.
fn are_names(text: &[u8]) -> bool
    ensures { result ≡ list_all is_name (words.pieces text.now) }
{
    let (name, behind) = cut(text, b',');
    if Name::read(name).is_none() {
        return false;
    }
    match behind {
        Some(rest) => are_names(rest),
        None => true,
    }
}

/// Returns whether a word names a feed behind a script: names of streams with commas between, `@` and a file; or a file alone, where the word
/// has no `@`, or a `/` before it.
pub fn is_feed_word(word: &str) -> bool
    ensures { result ≡ is_feed_word word.now }
{
    match streams_and_file(word) {
        None => true,
        Some(parts) => are_names(parts.0.as_bytes()) && !parts.1.is_empty(),
    }
}

/// Returns the name of the file in a word that names a feed. Behind a script the names of streams and `@` may stand before it.
pub fn file_in(word: &str, behind_script: bool) -> &str
    ensures { result.now ≡ (if behind_script then file_in word.now else word.now) }
{
    if !behind_script {
        return word;
    }
    match streams_and_file(word) {
        None => word,
        Some(parts) => parts.1,
    }
}
