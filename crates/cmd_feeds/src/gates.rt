//! The locks under which feeds give their lines behind a script.
ghost use Rattle.std.specs.Prelude.{◌≡◌, ◌≤◌, ℕ, List, length, map, Some};
ghost use Rattle.std.specs.String.{string_bytes};
ghost use Rattle.cmd_session.specs.Lock as locks;
ghost use Rattle.cmd_session.specs.State.{State};
ghost use Rattle.cmd_session.specs.Session.{StandsFor};
ghost use Rattle.cmd_feeds.specs.Gates.{gate_of, gates_in, is_named, is_number, numbers_named, opened_by};
ghost use Rattle.cmd_feeds.specs.FeedWord.{names_in, pieces, streams_in};

use crate::feed_word::streams_and_file;
use arrayvec::ArrayVec;
use cmd_session::{Lock, OpenStreams, Session};
use sql_text::cut;

// Whether a stream was found, and has this number.
fn is_number(number: u8, found: Option<u8>) -> bool
    ensures { result ≡ is_number number found }
{
    match found {
        None => false,
        Some(other) => number == other,
    }
}

// Whether one of the names in a text, which is cut at its commas, is that of the stream of this number.
fn is_named(session: &Session, text: &[u8], number: u8) -> bool
    ensures { result ≡ is_named session.now.streams (pieces text.now) number }
{
    let (name, behind) = cut(text, b',');
    if is_number(number, session.stream_named(name)) {
        return true;
    }
    match behind {
        Some(rest) => is_named(session, rest, number),
        None => false,
    }
}

// The streams that have one of the names in a text.
fn opened_by_names(session: &Session, text: &[u8]) -> OpenStreams
    ensures { result ≡ Some (numbers_named session.now.streams (pieces text.now)) }
{
    let mut opened = OpenStreams::none();
    for number in 0..16 {
        if is_named(session, text, number) {
            opened.add(number);
        }
    }
    opened
}

// The streams that a word opens that names a feed.
fn opened_by(session: &Session, word: &str) -> OpenStreams
    ensures { result ≡ opened_by session.now.streams (streams_in word.now) }
{
    match streams_and_file(word) {
        None => OpenStreams::all(),
        Some(parts) => opened_by_names(session, parts.0.as_bytes()),
    }
}

// The lock of the feed that a word names, in a session with this lock.
fn gate_of(session: &Session, lock: &Option<Lock>, word: &str) -> Option<Lock>
    ensures { result ≡ gate_of lock.now session.now.streams word.now }
{
    Some(Lock::narrowed(lock, &opened_by(session, word)))
}

/// Returns the locks of the feeds that these words name, each by what it opens and what is open in the session. There are at most 8.
pub fn gates_in(session: &Session, words: &[String]) -> ArrayVec<Option<Lock>, 8>
    requires { length words.now ≤ 8 }
    ensures { (s : State) → StandsFor session.now s → result.items ≡ gates_in s (map string_bytes words.now) }
{
    let lock = session.lock();
    let mut gates = ArrayVec::new();
    for word in words {
        gates.push(gate_of(session, &lock, word.as_str()));
    }
    gates
}
