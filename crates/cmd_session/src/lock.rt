//! The lock of a session: which lines are let. A lock takes no memory.
ghost use Rattle.std.specs.Prelude.{◌≡◌, ◌≤◌, ℤ, Some, None, true, false, length, IfSome};
ghost use Rattle.std.specs.Option.{option_map};
ghost use Rattle.cmd_session.specs.Lock as locks;
ghost use Rattle.cmd_session.specs.Lock.{IsUnlock, LetsText, Unlocks};
ghost use Rattle.cmd_session.specs.Requests as requests;

use io_row_reader::OpenStreams;
use sql_catalog::{Catalog, all_differ};
use sql_parser::{LineKind, PlainReading, PlainStatement, may_unlock, parse_plain};
use sql_replies::Refusal;
use sql_text::{Name, split_word};
use std::marker::Model;

/// What a locked session lets: the number that unlocks it, if one does, and the streams whose rows are taken.
#[derive(Drop)]
pub struct Lock {
    pub key: Option<i64>,
    pub opened: OpenStreams,
}

impl Model for Lock {
    ghost use Rattle.cmd_session.specs.Lock as locks;

    ghost Value = { locks.Lock };

    ghost view = { λ l. record { key = l.key; opened = l.opened } };
}

impl Lock {
    /// Returns the same lock.
    pub fn copied(&self) -> Lock
        ensures { result ≡ self.now }
    {
        Lock {
            key: self.key,
            opened: self.opened.copied(),
        }
    }

    /// Returns the lock that no number opens and that lets rows of these streams alone, where another lock lets them too.
    pub fn narrowed(lock: &Option<Lock>, opened: &OpenStreams) -> Lock
        ensures { result ≡ locks.narrowed lock.now opened.now }
    {
        Lock {
            key: None,
            opened: open_in(lock).meet(opened),
        }
    }
}

/// Returns the streams whose rows are let: where no lock stands, all.
pub fn open_in(lock: &Option<Lock>) -> OpenStreams
    ensures { result ≡ locks.open_in lock.now }
{
    match lock {
        None => OpenStreams::all(),
        Some(lock) => lock.opened.copied(),
    }
}

// Whether a row is let.
fn lets_row(opened: &OpenStreams, catalog: &Catalog, text: &[u8]) -> bool
    ensures { result ≡ locks.lets_row opened.now catalog.now text.now }
{
    if opened.are_all() {
        return true;
    }
    match catalog.find_bytes(split_word(text).0) {
        Some(stream) => opened.opens(stream),
        None => false,
    }
}

// The number that a text unlocks, where it is an UNLOCK within the limits.
fn number_unlocked(text: &[u8]) -> Option<i64>
    requires { length text.now ≤ 1024 }
    ensures unlocks { IfSome result (λ key. IsUnlock text.now key) }
    ensures none { result ≡ None → (key : ℤ) → IsUnlock text.now key → ⊥ }
{
    if !may_unlock(text) {
        return None;
    }
    match parse_plain(text) {
        PlainReading::Plain(statement) => match statement {
            PlainStatement::Unlock { key } => Some(key),
            _ => None,
        },
        PlainReading::Listed => None,
        PlainReading::Refused(_) => None,
    }
}

// Whether a statement unlocks.
fn unlocks(key: Option<i64>, text: &[u8]) -> bool
    requires { length text.now ≤ 1024 }
    ensures yes { result ≡ true → Unlocks key text.now }
    ensures no { result ≡ false → Unlocks key text.now → ⊥ }
{
    if key.is_none() {
        return false;
    }
    number_unlocked(text) == key
}

/// Returns whether a line of a kind is let, by what is left of it.
pub(crate) fn is_let(lock: &Option<Lock>, catalog: &Catalog, kind: LineKind, text: &[u8]) -> bool
    requires { length text.now ≤ 1024 }
    ensures yes { result ≡ true → LetsText lock.now catalog.now kind text.now }
    ensures no { result ≡ false → LetsText lock.now catalog.now kind text.now → ⊥ }
{
    match lock {
        None => true,
        Some(lock) => match kind {
            LineKind::Nothing => true,
            LineKind::RowLine => lets_row(&lock.opened, catalog, text),
            LineKind::StatementLine => unlocks(lock.key, text),
        },
    }
}

// The numbers of the streams of these names, where each is the name of one.
fn numbers_of(catalog: &Catalog, names: &[Name]) -> Option<OpenStreams>
    requires { length names.now ≤ 16 }
    ensures { result ≡ option_map Some (requests.numbers_of catalog.now names.now) }
{
    let mut opened = OpenStreams::none();
    for name in names {
        match catalog.find(name) {
            Some(stream) => opened.add(stream),
            None => return None,
        }
    }
    Some(opened)
}

/// Returns the streams that LOCK leaves open, which are all where it names none; or the first word that refuses the line.
pub(crate) fn opened_by(catalog: &Catalog, names: &[Name]) -> Result<OpenStreams, Refusal>
    requires { length names.now ≤ 16 }
    ensures { requests.opened_by catalog.now names.now ≡ result }
{
    if names.is_empty() {
        return Ok(OpenStreams::all());
    }
    if !all_differ(names) {
        return Err(Refusal::Duplicate);
    }
    match numbers_of(catalog, names) {
        Some(opened) => Ok(opened),
        None => Err(Refusal::UnknownStream),
    }
}
