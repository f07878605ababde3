//! What is found for a line, in an open session and in one that is locked.
ghost use Rattle.std.specs.Prelude.{◌≡◌, ◌≤◌, length, IfOk};
ghost use Rattle.std.specs.List.{list_any};
ghost use Rattle.std.specs.Str.{bytes_eq};
ghost use Rattle.sql_parser.specs.declared.tree.Statement.TheVariants.{Unlock};
ghost use Rattle.adv_diagnosis.specs.Faults.{IsDiagnosis, IsTextDiagnosis, IsReady};
ghost use Rattle.adv_diagnosis.specs.Locked as locked;
ghost use Rattle.adv_diagnosis.specs.Locked.{HoldsIf, Unlocks, IsLockedDiagnosis};

use crate::fault::{Asks, Diagnosis, Fault, Known, Lock};
use crate::passing::found_of;
use crate::rows::diagnose_row;
use crate::statements::diagnose_statement;
use adv_hints::next_at;
use sql_parser::{LineKind, ParseError, Statement, classify, may_unlock, parse};
use sql_text::{Name, split_word};

/// The most bytes of a line.
const MOST_BYTES: usize = 1024;

// What is found for a text that is read as a statement.
fn diagnose_text(text: &[u8], known: &Known<'_>) -> Diagnosis
    requires { length text.now ≤ 1024 }
    ensures found { IsTextDiagnosis known.now.catalog.now known.now.live.now text.now result }
    ensures ready { IfOk result (IsReady known.now.catalog.now) }
{
    match parse(text) {
        Ok(statement) => diagnose_statement(statement, known),
        Err(ParseError::Syntax { at }) => Err(Fault::Syntax {
            at,
            next: next_at(text, at),
        }),
        Err(ParseError::Limit { what }) => Err(Fault::Limit {
            what,
            found: found_of(what, text),
        }),
    }
}

/// Returns what a line asks for over the streams and the live queries, or what is wrong with it. The word of a fault is the one by
/// which an open session with these streams and live queries refuses the line, and what the fault says is so: it is the first cause. A
/// row is looked at for its form alone.
pub fn diagnose(line: &[u8], known: &Known<'_>) -> Diagnosis
    ensures found { IsDiagnosis known.now.catalog.now known.now.live.now line.now result }
    ensures ready { IfOk result (IsReady known.now.catalog.now) }
{
    if MOST_BYTES < line.len() {
        return Err(Fault::LineTooLong);
    }
    let (kind, text) = classify(line);
    match kind {
        LineKind::Nothing => Ok(Asks::Nothing),
        LineKind::RowLine => diagnose_row(text, known.catalog),
        LineKind::StatementLine => diagnose_text(text, known),
    }
}

// Whether a word is one of these names.
fn is_among(names: &[Name], word: &[u8]) -> bool
    ensures { result ≡ list_any (λ n. bytes_eq n word.now) names.now }
{
    names.iter().any(|name| *name.bytes() == *word)
}

// Whether rows are let that begin with a word, by the names of the streams of which they are, or none for all streams.
fn lets_row(names: &[Name], word: &[u8]) -> bool
    ensures { result ≡ locked.lets_row names.now word.now }
{
    names.is_empty() || is_among(names, word)
}

// Whether a statement unlocks by this key.
#[tactic(auto, using(crate::proofs::LockedLines::unlock_is))]
fn is_unlock(statement: &Statement, key: &i64) -> bool
    ensures { HoldsIf result (statement.now ≡ Unlock key.now) }
{
    match statement {
        Statement::Unlock { key: own } => *own == *key,
        _ => false,
    }
}

// Whether a text unlocks by the key of a lock, where it has one.
fn unlocks(text: &[u8], key: &Option<i64>) -> bool
    requires { length text.now ≤ 1024 }
    ensures { HoldsIf result (Unlocks key.now text.now) }
{
    let Some(key) = key else {
        return false;
    };
    if !may_unlock(text) {
        return false;
    }
    match parse(text) {
        Ok(statement) => is_unlock(&statement, key),
        Err(_) => false,
    }
}

/// Returns what a line asks for in a session that is locked, or what is wrong with it. The word of a fault is the one by which such a
/// session refuses the line, and what the fault says is so. A row that is let is looked at for its form alone.
pub fn diagnose_locked(line: &[u8], known: &Known<'_>, lock: &Lock<'_>) -> Diagnosis
    ensures found { IsLockedDiagnosis known.now.catalog.now known.now.live.now lock.now.line lock.now.key lock.now.streams.now line.now result }
    ensures ready { IfOk result (IsReady known.now.catalog.now) }
{
    if MOST_BYTES < line.len() {
        return Err(Fault::LineTooLong);
    }
    let (kind, text) = classify(line);
    match kind {
        LineKind::Nothing => Ok(Asks::Nothing),
        LineKind::RowLine => {
            if lets_row(lock.streams, split_word(text).0) {
                diagnose_row(text, known.catalog)
            } else {
                Err(Fault::Locked { line: lock.line })
            }
        }
        LineKind::StatementLine => {
            if unlocks(text, &lock.key) {
                Ok(Asks::Unlock)
            } else {
                Err(Fault::Locked { line: lock.line })
            }
        }
    }
}
