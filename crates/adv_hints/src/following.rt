//! What may stand where a statement leaves the grammar.
//!
//! Each candidate is tried: it may stand there where the bytes before the place, and behind them the candidate, are not outside the
//! grammar before their end. So nothing is said here of the grammar itself.
ghost use Rattle.std.specs.Prelude.{◌≡◌, ◌≤◌, ◌<◌, ◌+◌, ◌∷◌, ◌++◌, [], if◌then◌else◌, length, take, drop};
ghost use Rattle.adv_hints.specs.Candidates as specs;
ghost use Rattle.adv_hints.specs.Candidates.{GoesOnIf, MayStand, AreNext};
ghost use Rattle.adv_hints.specs.declared.candidates.TheConstants.{ALL as all};

use crate::candidates::{ALL, Candidate, Continuations, sample_of};
use arrayvec::ArrayVec;
use sql_parser::{ParseError, parse};

/// The most bytes of a line.
const MOST_BYTES: usize = 1024;

/// Returns the bytes of a text before a place, or all of it.
pub fn front_of(text: &[u8], at: u16) -> &[u8]
    ensures front { result.now ≡ take at text.now }
    ensures short { length result.now ≤ length text.now }
{
    text.split_at(usize::from(at).min(text.len())).0
}

/// Returns the bytes of a text from a place on, or none.
pub fn rest_of(text: &[u8], at: u16) -> &[u8]
    ensures { result.now ≡ drop at text.now }
{
    text.split_at(usize::from(at).min(text.len())).1
}

// Adds bytes to a text that has room for them.
fn put_bytes(text: &mut ArrayVec<u8, 1039>, bytes: &[u8])
    requires { length text.old.items + length bytes.now ≤ 1039 }
    ensures { text.new.items ≡ text.old.items ++ bytes.now }
{
    match text.try_extend_from_slice(bytes) {
        Ok(()) => {}
        Err(_) => unreachable!(),
    }
}

// A front of a statement, and behind a space the text of a candidate.
fn tried(front: &[u8], candidate: Candidate) -> ArrayVec<u8, 1039>
    requires { length front.now ≤ 1024 }
    ensures { result.items ≡ specs.tried front.now candidate }
{
    let mut text = ArrayVec::new();
    put_bytes(&mut text, front);
    text.push(b' ');
    put_bytes(&mut text, sample_of(candidate));
    text
}

// Whether a text is a statement, or leaves the grammar at its end alone.
fn goes_on(text: &[u8]) -> bool
    requires { length text.now ≤ 1024 }
    ensures { GoesOnIf result text.now }
{
    match parse(text) {
        Ok(_) => true,
        Err(ParseError::Syntax { at }) => usize::from(at) == text.len(),
        Err(ParseError::Limit { .. }) => true,
    }
}

// Whether a candidate may stand behind a front of a statement.
fn may_stand(front: &[u8], candidate: Candidate) -> bool
    requires { length front.now ≤ 1024 }
    ensures { MayStand result front.now candidate }
{
    let text = tried(front, candidate);
    if MOST_BYTES < text.len() {
        return false;
    }
    goes_on(text.as_slice())
}

// Adds a candidate where it may stand there.
fn put_where(stands: bool, next: &mut ArrayVec<Candidate, 29>, candidate: Candidate)
    requires { length next.old.items < 29 }
    ensures items { next.new.items ≡ (if stands then next.old.items ++ candidate ∷ [] else next.old.items) }
    ensures short { length next.new.items ≤ length next.old.items + 1 }
{
    if stands {
        next.push(candidate);
    }
}

/// Returns the candidates that may stand behind the bytes of a text before a place, in their order.
pub fn next_at(text: &[u8], at: u16) -> Continuations
    requires { length text.now ≤ 1024 }
    ensures { AreNext (take at text.now) all result.items }
{
    let front = front_of(text, at);
    let mut next = ArrayVec::new();
    for candidate in &ALL {
        put_where(may_stand(front, *candidate), &mut next, *candidate);
    }
    next
}
