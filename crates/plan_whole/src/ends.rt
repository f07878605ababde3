//! Ranges that may be open, and what comparisons can tell apart in them.
ghost use Rattle.std.specs.Prelude.{◌≡◌, ◌≤ℤ◌, ◌+ℤ◌, pos, neg_ℤ};
ghost use Rattle.sem_whole.specs.Ranges.{moved, window, flipped, lesser, greater, later, sooner, cut};
ghost use Rattle.plan_whole.specs.Closed.{ends_of, IsSmall};
ghost use Rattle.plan_whole.specs.Asked.{joined};

use crate::closed::Ends;
use sem_query::Op;

// An end, moved by at most one.
fn moved(end: Option<i64>, by: i64) -> Option<i64>
    requires end { IsSmall end }
    requires low { neg_ℤ (pos 1) ≤ℤ by }
    requires high { by ≤ℤ pos 1 }
    ensures { result ≡ moved by end }
{
    match end {
        Some(end) => Some(end + by),
        None => None,
    }
}

/// Returns the values of the left side that a comparison can tell apart, where the right side has this range; of `=` all.
pub fn window(op: Op, other: Ends) -> Ends
    requires low { IsSmall other.lo }
    requires high { IsSmall other.hi }
    ensures { ends_of result ≡ window op (ends_of other) }
{
    match op {
        Op::Lt => Ends {
            lo: moved(other.lo, -1),
            hi: other.hi,
        },
        Op::Ge => Ends {
            lo: moved(other.lo, -1),
            hi: other.hi,
        },
        Op::Le => Ends {
            lo: other.lo,
            hi: moved(other.hi, 1),
        },
        Op::Gt => Ends {
            lo: other.lo,
            hi: moved(other.hi, 1),
        },
        Op::Ne => Ends {
            lo: moved(other.lo, -1),
            hi: moved(other.hi, 1),
        },
        Op::Eq => Ends { lo: None, hi: None },
    }
}

/// Returns the operator read from the right.
pub fn flipped(op: Op) -> Op
    ensures { result ≡ flipped op }
{
    match op {
        Op::Lt => Op::Gt,
        Op::Le => Op::Ge,
        Op::Gt => Op::Lt,
        Op::Ge => Op::Le,
        Op::Ne => Op::Ne,
        Op::Eq => Op::Eq,
    }
}

// The lesser of two ends, and none where one of them is open.
fn lesser(a: Option<i64>, b: Option<i64>) -> Option<i64>
    ensures { result ≡ lesser a b }
{
    match a {
        Some(x) => match b {
            Some(y) => { if x < y { Some(x) } else { Some(y) } }
            None => None,
        },
        None => None,
    }
}

// The greater of two ends, and none where one of them is open.
fn greater(a: Option<i64>, b: Option<i64>) -> Option<i64>
    ensures { result ≡ greater a b }
{
    match a {
        Some(x) => match b {
            Some(y) => { if x < y { Some(y) } else { Some(x) } }
            None => None,
        },
        None => None,
    }
}

// The greater of two ends, and the other where one of them is open.
fn later(a: Option<i64>, b: Option<i64>) -> Option<i64>
    ensures { result ≡ later a b }
{
    match a {
        Some(x) => match b {
            Some(y) => { if x < y { Some(y) } else { Some(x) } }
            None => Some(x),
        },
        None => b,
    }
}

// The lesser of two ends, and the other where one of them is open.
fn sooner(a: Option<i64>, b: Option<i64>) -> Option<i64>
    ensures { result ≡ sooner a b }
{
    match a {
        Some(x) => match b {
            Some(y) => { if x < y { Some(x) } else { Some(y) } }
            None => Some(x),
        },
        None => b,
    }
}

/// Returns the least range that holds all of two.
pub fn joined(a: Ends, b: Ends) -> Ends
    ensures { ends_of result ≡ joined (ends_of a) (ends_of b) }
{
    Ends {
        lo: lesser(a.lo, b.lo),
        hi: greater(a.hi, b.hi),
    }
}

/// Returns a range cut to another.
pub fn cut(own: Ends, to: Ends) -> Ends
    ensures { ends_of result ≡ cut (ends_of own) (ends_of to) }
{
    Ends {
        lo: later(own.lo, to.lo),
        hi: sooner(own.hi, to.hi),
    }
}
