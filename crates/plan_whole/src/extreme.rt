//! The class of a stream of which cells keep the least or the greatest value.
ghost use Rattle.std.specs.Prelude.{◌≡◌, ◌⊎◌, ◌↔◌, ◌<◌, length, map, IsTrue, Some};
ghost use Rattle.sem_query.specs.Boxes.{range_size};
ghost use Rattle.sem_whole.specs.Links.{AreLinks};
ghost use Rattle.sem_whole.specs.Signed.{IsWellFormed};
ghost use Rattle.sem_whole.specs.Whole.{IsOneWay};
ghost use Rattle.sem_whole.specs.Plan.{room, is_more, is_larger, IsPlannedKind};
ghost use Rattle.plan_whole.specs.Closed.{ends_of};
ghost use Rattle.plan_whole.specs.Columns.{atom_of};
ghost use Rattle.plan_whole.specs.Extremes.{IsCandidate, larger_of, better, IsBest};

use crate::classes::{has_read, is_left_alone, is_right_alone, name_of};
use crate::closed::{ClosedSystem, Ends};
use crate::kept::kept_range;
use crate::links::ColumnLink;
use sem_query::{Attr, Kind, is_same};

/// A class of columns of one stream, by its name, and the range that is kept of it.
#[derive(Clone, Copy, Debug, Default, PartialEq, Eq)]
pub struct KeptClass {
    pub attr: Attr,
    pub ends: Ends,
}

// How many integers there are between two ends, where both are there.
fn room(ends: Ends) -> Option<u128>
    ensures { result ≡ room ends.lo ends.hi }
{
    match ends.lo {
        Some(low) => match ends.hi {
            Some(high) => Some(size_between(low, high)),
            None => None,
        },
        None => None,
    }
}

// How many integers there are from one to another.
fn size_between(low: i64, high: i64) -> u128
    ensures { result ≡ range_size low high }
{
    if high < low {
        0
    } else {
        (i128::from(high) - i128::from(low)).unsigned_abs() + 1
    }
}

// Whether a number is greater; one that is not there is greater than each that is.
fn is_more(a: Option<u128>, b: Option<u128>) -> bool
    ensures { result ≡ is_more a b }
{
    match a {
        None => match b {
            None => false,
            Some(_) => true,
        },
        Some(m) => match b {
            None => false,
            Some(n) => n < m,
        },
    }
}

// Whether a range has more values than another.
fn is_larger(a: Ends, b: Ends) -> bool
    ensures { result ≡ is_larger (ends_of a) (ends_of b) }
{
    is_more(room(a), room(b))
}

/// Returns whether all links of the class of a column go one way.
pub fn is_one_way(closed: &ClosedSystem, links: &[ColumnLink], a: Attr) -> bool
    ensures { IsTrue result ↔ IsOneWay closed.now (map atom_of links.now) a }
{
    is_left_alone(closed, links, a) || is_right_alone(closed, links, a)
}

// The class that a column names, where it may be the extreme of its stream.
fn candidate(closed: &ClosedSystem, links: &[ColumnLink], a: Attr) -> Option<KeptClass>
    ensures { IsCandidate closed.now (map atom_of links.now) a result }
{
    if !is_same(name_of(closed, a), a) {
        return None;
    }
    if !has_read(closed, links, a) {
        return None;
    }
    if !is_one_way(closed, links, a) {
        return None;
    }
    let ends = kept_range(closed, links, a);
    if is_more(room(ends), Some(1)) {
        Some(KeptClass { attr: a, ends })
    } else {
        None
    }
}

// The larger of two classes, and the first of equals.
fn larger_of(old: KeptClass, new: KeptClass) -> KeptClass
    ensures { result ≡ larger_of old new }
{
    if is_larger(new.ends, old.ends) {
        new
    } else {
        old
    }
}

// The larger of two classes, where both are there.
fn better(old: Option<KeptClass>, new: Option<KeptClass>) -> Option<KeptClass>
    ensures { result ≡ better old new }
{
    match new {
        None => old,
        Some(new) => match old {
            None => Some(new),
            Some(old) => Some(larger_of(old, new)),
        },
    }
}

/// Returns the largest class of a stream whose links all go one way and of which more than one value is kept, and the first of equals.
pub fn extreme_of(closed: &ClosedSystem, links: &[ColumnLink], place: u8) -> Option<KeptClass>
    ensures { IsBest closed.now (map atom_of links.now) place 8 result }
{
    let mut best = None;
    for column in 0..8 {
        let attr = Attr {
            stream: place,
            column,
        };
        best = better(best, candidate(closed, links, attr));
    }
    best
}

/// Returns the kind of the cells of a stream: a count without DISTINCT, and with it the extreme of a class, where one may be it.
pub fn kind_of(closed: &ClosedSystem, links: &[ColumnLink], place: u8) -> Kind
    requires { AreLinks closed.now (map atom_of links.now) }
    ensures kind { IsPlannedKind closed.now (map atom_of links.now) place result }
    ensures formed { IsWellFormed closed.now }
{
    let query = closed.query();
    if !query.distinct() {
        return Kind::Count;
    }
    match extreme_of(closed, links, place) {
        None => Kind::Present,
        Some(best) => {
            if is_left_alone(closed, links, best.attr) {
                Kind::Least(best.attr)
            } else {
                Kind::Greatest(best.attr)
            }
        }
    }
}
