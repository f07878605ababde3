//! The search for assignments that stay apart.
ghost use Rattle.std.specs.Prelude.{IsTrue, ◌⊎◌, length, IfOk, IfSome};
ghost use Rattle.fam_motions.specs.Apart.{AreSolutions, LaterMixesFail, EarlierMixesFail, assigned};
ghost use Rattle.fam_motions.specs.Found.{AreApart, AreApartOnce, AreDifferent};

use crate::base::base_of;
use crate::block::{Difference, differences, is_free, taken_with};
use crate::drift::{Block, Drift, run};
use crate::mixing::{earlier_fails, falls, later_fails, rises};
use crate::open::{Way, first_block, second_block, ways_at};
use crate::values::Values;
use plan_constraints::place_of;
use sem_query::{Attr, Query};
use std::alloc::{AllocError, Global};

//// What is searched: for a query, from these values on, in strides of this length, for so many numbers.
#[derive(Drop)]
pub struct Search<'a> {
    pub q: &'a Query,
    pub base: &'a [i128],
    pub stride: i128,
    pub n: u16,
}

// The range from the first to the second integer, widened to hold a third.
fn widened(range: (i128, i128), value: i128) -> (i128, i128) {
    let (low, high) = range;
    if value < low {
        (value, high)
    } else if high < value {
        (low, value)
    } else {
        (low, high)
    }
}

/// Returns how far the values, the integers of a query and 0 lie apart at most, and 2 more.
pub fn stride_of(q: &Query, base: &[i128]) -> i128 {
    let mut range = (0, 0);
    for value in base {
        range = widened(range, *value);
    }
    for integer in q.consts() {
        range = widened(range, i128::from(*integer));
    }
    range.1.saturating_sub(range.0).saturating_add(2)
}

// A block of nothing.
fn nothing() -> Block {
    Block {
        taken: [false; 13],
        start: 0,
        step: 0,
    }
}

// Whether later mixtures fail by one of two differences.
fn later_fails_by(q: &Query, all: &[Values], one: Difference, other: Difference, place: u8) -> bool
    ensures { IsTrue result → LaterMixesFail q.now place (length all.now) (assigned q.now all.now) }
{
    if later_fails(q, all, one, place) {
        return true;
    }
    later_fails(q, all, other, place)
}

// Whether earlier ones do.
fn earlier_fails_by(
    q: &Query,
    all: &[Values],
    one: Difference,
    other: Difference,
    place: u8,
) -> bool
    ensures { IsTrue result → EarlierMixesFail q.now place (length all.now) (assigned q.now all.now) }
{
    if earlier_fails(q, all, one, place) {
        return true;
    }
    earlier_fails(q, all, other, place)
}

// Whether no mixtures satisfy the query, by two ways.
fn are_apart(q: &Query, all: &[Values], one: &Way, other: &Way, place: u8) -> bool
    ensures later { IsTrue result → LaterMixesFail q.now place (length all.now) (assigned q.now all.now) }
    ensures earlier { IsTrue result → EarlierMixesFail q.now place (length all.now) (assigned q.now all.now) }
{
    if !later_fails_by(q, all, one.difference, other.difference, place) {
        return false;
    }
    earlier_fails_by(q, all, one.difference, other.difference, place)
}

// The values of all numbers with two ways, of which this is the block of the second, where no mixtures satisfy the query.
fn tried_with_block(
    alloc: Global,
    search: &Search,
    place: u8,
    one: &Way,
    other: &Way,
    second: Block,
) -> Result<Option<Vec<Values>>, AllocError>
    ensures { IfOk result (λ found. IfSome found (λ all. AreApart search.now.q.now place search.now.n all.items)) }
{
    let drift = Drift {
        base: search.base,
        first: first_block(one, search.stride),
        second,
    };
    match run(alloc, search.q, &drift, search.n)? {
        Some(all) => {
            if are_apart(search.q, &all, one, other, place) {
                Ok(Some(all))
            } else {
                Ok(None)
            }
        }
        None => Ok(None),
    }
}

// The same, with whichever block the second has.
fn tried(
    alloc: Global,
    search: &Search,
    place: u8,
    one: &Way,
    other: &Way,
) -> Result<Option<Vec<Values>>, AllocError>
    ensures { IfOk result (λ found. IfSome found (λ all. AreApart search.now.q.now place search.now.n all.items)) }
{
    match second_block(search.q, one, other, place, search.stride, search.n) {
        Some(second) => tried_with_block(alloc, search, place, one, other, second),
        None => Ok(None),
    }
}

// The same with this first way and one of these.
fn tried_with(
    alloc: Global,
    search: &Search,
    place: u8,
    one: &Way,
    others: &[Way],
) -> Result<Option<Vec<Values>>, AllocError>
    ensures { IfOk result (λ found. IfSome found (λ all. AreApart search.now.q.now place search.now.n all.items)) }
{
    for other in others {
        match tried(alloc, search, place, one, other)? {
            Some(all) => return Ok(Some(all)),
            None => {}
        }
    }
    Ok(None)
}

// The same with two of these.
fn tried_all(
    alloc: Global,
    search: &Search,
    place: u8,
    ways: &[Way],
) -> Result<Option<Vec<Values>>, AllocError>
    ensures { IfOk result (λ found. IfSome found (λ all. AreApart search.now.q.now place search.now.n all.items)) }
{
    for one in ways {
        match tried_with(alloc, search, place, one, ways)? {
            Some(all) => return Ok(Some(all)),
            None => {}
        }
    }
    Ok(None)
}

/// Returns the values of so many numbers of which no mixtures with different numbers at a place of FROM and elsewhere satisfy the query, or none where none are
/// found. An error says that memory was not found.
pub fn apart(alloc: Global, q: &Query, place: u8, n: u16) -> Result<Option<Vec<Values>>, AllocError>
    ensures { IfOk result (λ found. IfSome found (λ all. AreApart q.now place n all.items)) }
{
    let base = match base_of(q) {
        Some(base) => base,
        None => return Ok(None),
    };
    let search = Search {
        q,
        base: base.as_slice(),
        stride: stride_of(q, base.as_slice()),
        n,
    };
    let ways = ways_at(q, differences(q).as_slice(), place);
    tried_all(alloc, &search, place, ways.as_slice())
}

// Whether mixtures of one kind do not satisfy the query.
fn are_apart_once(q: &Query, all: &[Values], difference: Difference, place: u8) -> bool
    ensures { IsTrue result → LaterMixesFail q.now place (length all.now) (assigned q.now all.now) ⊎ EarlierMixesFail q.now place (length all.now) (assigned q.now all.now) }
{
    if later_fails(q, all, difference, place) {
        return true;
    }
    earlier_fails(q, all, difference, place)
}

// The values of all numbers with this one way, where mixtures of one kind do not satisfy the query.
fn tried_alone(
    alloc: Global,
    search: &Search,
    place: u8,
    way: &Way,
) -> Result<Option<Vec<Values>>, AllocError>
    ensures { IfOk result (λ found. IfSome found (λ all. AreApartOnce search.now.q.now place search.now.n all.items)) }
{
    let drift = Drift {
        base: search.base,
        first: first_block(way, search.stride),
        second: nothing(),
    };
    match run(alloc, search.q, &drift, search.n)? {
        Some(all) => {
            if are_apart_once(search.q, &all, way.difference, place) {
                Ok(Some(all))
            } else {
                Ok(None)
            }
        }
        None => Ok(None),
    }
}

// The same with one of these.
fn tried_each(
    alloc: Global,
    search: &Search,
    place: u8,
    ways: &[Way],
) -> Result<Option<Vec<Values>>, AllocError>
    ensures { IfOk result (λ found. IfSome found (λ all. AreApartOnce search.now.q.now place search.now.n all.items)) }
{
    for way in ways {
        match tried_alone(alloc, search, place, way)? {
            Some(all) => return Ok(Some(all)),
            None => {}
        }
    }
    Ok(None)
}

/// Returns the same where no mixtures satisfy the query that have a later number at the place, or none that have an earlier one there.
pub fn apart_once(
    alloc: Global,
    q: &Query,
    place: u8,
    n: u16,
) -> Result<Option<Vec<Values>>, AllocError>
    ensures { IfOk result (λ found. IfSome found (λ all. AreApartOnce q.now place n all.items)) }
{
    let base = match base_of(q) {
        Some(base) => base,
        None => return Ok(None),
    };
    let search = Search {
        q,
        base: base.as_slice(),
        stride: stride_of(q, base.as_slice()),
        n,
    };
    let ways = ways_at(q, differences(q).as_slice(), place);
    tried_each(alloc, &search, place, ways.as_slice())
}

// Whether an attribute has another value at each number; a column that is no attribute may have any.
fn is_different(q: &Query, all: &[Values], attr: Attr) -> bool
    ensures { IsTrue result → AreDifferent q.now all.now attr }
{
    let attrs = q.attrs();
    if attrs.len() <= place_of(attrs, attr) {
        return true;
    }
    if rises(attrs, all, attr, attr) {
        return true;
    }
    falls(attrs, all, attr, attr)
}

// The values of all numbers where a column is moved up, or down, if it has no end there.
fn moved(
    alloc: Global,
    search: &Search,
    attr: Attr,
    up: bool,
) -> Result<Option<Vec<Values>>, AllocError>
    ensures { IfOk result (λ found. IfSome found (λ all. AreSolutions search.now.q.now search.now.n all.items × AreDifferent search.now.q.now all.items attr)) }
{
    let taken = taken_with(search.q, differences(search.q).as_slice(), attr, up);
    if !is_free(search.q, &taken, up) {
        return Ok(None);
    }
    let way = Way {
        difference: Difference {
            left: attr,
            right: attr,
        },
        up,
        taken,
    };
    let drift = Drift {
        base: search.base,
        first: first_block(&way, search.stride),
        second: nothing(),
    };
    match run(alloc, search.q, &drift, search.n)? {
        Some(all) => {
            if is_different(search.q, &all, attr) {
                Ok(Some(all))
            } else {
                Ok(None)
            }
        }
        None => Ok(None),
    }
}

/// Returns the values of so many numbers that satisfy the query, and of which no two have one value at a column if it is an attribute, or none where none are
/// found. An error says that memory was not found.
pub fn different(
    alloc: Global,
    q: &Query,
    attr: Attr,
    n: u16,
) -> Result<Option<Vec<Values>>, AllocError>
    ensures { IfOk result (λ found. IfSome found (λ all. AreSolutions q.now n all.items × AreDifferent q.now all.items attr)) }
{
    let base = match base_of(q) {
        Some(base) => base,
        None => return Ok(None),
    };
    let search = Search {
        q,
        base: base.as_slice(),
        stride: stride_of(q, base.as_slice()),
        n,
    };
    match moved(alloc, &search, attr, true)? {
        Some(all) => Ok(Some(all)),
        None => moved(alloc, &search, attr, false),
    }
}
