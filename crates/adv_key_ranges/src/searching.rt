//! The least number of ranges with which a query is accepted in each.
ghost use Rattle.std.specs.Prelude.{◌≡◌, ◌↔◌, ◌≤◌, length, IsTrue, IfOk};
ghost use Rattle.adv_mends.specs.Mended.{AreEnds};
ghost use Rattle.adv_key_ranges.specs.Accepted.{IsAccepted};
ghost use Rattle.adv_key_ranges.specs.Cutting.{most_ranges};
ghost use Rattle.adv_key_ranges.specs.Keys.{AreRead};
ghost use Rattle.adv_key_ranges.specs.Narrowed.{narrowed};
ghost use Rattle.adv_key_ranges.specs.Least.{AreAllAccepted, IsLeastFound};

use crate::accepting::is_accepted;
use crate::cutting::{most_ranges, range_at};
use crate::narrowing::narrowed;
use adv_mends::Ends;
use sem_query::{Attr, Query};
use std::alloc::{AllocError, Global};

/// The least number of ranges with which a query is accepted in each.
#[derive(Clone, Copy, Debug, PartialEq, Eq)]
pub enum Least {
    /// This number.
    Number(u64),
    /// None of the numbers from 1 to this one.
    NoneUpTo(u64),
}

// Whether the query is accepted with some columns in a range.
fn is_accepted_in(
    alloc: Global,
    query: &Query,
    shared: bool,
    columns: &[Attr],
    range: Ends,
) -> Result<bool, AllocError>
    requires few { length columns.now ≤ 4 }
    requires columns { AreRead query.now columns.now }
    requires range { AreEnds range }
    ensures { IfOk result (λ is. IsTrue is ↔ IsAccepted shared (narrowed columns.now range query.now)) }
{
    match narrowed(query, columns, range) {
        Some(other) => is_accepted(alloc, &other, shared),
        None => Ok(false),
    }
}

// Whether the query is accepted with some columns in each of so many ranges.
fn are_all_accepted(
    alloc: Global,
    query: &Query,
    shared: bool,
    columns: &[Attr],
    ends: Ends,
    ranges: u64,
) -> Result<bool, AllocError>
    requires few { length columns.now ≤ 4 }
    requires columns { AreRead query.now columns.now }
    requires ends { AreEnds ends }
    requires ranges { ranges ≤ most_ranges ends }
    ensures { IfOk result (λ are. IsTrue are ↔ AreAllAccepted shared query.now columns.now ends ranges) }
{
    for number in 0..ranges {
        let range = range_at(ends, ranges, number);
        if !is_accepted_in(alloc, query, shared, columns, range)? {
            return Ok(false);
        }
    }
    Ok(true)
}

/// Returns the least number of ranges between two ends with which the query is accepted with some columns in each, or that none up to 64 is so, or up to
/// the number of values. `AllocError` where the decision finds no memory.
pub(crate) fn least_ranges(
    alloc: Global,
    query: &Query,
    shared: bool,
    columns: &[Attr],
    ends: Ends,
) -> Result<Least, AllocError>
    requires few { length columns.now ≤ 4 }
    requires columns { AreRead query.now columns.now }
    requires ends { AreEnds ends }
    ensures { IfOk result (IsLeastFound shared query.now columns.now ends) }
{
    let most = most_ranges(ends);
    for before in 0..most {
        let ranges = before + 1;
        if are_all_accepted(alloc, query, shared, columns, ends, ranges)? {
            return Ok(Least::Number(ranges));
        }
    }
    Ok(Least::NoneUpTo(most))
}
