//! What is said of the ranges of a query.
ghost use Rattle.std.specs.Prelude.{IfOk};
ghost use Rattle.sem_query.specs.Verdict.{limit};
ghost use Rattle.sem_forms.specs.Forms.{IsFormVerdict};
ghost use Rattle.adv_key_decision.specs.Judged.{by_stream};
ghost use Rattle.adv_key_ranges.specs.Accepted.{IsLimitOf};
ghost use Rattle.adv_key_ranges.specs.Ranges.{AreRanges};

use crate::keys::{key_range, read_keys};
use crate::searching::{Least, least_ranges};
use adv_mends::Ends;
use sem_query::{Query, Which};
use std::alloc::{AllocError, Global};

/// The limit that refuses a query, the values that the domains of its keys have in common, and the least number of ranges of these with which it is
/// accepted in each.
#[derive(Clone, Copy, Debug, PartialEq, Eq)]
pub struct Ranges {
    pub which: Which,
    pub ends: Ends,
    pub least: Least,
}

// What is said of a query that this limit refuses.
fn ranges_of_refused(
    alloc: Global,
    query: &Query,
    shared: bool,
    which: Which,
    choice: &[Option<u8>],
) -> Result<Option<Ranges>, AllocError>
    requires { IsFormVerdict shared query.now 16384 (limit which) }
    ensures { IfOk result (AreRanges shared query.now (by_stream choice.now)) }
{
    let columns = read_keys(query, choice);
    match key_range(query, columns.as_slice()) {
        Some(ends) => {
            let least = least_ranges(alloc, query, shared, columns.as_slice(), ends)?;
            Ok(Some(Ranges { which, ends, least }))
        }
        None => Ok(None),
    }
}

/// Returns the least number of ranges with which a query that this limit refuses is accepted in each, where rows go by these keys, one for each stream by
/// its number, or none where it is broadcast. Each key that the query compares or selects has the range as its domain, and what is cut are the values that
/// the domains of these keys have in common. None where no limit refuses the query, where no such key has a domain, or where there is no such value.
/// `AllocError` where the decision finds no memory.
pub fn ranges_for(
    alloc: Global,
    query: &Query,
    shared: bool,
    limit: Option<Which>,
    choice: &[Option<u8>],
) -> Result<Option<Ranges>, AllocError>
    requires { IsLimitOf shared query.now limit }
    ensures { IfOk result (AreRanges shared query.now (by_stream choice.now)) }
{
    match limit {
        Some(which) => ranges_of_refused(alloc, query, shared, which, choice),
        None => Ok(None),
    }
}
