//! The ranges of the selected columns.
ghost use Rattle.std.specs.Prelude.{◌≡◌, ◌<◌, ◌≤◌, ◌++◌, [], ◌∷◌, length, if◌then◌else◌};
ghost use Rattle.std.specs.List.{list_any};
ghost use Rattle.sem_query.specs.Query.{attr_eq};
ghost use Rattle.sem_query.specs.Parts.{IsPart};
ghost use Rattle.sem_query.specs.Boxes.{range_size};
ghost use Rattle.sem_query.specs.Ranges.{different};
ghost use Rattle.plan_links.specs.Refs.{AreRefs};
ghost use Rattle.plan_layout.specs.Capped.{capped};
ghost use Rattle.plan_layout.specs.Sums.{IsSizeOf, AreSizesOf};

use crate::lookup::is_among;
use crate::ranges::range_of;
use crate::sizes::range_size;
use arrayvec::ArrayVec;
use plan_links::{Range, Refs};
use sem_query::{Attr, Part, Query};

// Adds a column that is not there yet.
fn push_new(list: &mut ArrayVec<Attr, 8>, attr: Attr)
    requires { length list.old.items < 8 }
    ensures { list.new.items ≡ (if list_any (λ a. attr_eq a attr) list.old.items then list.old.items else list.old.items ++ attr ∷ []) }
{
    if !is_among(list.as_slice(), attr) {
        list.push(attr);
    }
}

/// Returns the columns, each once.
pub fn different(columns: &[Attr]) -> ArrayVec<Attr, 8>
    requires { length columns.now ≤ 8 }
    ensures { result.items ≡ different columns.now }
{
    let mut list = ArrayVec::new();
    'columns: for i in 0..columns.len() {
        push_new(&mut list, columns[i]);
    }
    list
}

// How many values a range has.
fn values_of(range: Range) -> u64
    ensures { result ≡ capped (range_size range.lo range.hi) }
{
    range_size(range.lo, range.hi)
}

// How many values a column has, 0 where it is not bounded.
fn size_of(q: &Query, p: &Part, refs: &Refs, attr: Attr) -> u64
    requires part { IsPart q.now p.now.signs.items }
    requires refs { AreRefs q.now p.now.signs.items refs.now }
    ensures { IsSizeOf q.now p.now.signs.items attr result }
{
    match range_of(q, p, refs, attr) {
        Some(range) => values_of(range),
        None => 0,
    }
}

/// Returns how many tuples lie in the ranges of the columns.
pub fn tuples_in(q: &Query, p: &Part, refs: &Refs, columns: &[Attr]) -> u64
    requires part { IsPart q.now p.now.signs.items }
    requires refs { AreRefs q.now p.now.signs.items refs.now }
    ensures { AreSizesOf q.now p.now.signs.items columns.now result }
{
    let mut size: u64 = 1;
    'columns: for i in 0..columns.len() {
        size = size.saturating_mul(size_of(q, p, refs, columns[i]));
    }
    size
}
