//! The ranges of the selected columns.
ghost use Rattle.std.specs.Prelude.{◌≡◌, ◌<◌, ◌≤◌, ◌++◌, [], ◌∷◌, length, if◌then◌else◌};
ghost use Rattle.std.specs.List.{list_any};
ghost use Rattle.sem_query.specs.Query.{attr_eq};
ghost use Rattle.sem_query.specs.Ranges.{different};
ghost use Rattle.plan_whole_form.specs.Part.{end_or_zero, dim_in, IsRangeOf, AreRangesOf};

use arrayvec::ArrayVec;
use plan_whole::{ClosedSystem, Ends};
use sem_query::{Attr, Dim, is_same};

// Whether a column is among some.
fn is_among(columns: &[Attr], attr: Attr) -> bool
    ensures { result ≡ list_any (λ a. attr_eq a attr) columns.now }
{
    columns.iter().any(|a| is_same(*a, attr))
}

// Adds a column that is not there yet.
fn push_new(list: &mut ArrayVec<Attr, 8>, attr: Attr)
    requires { length list.old.items < 8 }
    ensures { list.new.items ≡ (if list_any (λ a. attr_eq a attr) list.old.items then list.old.items else list.old.items ++ attr ∷ []) }
{
    if !is_among(list.as_slice(), attr) {
        list.push(attr);
    }
}

// The columns, each once.
fn different(columns: &[Attr]) -> ArrayVec<Attr, 8>
    requires { length columns.now ≤ 8 }
    ensures { result.items ≡ different columns.now }
{
    let mut list = ArrayVec::new();
    'columns: for i in 0..columns.len() {
        push_new(&mut list, columns[i]);
    }
    list
}

// An end, or 0 where there is none.
fn end_or_zero(end: Option<i64>) -> i64
    ensures { result ≡ end_or_zero end }
{
    match end {
        Some(end) => end,
        None => 0,
    }
}

/// Returns a column with its ends as a dim, with 0 for an end that is not there.
pub fn dim_in(attr: Attr, ends: Ends) -> Dim
    ensures { result ≡ dim_in attr ends }
{
    Dim {
        attr,
        lo: end_or_zero(ends.lo),
        hi: end_or_zero(ends.hi),
    }
}

// The range of a column.
fn range_of(closed: &ClosedSystem, attr: Attr) -> Dim
    ensures { IsRangeOf closed.now attr result }
{
    dim_in(attr, closed.ends(attr))
}

/// Returns the ranges of the different selected columns, with 0 for an end that is not there.
pub fn selected_ranges(closed: &ClosedSystem) -> ArrayVec<Dim, 8>
    ensures { AreRangesOf closed.now (different closed.now.select) result.items }
{
    let columns = different(closed.query().select());
    let mut list = ArrayVec::new();
    'columns: for i in 0..columns.len() {
        list.push(range_of(closed, columns.as_slice()[i]));
    }
    list
}
