//! The ranges of the selected columns in a part, and the values of these columns in a tuple.
ghost use Rattle.std.specs.Prelude.{◌≡◌, ◌≤◌, ◌<◌, ◌+◌, not, length, ◌∷◌, map, filter, slice_get};
ghost use Rattle.sem_query.specs.Query.{attr_eq};
ghost use Rattle.sem_query.specs.Parts.{pairs};
ghost use Rattle.sem_query.specs.Plan.{dims_at};
ghost use Rattle.sem_query.specs.Ranges.{different, range_of, at_column};
ghost use Rattle.exec_synopsis.specs.Preparing.{IsPrepared};

use arrayvec::ArrayVec;
use exec_synopsis::{Prepared, class_of};
use sem_query::{Attr, Dim, PartPlan, Query, Tuple, dims_at, is_same};

// A column, and those of a list that are not the same.
fn with_first(a: Attr, others: &[Attr]) -> ArrayVec<Attr, 8>
    requires { length others.now < 8 }
    ensures columns { result.items ≡ a ∷ filter (λ b. not (attr_eq a b)) others.now }
    ensures few { length result.items ≤ length others.now + 1 }
{
    let mut columns: ArrayVec<Attr, 8> = ArrayVec::new();
    columns.push(a);
    'others: for b in others {
        if !is_same(a, *b) {
            columns.push(*b);
        }
    }
    columns
}

/// Returns the columns, each once.
pub fn different(select: &[Attr]) -> ArrayVec<Attr, 8>
    requires { length select.now ≤ 8 }
    ensures columns { result.items ≡ different select.now }
    ensures few { length result.items ≤ length select.now }
{
    match select {
        [] => ArrayVec::new(),
        [a, others @ ..] => {
            let columns = different(others);
            with_first(*a, columns.as_slice())
        }
    }
}

// The dim at a place.
fn dim_at(dims: &[Dim], k: u8) -> Option<Dim>
    ensures { result ≡ slice_get dims.now k }
{
    dims.get(usize::from(k)).copied()
}

/// Returns the range of a column in a part: that of the dim of its class, and 0 alone where there is none.
pub fn range(q: &Query, part: &PartPlan, prepared: &Prepared, a: Attr) -> Dim
    requires { IsPrepared (pairs q.now) part.now prepared.now }
    ensures { result ≡ range_of q.now part.now a }
{
    let none = Dim {
        attr: a,
        lo: 0,
        hi: 0,
    };
    match class_of(q.pairs().as_slice(), part, prepared, a) {
        Some(class) => dim_at(dims_at(part, usize::from(a.stream)), class).unwrap_or(none),
        None => none,
    }
}

// The value of a column where the columns have these values.
fn at_column(columns: &[Attr], values: &[i64], a: Attr) -> i64
    ensures { result ≡ at_column columns.now values.now a }
{
    match columns {
        [] => 0,
        [b, later @ ..] => match values {
            [] => 0,
            [x, others @ ..] => {
                if is_same(*b, a) {
                    *x
                } else {
                    at_column(later, others, a)
                }
            }
        },
    }
}

/// Puts the values of some columns into a tuple, where other columns have these values.
pub fn put_values(columns: &[Attr], values: &[i64], select: &[Attr], tuple: &mut Tuple)
    requires { length select.now ≤ 8 }
    ensures { tuple.new.items ≡ map (at_column columns.now values.now) select.now }
{
    tuple.clear();
    'columns: for a in select {
        tuple.push(at_column(columns, values, *a));
    }
}
