//! Changes to a query.
ghost use Rattle.std.specs.Prelude.{◌≡◌, ◌<◌, ◌≤◌, ◌++◌, ◌∷◌, [], length, ◌≤ℤ◌, pos};
ghost use Rattle.adv_mends.specs.Mended.{AreEnds, widest_ends};
ghost use Rattle.adv_mends.specs.Ends.{reaching, span, lowered, raised, below, above};

use arrayvec::ArrayVec;
use sem_query::{Atom, Attr, Query};
use std::marker::Model;

/// Two integers between which columns are bounded.
#[derive(Clone, Copy, Debug, PartialEq, Eq)]
pub struct Ends {
    pub lo: i64,
    pub hi: i64,
}

/// A change that would mend a query or make it cheaper.
#[derive(Drop)]
pub enum Mend {
    /// An answer counts once.
    Distinct,
    /// Each of these columns has a domain with these ends, where it has none.
    Domains(ColumnSet, Ends),
    /// Each of these columns is above the first of two integers and below the second, by two comparisons.
    Bounds(ColumnSet, Ends),
    /// One comparison more, of a column with an integer.
    Comparison(Atom),
    /// It is planned by its whole form where that fits, and else by its split form.
    Compact,
    /// Boxes that are the same have their cells once. The query stays as it is.
    Shared,
}

/// What bounds the columns of a set: two comparisons each, or a domain each.
#[derive(Clone, Copy, Debug, PartialEq, Eq)]
pub enum ChangeKind {
    Bounds,
    Domains,
}

// A list of fixed capacity with these items.
pub(crate) fn copied<T: Copy + Default, const N: usize>(items: &[T]) -> ArrayVec<T, N>
    requires { length items.now ≤ N }
    ensures { result.items ≡ items.now }
{
    match ArrayVec::try_from(items) {
        Ok(list) => list,
        Err(_) => unreachable!(),
    }
}

/// At most three columns. A clause sees their list.
#[derive(Drop)]
pub struct ColumnSet {
    columns: ArrayVec<Attr, 3>,
}

impl Model for ColumnSet {
    ghost use Rattle.std.specs.Prelude.{List, ◌≤◌, length};
    ghost use Rattle.sem_query.specs.declared.atom.Attr.{Attr};

    ghost Value = { List Attr };

    ghost view = { λ set. set.columns.items };

    ghost invariant = { λ set. length set.columns.items ≤ 3 };
}

impl ColumnSet {
    /// Returns the set of these columns, of which there are at most three.
    pub fn of(columns: &[Attr]) -> ColumnSet
        requires { length columns.now ≤ 3 }
        ensures { result ≡ columns.now }
    {
        ColumnSet {
            columns: copied(columns),
        }
    }

    /// Returns the set of at most two columns and one more behind them.
    pub fn with(columns: &[Attr], column: Attr) -> ColumnSet
        requires { length columns.now < 3 }
        ensures { result ≡ columns.now ++ column ∷ [] }
    {
        let mut set = ColumnSet::of(columns);
        set.columns.push(column);
        set
    }

    /// Returns the columns, in their order.
    pub fn columns(&self) -> &[Attr]
        ensures value { result.now ≡ self.now }
        ensures few { length self.now ≤ 3 }
    {
        self.columns.as_slice()
    }
}

/// The greatest integer of 15 digits.
pub(crate) const GREATEST: i64 = 999_999_999_999_999;

/// How far the ends that are close together lie from each other, and from the integers of a query.
const APART: i64 = 13;

// The ends of all integers of at most 15 digits.
pub(crate) fn widest_ends() -> Ends
    ensures value { result ≡ widest_ends }
    ensures ends { AreEnds result }
{
    Ends {
        lo: -GREATEST,
        hi: GREATEST,
    }
}

// The interval that reaches to an integer.
fn reaching(ends: Ends, value: &i64) -> Ends
    ensures { result ≡ reaching ends value.now }
{
    Ends {
        lo: if *value < ends.lo { *value } else { ends.lo },
        hi: if ends.hi < *value { *value } else { ends.hi },
    }
}

/// Returns the least interval with 0 and all integers that a query names.
pub(crate) fn span(query: &Query) -> Ends
    ensures value { result ≡ span query.now }
    ensures low { result.lo ≤ℤ pos 0 }
    ensures high { pos 0 ≤ℤ result.hi }
{
    let mut ends = Ends { lo: 0, hi: 0 };
    'consts: for value in query.consts() {
        ends = reaching(ends, value);
    }
    'domains: for domain in query.domains() {
        ends = reaching(reaching(ends, &domain.lo), &domain.hi);
    }
    ends
}

// So much below an integer, or the least integer of 15 digits.
fn lowered(value: &i64, by: i64) -> i64
    requires some { pos 0 ≤ℤ by }
    requires few { by ≤ℤ pos 26 }
    ensures { result ≡ lowered value.now by }
{
    if *value < by - GREATEST {
        -GREATEST
    } else {
        *value - by
    }
}

// So much above an integer, or the greatest integer of 15 digits.
fn raised(value: &i64, by: i64) -> i64
    requires some { pos 0 ≤ℤ by }
    requires few { by ≤ℤ pos 26 }
    ensures { result ≡ raised value.now by }
{
    if GREATEST - by < *value {
        GREATEST
    } else {
        *value + by
    }
}

/// Returns two integers below an interval, close together.
pub(crate) fn below(ends: &Ends) -> Ends
    requires { ends.now.lo ≤ℤ pos 0 }
    ensures value { result ≡ below ends.now }
    ensures ends { AreEnds result }
{
    Ends {
        lo: lowered(&ends.lo, 2 * APART),
        hi: lowered(&ends.lo, APART),
    }
}

/// Returns two integers above an interval, close together.
pub(crate) fn above(ends: &Ends) -> Ends
    requires { pos 0 ≤ℤ ends.now.hi }
    ensures value { result ≡ above ends.now }
    ensures ends { AreEnds result }
{
    Ends {
        lo: raised(&ends.hi, APART),
        hi: raised(&ends.hi, 2 * APART),
    }
}
