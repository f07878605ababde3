//! The attributes of a query, and columns among columns and links.
ghost use Rattle.std.specs.Prelude.{◌≡◌, ◌<◌, ◌≤◌, length};
ghost use Rattle.std.specs.List.{list_any};
ghost use Rattle.sem_query.specs.Query.{attr_eq, attrs_of, IsWithinLimits};
ghost use Rattle.plan_layout.specs.ColumnPlaces.{attr_at, IsPlace, is_side};

use sem_query::{Attr, Link, Query, is_same};

/// Returns how many attributes the query has.
pub fn attr_count(q: &Query) -> usize
    ensures value { result ≡ length (attrs_of q.now.atoms) }
    ensures few { result ≤ 12 }
    ensures limits { IsWithinLimits q.now }
{
    q.attrs().len()
}

/// Returns the attribute at a place.
pub fn attr_at(q: &Query, i: usize) -> Attr
    requires { i < length (attrs_of q.now.atoms) }
    ensures { result ≡ attr_at q.now i }
{
    q.attrs()[i]
}

/// Returns whether a column is among some.
pub fn is_among(columns: &[Attr], attr: Attr) -> bool
    ensures { result ≡ list_any (λ a. attr_eq a attr) columns.now }
{
    columns.iter().any(|a| is_same(*a, attr))
}

/// Returns whether a column is a side of a link.
pub fn is_linked(links: &[Link], attr: Attr) -> bool
    ensures { result ≡ is_side links.now attr }
{
    links
        .iter()
        .any(|l| is_same(l.left, attr) || is_same(l.right, attr))
}

/// Returns the place of a column among some, or none where it is not there.
pub fn place_of(columns: &[Attr], attr: Attr) -> Option<usize>
    ensures { IsPlace columns.now attr result }
{
    for i in 0..columns.len() {
        if is_same(columns[i], attr) {
            return Some(i);
        }
    }
    None
}
