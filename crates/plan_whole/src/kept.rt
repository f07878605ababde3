//! Which values of a class are kept apart.
ghost use Rattle.std.specs.Prelude.{◌≡◌, ◌≢◌, ◌⊎◌, ◌↔◌, pos, map, IsTrue};
ghost use Rattle.std.specs.List.{Any};
ghost use Rattle.sem_query.specs.declared.atom.Element.TheVariants as element;
ghost use Rattle.sem_query.specs.declared.atom.Op.{Op};
ghost use Rattle.sem_query.specs.Query.{attrs_of};
ghost use Rattle.sem_whole.specs.System.{system, AreOneClass};
ghost use Rattle.sem_whole.specs.Kept.{IsRange, IsKeptAsItIs, IsKeptRange};
ghost use Rattle.plan_whole.specs.Closed.{ends_of};
ghost use Rattle.plan_whole.specs.Columns.{atom_of};
ghost use Rattle.plan_whole.specs.Asked.{IsSideOf, Equates, IsEqualAcross, IsReadOfClass, AreAskedBy, IsLeftWindow, IsRightWindow, IsWithWindow};

use crate::closed::{ClosedSystem, Ends};
use crate::ends::{cut, flipped, joined, window};
use crate::links::ColumnLink;
use sem_query::{Attr, Op};

fn is_equality(op: Op) -> bool
    ensures { IsTrue result ↔ (op ≡ Op.Eq) }
{
    match op {
        Op::Eq => true,
        Op::Lt | Op::Gt | Op::Le | Op::Ge | Op::Ne => false,
    }
}

/// Returns whether a column is of the class of one of some columns.
pub fn is_class_of_one(closed: &ClosedSystem, a: Attr, columns: &[Attr]) -> bool
    ensures { IsTrue result ↔ Any (AreOneClass (system closed.now) a) columns.now }
{
    columns.iter().any(|b| closed.are_one_class(a, *b))
}

/// Returns whether a side of a link is of the class of a column.
pub fn is_side_of(closed: &ClosedSystem, link: ColumnLink, a: Attr) -> bool
    ensures { IsTrue result ↔ IsSideOf (system closed.now) a link }
{
    closed.are_one_class(a, link.left) || closed.are_one_class(a, link.right)
}

// Whether a link is an equality with a side of the class of a column.
fn equates(closed: &ClosedSystem, link: ColumnLink, a: Attr) -> bool
    ensures { IsTrue result ↔ Equates (system closed.now) a link }
{
    is_equality(link.op) && is_side_of(closed, link, a)
}

// Whether a link is an equality with a side of the class of a column, among some.
fn is_equated(closed: &ClosedSystem, links: &[ColumnLink], a: Attr) -> bool
    ensures { IsTrue result ↔ Any (Equates (system closed.now) a) links.now }
{
    links.iter().any(|link| equates(closed, *link, a))
}

// Whether a column of another stream is equal to a column in each solution.
fn is_equal_across(closed: &ClosedSystem, a: Attr, b: Attr) -> bool
    ensures { IsTrue result ↔ IsEqualAcross (system closed.now) a b }
{
    b.stream != a.stream && closed.keeps(a, b, 0) && closed.keeps(b, a, 0)
}

// Whether an attribute of another stream is equal to a column in each solution.
fn has_equal_across(closed: &ClosedSystem, a: Attr) -> bool
    ensures { IsTrue result ↔ Any (IsEqualAcross (system closed.now) a) (attrs_of closed.now.atoms) }
{
    let attrs = closed.query().attrs();
    attrs.iter().any(|b| is_equal_across(closed, a, *b))
}

// Whether the class of a column is selected or in a link `=`.
fn is_selected_or_equated(closed: &ClosedSystem, links: &[ColumnLink], a: Attr) -> bool
    ensures { IsTrue result ↔ (Any (AreOneClass (system closed.now) a) closed.now.select ⊎ Any (Equates (system closed.now) a) links.now) }
{
    let select = closed.query().select();
    is_class_of_one(closed, a, select) || is_equated(closed, links, a)
}

/// Returns whether the class of a column is kept as it is: it is selected, in a link `=`, or equal to a column of another stream.
pub fn is_kept_as_it_is(closed: &ClosedSystem, links: &[ColumnLink], a: Attr) -> bool
    ensures { IsTrue result ↔ IsKeptAsItIs closed.now (map atom_of links.now) a }
{
    is_selected_or_equated(closed, links, a) || has_equal_across(closed, a)
}

// What a link can tell apart of the class of a column that stands on its left.
fn left_window(closed: &ClosedSystem, link: ColumnLink, a: Attr) -> Option<Ends>
    ensures { IsLeftWindow (system closed.now) a link result }
{
    if closed.are_one_class(a, link.left) {
        Some(window(link.op, closed.ends(link.right)))
    } else {
        None
    }
}

// What a link can tell apart of the class of a column that stands on its right.
fn right_window(closed: &ClosedSystem, link: ColumnLink, a: Attr) -> Option<Ends>
    ensures { IsRightWindow (system closed.now) a link result }
{
    if closed.are_one_class(a, link.right) {
        Some(window(flipped(link.op), closed.ends(link.left)))
    } else {
        None
    }
}

// One window more, where there is one.
fn widened(asked: Option<Ends>, more: Option<Ends>) -> Option<Ends>
    ensures { IsWithWindow asked more result }
{
    match more {
        None => asked,
        Some(more) => match asked {
            None => Some(more),
            Some(asked) => Some(joined(more, asked)),
        },
    }
}

// The least range that holds all that the links can tell apart of the class of a column, where one of them asks it.
fn asked(closed: &ClosedSystem, links: &[ColumnLink], a: Attr) -> Option<Ends>
    ensures { AreAskedBy (system closed.now) a links.now result }
{
    let mut asked = None;
    for link in links {
        let left = widened(asked, left_window(closed, *link, a));
        asked = widened(left, right_window(closed, *link, a));
    }
    asked
}

/// Returns the kept range of the class of a column that has one that is read: its own range, cut to all that is asked of it.
pub fn kept_range(closed: &ClosedSystem, links: &[ColumnLink], a: Attr) -> Ends
    requires { IsReadOfClass closed.now (map atom_of links.now) a }
    ensures { IsKeptRange closed.now (map atom_of links.now) a (ends_of result) }
{
    let own = closed.ends(a);
    let asked = asked(closed, links, a);
    if is_kept_as_it_is(closed, links, a) {
        return own;
    }
    match asked {
        Some(asked) => cut(own, asked),
        None => own,
    }
}
