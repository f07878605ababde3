//! Columns whose ranges are open, and how they stand in links.
ghost use Rattle.std.specs.Prelude.{◌≡◌, ◌⊎◌, ◌↔◌, ◌<◌, map, IsTrue};
ghost use Rattle.std.specs.List.{Any};
ghost use Rattle.sem_query.specs.declared.atom.Op.{Op};
ghost use Rattle.sem_whole.specs.System.{system};
ghost use Rattle.sem_whole.specs.Kept.{IsRange};
ghost use Rattle.sem_whole.specs.Whole.{IsFinite, IsOpen, IsOpenSide, IsUnlike, IsOneWay, HasEarlier};
ghost use Rattle.plan_whole.specs.Closed.{ends_of};
ghost use Rattle.plan_whole.specs.Columns.{atom_of};
ghost use Rattle.plan_whole_form.specs.Sides.{IsSide, DiffersAt, IsEarlier};

use plan_whole::{ClosedSystem, ColumnLink, Ends, is_one_way, is_side_of, kept_range};
use sem_query::{Attr, Op, is_same};

/// Returns whether a range has both ends.
pub fn is_finite(ends: Ends) -> bool
    ensures { IsTrue result ↔ IsFinite (ends_of ends) }
{
    match ends.lo {
        Some(_) => match ends.hi {
            Some(_) => true,
            None => false,
        },
        None => false,
    }
}

/// Returns whether the range of a column lacks an end.
#[tactic(auto, using(crate::proofs::Opening::open_range_told))]
pub fn has_open_range(closed: &ClosedSystem, a: Attr) -> bool
    ensures { IsTrue result ↔ IsOpen (IsRange (system closed.now) a) }
{
    let ends = closed.ends(a);
    let finite = is_finite(ends);
    !finite
}

// Whether a column is a side of a link.
fn stands_in(link: ColumnLink, a: Attr) -> bool
    ensures { IsTrue result ↔ IsSide a link }
{
    link.left == a || link.right == a
}

// Whether a column is a side of one of some links.
fn is_side(links: &[ColumnLink], a: Attr) -> bool
    ensures { IsTrue result ↔ Any (IsSide a) links.now }
{
    links.iter().any(|link| stands_in(*link, a))
}

/// Returns whether a column stands in a link and its kept range lacks an end.
pub fn is_open_side(closed: &ClosedSystem, links: &[ColumnLink], a: Attr) -> bool
    ensures { IsTrue result ↔ IsOpenSide closed.now (map atom_of links.now) a }
{
    if !is_side(links, a) {
        return false;
    }
    let ends = kept_range(closed, links, a);
    let finite = is_finite(ends);
    !finite
}

fn is_disequality(op: Op) -> bool
    ensures { IsTrue result ↔ (op ≡ Op.Ne) }
{
    match op {
        Op::Ne => true,
        Op::Lt | Op::Gt | Op::Le | Op::Ge | Op::Eq => false,
    }
}

// Whether a link is a `<>` with a side of the class of a column.
fn differs_at(closed: &ClosedSystem, link: ColumnLink, a: Attr) -> bool
    ensures { IsTrue result ↔ DiffersAt (system closed.now) a link }
{
    is_disequality(link.op) && is_side_of(closed, link, a)
}

// Whether one of some links is a `<>` with a side of the class of a column.
fn differs(closed: &ClosedSystem, links: &[ColumnLink], a: Attr) -> bool
    ensures { IsTrue result ↔ Any (DiffersAt (system closed.now) a) links.now }
{
    links.iter().any(|link| differs_at(closed, *link, a))
}

/// Returns whether a column of the class of a column stands in a link `<>`.
#[tactic(auto, using(crate::proofs::Opening::unlike_told))]
pub fn is_unlike(closed: &ClosedSystem, links: &[ColumnLink], a: Attr) -> bool
    ensures { IsTrue result ↔ IsUnlike closed.now (map atom_of links.now) a }
{
    differs(closed, links, a)
}

// Whether a column has an open kept range, may be the extreme of its stream, and is not of the class of another.
#[tactic(auto, using(crate::proofs::Opening::earlier_told))]
fn is_earlier(closed: &ClosedSystem, links: &[ColumnLink], first: Attr, a: Attr) -> bool
    ensures { IsTrue result ↔ IsEarlier closed.now (map atom_of links.now) a first }
{
    let open = is_open_side(closed, links, first);
    let way = is_one_way(closed, links, first);
    let same = closed.are_one_class(first, a);
    open && way && !same
}

/// Returns whether an open class that comes before that of a column in its stream may be the extreme.
pub fn has_earlier(closed: &ClosedSystem, links: &[ColumnLink], a: Attr) -> bool
    ensures { IsTrue result ↔ HasEarlier closed.now (map atom_of links.now) a }
{
    for column in 0..a.column {
        let first = Attr {
            stream: a.stream,
            column,
        };
        if is_earlier(closed, links, first, a) {
            return true;
        }
    }
    false
}
