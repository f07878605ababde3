//! Classes of columns: their names, whether they are read, and on which side of links they stand.
ghost use Rattle.std.specs.Prelude.{◌≡◌, ◌⊎◌, ◌↔◌, map, IsTrue, All};
ghost use Rattle.std.specs.List.{Any};
ghost use Rattle.sem_query.specs.declared.atom.Op.{Op};
ghost use Rattle.sem_whole.specs.System.{system};
ghost use Rattle.sem_whole.specs.Whole.{IsLeftAlone, IsRightAlone};
ghost use Rattle.sem_whole.specs.Plan.{HasRead};
ghost use Rattle.plan_whole.specs.Columns.{atom_of};
ghost use Rattle.plan_whole.specs.Asked.{IsSideOf};
ghost use Rattle.plan_whole.specs.Classes.{IsNameOf, IsLeftAt, IsRightAt};

use crate::closed::ClosedSystem;
use crate::kept::{is_class_of_one, is_kept_as_it_is, is_side_of};
use crate::links::ColumnLink;
use sem_query::{Attr, Op};

/// Returns the column that names the class of a column: the first of its stream that is in it.
pub fn name_of(closed: &ClosedSystem, a: Attr) -> Attr
    ensures { IsNameOf closed.now a result }
{
    for column in 0..a.column {
        let other = Attr {
            stream: a.stream,
            column,
        };
        if closed.are_one_class(other, a) {
            return other;
        }
    }
    a
}

// Whether a side of one of some links is of the class of a column.
fn is_side_of_one(closed: &ClosedSystem, links: &[ColumnLink], a: Attr) -> bool
    ensures { IsTrue result ↔ Any (IsSideOf (system closed.now) a) links.now }
{
    links.iter().any(|link| is_side_of(closed, *link, a))
}

/// Returns whether a column of the class of a column is selected or stands in a link.
#[tactic(auto, using(crate::proofs::Classing::read_told))]
pub fn has_read(closed: &ClosedSystem, links: &[ColumnLink], a: Attr) -> bool
    ensures { IsTrue result ↔ HasRead closed.now (map atom_of links.now) a }
{
    let selected = is_class_of_one(closed, a, closed.query().select());
    let linked = is_side_of_one(closed, links, a);
    selected || linked
}

fn is_less(op: Op) -> bool
    ensures { IsTrue result ↔ ((op ≡ Op.Lt) ⊎ (op ≡ Op.Le)) }
{
    match op {
        Op::Lt | Op::Le => true,
        Op::Gt | Op::Ge | Op::Eq | Op::Ne => false,
    }
}

// Whether the class of a column stands at most on the left of a link, and then of `<` or `<=`.
#[tactic(auto, using(crate::proofs::Classing::left_at_told))]
fn is_left_at(closed: &ClosedSystem, link: ColumnLink, a: Attr) -> bool
    ensures { IsTrue result ↔ IsLeftAt (system closed.now) a link }
{
    let less = is_less(link.op);
    let left = closed.are_one_class(a, link.left);
    let right = closed.are_one_class(a, link.right);
    (less || !left) && !right
}

// Whether the class of a column stands at most on the right of a link, and then of `<` or `<=`.
#[tactic(auto, using(crate::proofs::Classing::right_at_told))]
fn is_right_at(closed: &ClosedSystem, link: ColumnLink, a: Attr) -> bool
    ensures { IsTrue result ↔ IsRightAt (system closed.now) a link }
{
    let less = is_less(link.op);
    let left = closed.are_one_class(a, link.left);
    let right = closed.are_one_class(a, link.right);
    (less || !right) && !left
}

// Whether it does so at each of some links.
fn is_left_at_each(closed: &ClosedSystem, links: &[ColumnLink], a: Attr) -> bool
    ensures { IsTrue result ↔ All (IsLeftAt (system closed.now) a) links.now }
{
    links.iter().all(|link| is_left_at(closed, *link, a))
}

fn is_right_at_each(closed: &ClosedSystem, links: &[ColumnLink], a: Attr) -> bool
    ensures { IsTrue result ↔ All (IsRightAt (system closed.now) a) links.now }
{
    links.iter().all(|link| is_right_at(closed, *link, a))
}

/// Returns whether the class of a column is not kept as it is, and its columns stand in links on the left of `<` and `<=` alone.
#[tactic(auto, using(crate::proofs::Classing::left_alone_told))]
pub fn is_left_alone(closed: &ClosedSystem, links: &[ColumnLink], a: Attr) -> bool
    ensures { IsTrue result ↔ IsLeftAlone closed.now (map atom_of links.now) a }
{
    let kept = is_kept_as_it_is(closed, links, a);
    let left = is_left_at_each(closed, links, a);
    !kept && left
}

/// Returns whether the class of a column is not kept as it is, and its columns stand in links on the right of `<` and `<=` alone.
#[tactic(auto, using(crate::proofs::Classing::right_alone_told))]
pub fn is_right_alone(closed: &ClosedSystem, links: &[ColumnLink], a: Attr) -> bool
    ensures { IsTrue result ↔ IsRightAlone closed.now (map atom_of links.now) a }
{
    let kept = is_kept_as_it_is(closed, links, a);
    let right = is_right_at_each(closed, links, a);
    !kept && right
}
