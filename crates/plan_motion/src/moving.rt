//! Whether values of a query move on so that answers must tell how far.
ghost use Rattle.std.specs.Prelude.{◌≡◌, ◌⊎◌, ◌↔◌, IsTrue, IsFalse};
ghost use Rattle.std.specs.List.{Any};
ghost use Rattle.sem_query.specs.declared.atom.Element.TheVariants as element;
ghost use Rattle.sem_whole.specs.System.{system};
ghost use Rattle.sem_split_bounds.specs.Steps.{NoTop, NoBottom, OneEnd};
ghost use Rattle.sem_split_bounds.specs.Moving.{IsLoose, LackOneEnd, AreBeside, ShareStream, MoveApart, HasMotion};
ghost use Rattle.plan_motion.specs.Moving.{LacksEnd, leads_right, leads_left, OfOneWay, OfStep, MovesWith, MovesWithOne, HasMoving, AreOpenAcross, IsOpenAcross, MovesBetween, MovesByTests};

use plan_split_parts::closed_query;
use plan_whole::ClosedSystem;
use sem_query::{Atom, Attr, Element, Op, Query};

// Whether a column lacks a greatest value.
fn lacks_top(closed: &ClosedSystem, a: Attr) -> bool
    ensures { IsTrue result ↔ NoTop (system closed.now) a }
{
    match closed.ends(a).hi {
        None => true,
        Some(_) => false,
    }
}

// Whether it lacks a least value.
fn lacks_bottom(closed: &ClosedSystem, a: Attr) -> bool
    ensures { IsTrue result ↔ NoBottom (system closed.now) a }
{
    match closed.ends(a).lo {
        None => true,
        Some(_) => false,
    }
}

// Whether it lacks an end.
#[tactic(auto, unfolding(crate::specs::Moving::LacksEnd))]
fn lacks_end(closed: &ClosedSystem, a: Attr) -> bool
    ensures { IsTrue result ↔ LacksEnd (system closed.now) a }
{
    lacks_top(closed, a) || lacks_bottom(closed, a)
}

// Whether no integer bounds how far a column is above another.
fn is_loose(closed: &ClosedSystem, x: Attr, y: Attr) -> bool
    ensures { IsTrue result ↔ IsLoose (system closed.now) x y }
{
    match closed.above(x, y) {
        None => true,
        Some(_) => false,
    }
}

// Whether two columns lack a greatest value.
fn lack_top(closed: &ClosedSystem, x: Attr, y: Attr) -> bool
    ensures { IsTrue result ↔ (NoTop (system closed.now) x × NoTop (system closed.now) y) }
{
    lacks_top(closed, x) && lacks_top(closed, y)
}

// Whether they lack a least value.
fn lack_bottom(closed: &ClosedSystem, x: Attr, y: Attr) -> bool
    ensures { IsTrue result ↔ (NoBottom (system closed.now) x × NoBottom (system closed.now) y) }
{
    lacks_bottom(closed, x) && lacks_bottom(closed, y)
}

// Whether they lack one end.
fn lack_one_end(closed: &ClosedSystem, x: Attr, y: Attr) -> bool
    ensures { IsTrue result ↔ LackOneEnd (system closed.now) x y }
{
    lack_top(closed, x, y) || lack_bottom(closed, x, y)
}

// Whether the left sides of two differences lack a greatest value, or the right sides a least.
fn is_one_end(closed: &ClosedSystem, x1: Attr, y1: Attr, x2: Attr, y2: Attr) -> bool
    ensures { IsTrue result ↔ OneEnd (system closed.now) x1 y1 x2 y2 }
{
    lack_top(closed, x1, x2) || lack_bottom(closed, y1, y2)
}

// Whether the left sides of two differences are of one stream, or the right sides.
fn are_beside(x1: Attr, y1: Attr, x2: Attr, y2: Attr) -> bool
    ensures { IsTrue result ↔ AreBeside x1 y1 x2 y2 }
{
    x1.stream == x2.stream || y1.stream == y2.stream
}

// Whether some sides are of one stream.
fn share_stream(x1: Attr, y1: Attr, x2: Attr, y2: Attr) -> bool
    ensures { IsTrue result ↔ ShareStream x1 y1 x2 y2 }
{
    are_beside(x1, y1, x2, y2) || are_beside(x1, y1, y2, x2)
}

// Whether a stream has the left side of the first and the right side of the second, which go to one end.
fn go_along(closed: &ClosedSystem, x1: Attr, y1: Attr, x2: Attr, y2: Attr) -> bool
    ensures { IsTrue result ↔ ((x1.stream ≡ y2.stream) × OneEnd (system closed.now) x1 y1 x2 y2) }
{
    x1.stream == y2.stream && is_one_end(closed, x1, y1, x2, y2)
}

// Whether a stream has both on one side, they go to one end, and nothing ties the second to the first.
fn go_past(closed: &ClosedSystem, x1: Attr, y1: Attr, x2: Attr, y2: Attr) -> bool
    ensures { IsTrue result ↔ (AreBeside x1 y1 x2 y2 × OneEnd (system closed.now) x1 y1 x2 y2 × IsLoose (system closed.now) x2 y1) }
{
    are_beside(x1, y1, x2, y2) && is_one_end(closed, x1, y1, x2, y2) && is_loose(closed, x2, y1)
}

// Whether the first goes up and the second down, and nothing ties them.
fn go_to_two_ends(closed: &ClosedSystem, x1: Attr, y2: Attr) -> bool
    ensures { IsTrue result ↔ (NoTop (system closed.now) x1 × NoBottom (system closed.now) y2 × IsLoose (system closed.now) x1 y2) }
{
    lacks_top(closed, x1) && lacks_bottom(closed, y2) && is_loose(closed, x1, y2)
}

// Whether a stream has sides of both, and they do.
fn go_apart(closed: &ClosedSystem, x1: Attr, y1: Attr, x2: Attr, y2: Attr) -> bool
    ensures { IsTrue result ↔ (ShareStream x1 y1 x2 y2 × NoTop (system closed.now) x1 × NoBottom (system closed.now) y2 × IsLoose (system closed.now) x1 y2) }
{
    share_stream(x1, y1, x2, y2) && go_to_two_ends(closed, x1, y2)
}

// Whether two differences move apart.
fn move_apart(closed: &ClosedSystem, x1: Attr, y1: Attr, x2: Attr, y2: Attr) -> bool
    ensures { IsTrue result ↔ MoveApart (system closed.now) x1 y1 x2 y2 }
{
    go_along(closed, x1, y1, x2, y2)
        || go_past(closed, x1, y1, x2, y2)
        || go_apart(closed, x1, y1, x2, y2)
}

// Whether an operator says that its left side is at most its right one.
fn leads_right(op: Op) -> bool
    ensures { result ≡ leads_right op }
{
    match op {
        Op::Lt | Op::Le | Op::Eq => true,
        Op::Gt | Op::Ge | Op::Ne => false,
    }
}

// Whether it says that its right side is at most its left one.
fn leads_left(op: Op) -> bool
    ensures { result ≡ leads_left op }
{
    match op {
        Op::Gt | Op::Ge | Op::Eq => true,
        Op::Lt | Op::Le | Op::Ne => false,
    }
}

// Whether a difference moves apart with the one that a comparison says of its left side.
fn moves_with_left(closed: &ClosedSystem, x: Attr, y: Attr, left: Attr, op: Op, right: Attr) -> bool
    ensures { IsTrue result ↔ (IsTrue (leads_right op) × MoveApart (system closed.now) x y left right) }
{
    leads_right(op) && move_apart(closed, x, y, left, right)
}

// Whether it does with the one that it says of its right side.
fn moves_with_right(
    closed: &ClosedSystem,
    x: Attr,
    y: Attr,
    left: Attr,
    op: Op,
    right: Attr,
) -> bool
    ensures { IsTrue result ↔ (IsTrue (leads_left op) × MoveApart (system closed.now) x y right left) }
{
    leads_left(op) && move_apart(closed, x, y, right, left)
}

// Whether it does with what a comparison of two columns says.
fn moves_with_columns(
    closed: &ClosedSystem,
    x: Attr,
    y: Attr,
    left: Attr,
    op: Op,
    right: Attr,
) -> bool
    ensures { IsTrue result ↔ OfOneWay (MoveApart (system closed.now) x y) left op right }
{
    moves_with_left(closed, x, y, left, op, right)
        || moves_with_right(closed, x, y, left, op, right)
}

// Whether it does with what a comparison of columns of two streams says.
fn moves_with_sides(
    closed: &ClosedSystem,
    x: Attr,
    y: Attr,
    left: Attr,
    op: Op,
    right: Attr,
) -> bool
    ensures { IsTrue result ↔ OfStep (MoveApart (system closed.now) x y) (element.Attr left) op (element.Attr right) }
{
    left.stream != right.stream && moves_with_columns(closed, x, y, left, op, right)
}

// Whether it does with what a comparison says.
fn moves_with(closed: &ClosedSystem, x: Attr, y: Attr, atom: &Atom) -> bool
    ensures { IsTrue result ↔ MovesWith (system closed.now) x y atom.now }
{
    match (atom.left, atom.right) {
        (Element::Attr(left), Element::Attr(right)) => moves_with_sides(
            closed, x, y, left, atom.op, right,
        ),
        (Element::Attr(_), Element::Const(_)) => false,
        (Element::Const(_), _) => false,
    }
}

// Whether it does with what one of the comparisons of a query says.
fn moves_with_one(closed: &ClosedSystem, q: &Query, x: Attr, y: Attr) -> bool
    ensures { IsTrue result ↔ MovesWithOne (system closed.now) q.now.atoms x y }
{
    q.atoms().iter().any(|t| moves_with(closed, x, y, t))
}

// Whether what a comparison says of its left side does.
fn left_moves(closed: &ClosedSystem, q: &Query, left: Attr, op: Op, right: Attr) -> bool
    ensures { IsTrue result ↔ (IsTrue (leads_right op) × MovesWithOne (system closed.now) q.now.atoms left right) }
{
    leads_right(op) && moves_with_one(closed, q, left, right)
}

// Whether what it says of its right side does.
fn right_moves(closed: &ClosedSystem, q: &Query, left: Attr, op: Op, right: Attr) -> bool
    ensures { IsTrue result ↔ (IsTrue (leads_left op) × MovesWithOne (system closed.now) q.now.atoms right left) }
{
    leads_left(op) && moves_with_one(closed, q, right, left)
}

// Whether what a comparison of two columns says does.
fn columns_move(closed: &ClosedSystem, q: &Query, left: Attr, op: Op, right: Attr) -> bool
    ensures { IsTrue result ↔ OfOneWay (MovesWithOne (system closed.now) q.now.atoms) left op right }
{
    left_moves(closed, q, left, op, right) || right_moves(closed, q, left, op, right)
}

// Whether what a comparison of columns of two streams says does.
fn sides_move(closed: &ClosedSystem, q: &Query, left: Attr, op: Op, right: Attr) -> bool
    ensures { IsTrue result ↔ OfStep (MovesWithOne (system closed.now) q.now.atoms) (element.Attr left) op (element.Attr right) }
{
    left.stream != right.stream && columns_move(closed, q, left, op, right)
}

// Whether what a comparison says does.
fn has_moving(closed: &ClosedSystem, q: &Query, atom: &Atom) -> bool
    ensures { IsTrue result ↔ HasMoving (system closed.now) q.now.atoms atom.now }
{
    match (atom.left, atom.right) {
        (Element::Attr(left), Element::Attr(right)) => sides_move(closed, q, left, atom.op, right),
        (Element::Attr(_), Element::Const(_)) => false,
        (Element::Const(_), _) => false,
    }
}

// Whether two differences of a query move apart.
fn has_two_moving(closed: &ClosedSystem, q: &Query) -> bool
    ensures { IsTrue result ↔ Any (HasMoving (system closed.now) q.now.atoms) q.now.atoms }
{
    q.atoms().iter().any(|t| has_moving(closed, q, t))
}

// Whether two columns are of two streams and lack one end.
fn are_open_across(closed: &ClosedSystem, left: Attr, right: Attr) -> bool
    ensures { IsTrue result ↔ AreOpenAcross (system closed.now) (element.Attr left) (element.Attr right) }
{
    left.stream != right.stream && lack_one_end(closed, left, right)
}

// Whether the sides of a comparison are.
fn is_open_across(closed: &ClosedSystem, atom: &Atom) -> bool
    ensures { IsTrue result ↔ IsOpenAcross (system closed.now) atom.now }
{
    match (atom.left, atom.right) {
        (Element::Attr(left), Element::Attr(right)) => are_open_across(closed, left, right),
        (Element::Attr(_), Element::Const(_)) => false,
        (Element::Const(_), _) => false,
    }
}

// Whether those of one of the comparisons of a query are.
fn has_open_across(closed: &ClosedSystem, q: &Query) -> bool
    ensures { IsTrue result ↔ Any (IsOpenAcross (system closed.now)) q.now.atoms }
{
    q.atoms().iter().any(|t| is_open_across(closed, t))
}

// Whether a query is without DISTINCT.
fn is_counted(q: &Query) -> bool
    ensures { IsTrue result ↔ IsFalse q.now.distinct }
{
    !q.distinct()
}

// Whether it is, and some of them are.
fn has_open_counted(closed: &ClosedSystem, q: &Query) -> bool
    ensures { IsTrue result ↔ (IsFalse q.now.distinct × Any (IsOpenAcross (system closed.now)) q.now.atoms) }
{
    is_counted(q) && has_open_across(closed, q)
}

// Whether a selected column lacks an end.
fn has_open_selected(closed: &ClosedSystem, q: &Query) -> bool
    ensures { IsTrue result ↔ Any (LacksEnd (system closed.now)) q.now.select }
{
    q.select().iter().any(|a| lacks_end(closed, *a))
}

// Whether without DISTINCT a comparison between streams is open, or two differences move apart.
fn moves_between(closed: &ClosedSystem, q: &Query) -> bool
    ensures { IsTrue result ↔ MovesBetween q.now (system closed.now) }
{
    has_open_counted(closed, q) || has_two_moving(closed, q)
}

// Whether a selected column is, or these do.
fn moves_by_tests(closed: &ClosedSystem, q: &Query) -> bool
    ensures { IsTrue result ↔ MovesByTests q.now (system closed.now) }
{
    has_open_selected(closed, q) || moves_between(closed, q)
}

// Whether values of a query move, by its closed system.
fn has_motion_over(closed: &ClosedSystem, q: &Query) -> bool
    requires { closed.now ≡ q.now }
    ensures { IsTrue result ↔ HasMotion q.now }
{
    moves_by_tests(closed, q)
}

/// Returns whether values of a query move on so that answers must tell how far: whether a selected column lacks an end, or without DISTINCT the sides of a
/// comparison between streams lack one end, or two differences between streams move apart.
pub fn has_motion(q: &Query) -> bool
    ensures { IsTrue result ↔ HasMotion q.now }
{
    match closed_query(q) {
        Some(closed) => has_motion_over(&closed, q),
        None => false,
    }
}
