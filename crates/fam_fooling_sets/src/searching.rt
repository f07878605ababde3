//! A motion in which the links of a part keep rows apart.
ghost use Rattle.std.specs.Prelude.{◌≡◌, suc, ◌≤◌, Contains, length};
ghost use Rattle.sem_query.specs.declared.condition.Condition.TheVariants.{C3};
ghost use Rattle.sem_query.specs.Query.{attrs_of};
ghost use Rattle.sem_query.specs.Links.{IsInequality};
ghost use Rattle.plan_constraints.specs.Nodes.{place_of};
ghost use Rattle.plan_constraints.specs.Solutions.{IsSatisfiable};
ghost use Rattle.plan_links.specs.Known.{IsKnown};
ghost use Rattle.fam_fooling_sets.specs.Laws.{AreLocalFor};
ghost use Rattle.fam_fooling_sets.specs.Lowered.{IsBroken, IsWhole};
ghost use Rattle.fam_fooling_sets.specs.Moving.{IsMotionOf};
ghost use Rattle.fam_fooling_sets.specs.Passing.{IsTighter, IsFirstSolution, IsMotionBy, IfLess, AreLinks, CutsBetween, FindsBehind, FindsCut, IsSuited};

use crate::ground::value_of;
use crate::motion::{Motion, ends_of};
use crate::passing::{are_on_one_side, has_left, has_right, lie_beyond, value_in};
use arrayvec::ArrayVec;
use plan_closure::Bounds;
use plan_constraints::{Constraint, place_of};
use sem_query::{Attr, Link, Part, Query};

// A solution in which a node has its least value, or its greatest where there is no least, or 0.
fn first_solution(bounds: &Bounds, node: u8) -> ArrayVec<i128, 12>
    requires node { node ≤ bounds.now.attrs }
    requires satisfiable { IsSatisfiable bounds.now.constraints }
    ensures { IsFirstSolution bounds.now node result.items }
{
    let value = value_of(bounds.lo(node), bounds.hi(node), 0);
    match bounds.solve_at(node, value) {
        Some(values) => values,
        None => unreachable!(),
    }
}

// The node of an attribute.
fn node_of_attr(q: &Query, attr: Attr) -> u8
    requires { Contains (attrs_of q.now.atoms) attr }
    ensures value { result ≡ suc (place_of (attrs_of q.now.atoms) attr) }
    ensures within { result ≤ length (attrs_of q.now.atoms) }
{
    place_of(q.attrs(), attr) as u8 + 1
}

// A motion of a solution of bounds that are at least as tight as those of the part, with no cuts.
fn motion_of(q: &Query, p: &Part, bounds: &Bounds, attr: Attr, n: u16) -> Motion
    requires tighter { IsTighter q.now p.now.signs.items bounds.now }
    requires satisfiable { IsSatisfiable bounds.now.constraints }
    requires named { Contains (attrs_of q.now.atoms) attr }
    ensures { IsMotionBy q.now p.now.signs.items bounds.now n result }
{
    // Named for the proof alone: the contract speaks of it.
    let _part = p;
    let values = first_solution(bounds, node_of_attr(q, attr));
    let ends = ends_of(q.consts(), values.as_slice());
    Motion {
        values,
        low: ends.low,
        high: ends.high,
        lower_cut: -1_000_000_000_000_000_000,
        upper_cut: 1_000_000_000_000_000_000,
        n,
    }
}

// The bounds and one more, by which one attribute is less than another; none where no solution has it so.
fn with_less(q: &Query, p: &Part, bounds: &Bounds, x: Attr, y: Attr) -> Option<Bounds>
    requires known { IsKnown q.now p.now.signs.items bounds.now }
    requires whole { IsWhole q.now }
    requires left { Contains (attrs_of q.now.atoms) x }
    requires right { Contains (attrs_of q.now.atoms) y }
    ensures { IfLess q.now p.now.signs.items bounds.now x y result }
{
    // Named for the proof alone: the contract speaks of it.
    let _part = p;
    let mut tighter = bounds.copy();
    tighter.add(Constraint {
        left: node_of_attr(q, x),
        right: node_of_attr(q, y),
        bound: -1,
    });
    if tighter.satisfiable() {
        Some(tighter)
    } else {
        None
    }
}

// A motion that is cut at the right side of the first link, which is less than the left side of the second: what is greater moves back. None
// where no solution has it so, or a link does not lie beyond an end.
fn cut_between(
    q: &Query,
    p: &Part,
    bounds: &Bounds,
    first: Link,
    second: Link,
    attr: Attr,
    n: u16,
) -> Option<Motion>
    requires known { IsKnown q.now p.now.signs.items bounds.now }
    requires whole { IsWhole q.now }
    requires broken { IsBroken q.now p.now.signs.items C3 attr }
    requires first { IsInequality q.now p.now.signs.items first.left first.right }
    requires second { IsInequality q.now p.now.signs.items second.left second.right }
    ensures { CutsBetween q.now p.now.signs.items first second attr n result }
{
    if !are_on_one_side(attr.stream, first, second) {
        return None;
    }
    let tighter = match with_less(q, p, bounds, first.right, second.left) {
        Some(tighter) => tighter,
        None => return None,
    };
    let mut motion = motion_of(q, p, &tighter, attr, n);
    let cut = value_in(q, p, &motion, first.right);
    motion.upper_cut = cut;
    motion.lower_cut = cut + 1;
    if lie_beyond(q, p, &motion, first) && lie_beyond(q, p, &motion, second) {
        Some(motion)
    } else {
        None
    }
}

// The first such motion by a second link that is listed.
fn find_behind(
    q: &Query,
    p: &Part,
    bounds: &Bounds,
    links: &[Link],
    first: Link,
    attr: Attr,
    n: u16,
) -> Option<Motion>
    requires known { IsKnown q.now p.now.signs.items bounds.now }
    requires whole { IsWhole q.now }
    requires broken { IsBroken q.now p.now.signs.items C3 attr }
    requires links { AreLinks q.now p.now.signs.items links.now }
    requires first { IsInequality q.now p.now.signs.items first.left first.right }
    ensures { FindsBehind q.now p.now.signs.items links.now first attr n result }
{
    for j in 0..links.len() {
        match cut_between(q, p, bounds, first, links[j], attr, n) {
            Some(motion) => return Some(motion),
            None => {}
        }
    }
    None
}

// The first such motion by two links that are listed.
fn find_cut(
    q: &Query,
    p: &Part,
    bounds: &Bounds,
    links: &[Link],
    attr: Attr,
    n: u16,
) -> Option<Motion>
    requires known { IsKnown q.now p.now.signs.items bounds.now }
    requires whole { IsWhole q.now }
    requires broken { IsBroken q.now p.now.signs.items C3 attr }
    requires links { AreLinks q.now p.now.signs.items links.now }
    ensures { FindsCut q.now p.now.signs.items links.now attr n result }
{
    for i in 0..links.len() {
        match find_behind(q, p, bounds, links, links[i], attr, n) {
            Some(motion) => return Some(motion),
            None => {}
        }
    }
    None
}

/// Returns a motion of a solution of the part in which the column lies out and the links keep the rows of its stream apart.
pub fn find_motion(
    q: &Query,
    p: &Part,
    bounds: &Bounds,
    links: &[Link],
    attr: Attr,
    n: u16,
) -> Motion
    requires known { IsKnown q.now p.now.signs.items bounds.now }
    requires whole { IsWhole q.now }
    requires local { AreLocalFor q.now C3 }
    requires broken { IsBroken q.now p.now.signs.items C3 attr }
    requires links { AreLinks q.now p.now.signs.items links.now }
    ensures { IsSuited q.now p.now.signs.items attr n result }
{
    let mut motion = motion_of(q, p, bounds, attr, n);
    if !q.distinct() {
        return motion;
    }
    // What lies below the lower end moves back: so it rises towards that end, as what lies above the upper end rises from there.
    motion.lower_cut = motion.low;
    if has_left(q, p, &motion, links, attr.stream) && has_right(q, p, &motion, links, attr.stream) {
        return motion;
    }
    match find_cut(q, p, bounds, links, attr, n) {
        Some(motion) => motion,
        None => unreachable!(),
    }
}
