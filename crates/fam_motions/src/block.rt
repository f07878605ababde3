//! Attributes that move together.
ghost use Rattle.std.specs.Prelude.{◌≤◌, length};

use arrayvec::ArrayVec;
use plan_constraints::place_of;
use sem_query::{Atom, Attr, Element, Op, Query, is_same};

/// One attribute that is at most another wherever the query is satisfied.
#[derive(Clone, Copy, Debug, Default, PartialEq, Eq)]
pub struct Difference {
    pub left: Attr,
    pub right: Attr,
}

/// What the comparisons of a query say so.
pub type Differences = ArrayVec<Difference, 32>;

/// Which attributes are taken along, by their places.
pub type Taken = [bool; 13];

// Adds one.
fn add(list: &mut Differences, left: Attr, right: Attr) {
    // Two for each of at most sixteen comparisons: there is room.
    let _full = list.try_push(Difference { left, right });
}

// Adds what a comparison of two columns says.
fn add_columns(list: &mut Differences, left: Attr, op: Op, right: Attr) {
    match op {
        Op::Lt | Op::Le => add(list, left, right),
        Op::Gt | Op::Ge => add(list, right, left),
        Op::Eq => {
            add(list, left, right);
            add(list, right, left);
        }
        Op::Ne => {}
    }
}

/// Returns what the comparisons of a query say to be at most something else.
pub fn differences(q: &Query) -> Differences {
    let mut list = Differences::new();
    for atom in q.atoms() {
        match (atom.left, atom.right) {
            (Element::Attr(left), Element::Attr(right)) => add_columns(
                &mut list, left, atom.op, right,
            ),
            (Element::Attr(_), Element::Const(_)) => {}
            (Element::Const(_), Element::Attr(_)) => {}
            (Element::Const(_), Element::Const(_)) => {}
        }
    }
    list
}

// Takes along, once, what each difference leads to.
fn take_along(attrs: &[Attr], differences: &[Difference], up: bool, taken: &mut Taken)
    requires { length attrs.now ≤ 12 }
{
    for difference in differences {
        let (from, to) = if up {
            (difference.left, difference.right)
        } else {
            (difference.right, difference.left)
        };
        if taken[place_of(attrs, from)] {
            taken[place_of(attrs, to)] = true;
        }
    }
}

/// Returns what must move up with an attribute, or down with it.
pub fn taken_with(q: &Query, differences: &[Difference], attr: Attr, up: bool) -> Taken {
    let attrs = q.attrs();
    let mut taken = [false; 13];
    taken[place_of(attrs, attr)] = true;
    for _ in 0..attrs.len() {
        take_along(attrs, differences, up, &mut taken);
    }
    taken
}

// Whether a comparison with an integer on its right gives an upper end, or a lower one.
fn ends(op: Op, up: bool) -> bool {
    match op {
        Op::Lt | Op::Le => up,
        Op::Gt | Op::Ge => !up,
        Op::Eq => true,
        Op::Ne => false,
    }
}

// Whether a comparison gives an attribute an upper end, or a lower one, by an integer.
fn ends_by(atom: &Atom, attr: Attr, up: bool) -> bool {
    match (atom.left, atom.right) {
        (Element::Attr(left), Element::Const(_)) => is_same(left, attr) && ends(atom.op, up),
        (Element::Const(_), Element::Attr(right)) => is_same(right, attr) && ends(atom.op, !up),
        (Element::Attr(_), Element::Attr(_)) => false,
        (Element::Const(_), Element::Const(_)) => false,
    }
}

// Whether the text gives an attribute an upper end, or a lower one.
fn has_end(q: &Query, attr: Attr, up: bool) -> bool {
    for domain in q.domains() {
        if is_same(domain.attr, attr) {
            return true;
        }
    }
    q.atoms().iter().any(|t| ends_by(t, attr, up))
}

/// Returns whether none of what moves has an end on the way.
pub fn is_free(q: &Query, taken: &Taken, up: bool) -> bool {
    let attrs = q.attrs();
    for place in 0..attrs.len() {
        if taken[place] && has_end(q, attrs[place], up) {
            return false;
        }
    }
    true
}

/// Returns whether two blocks have an attribute in common.
pub fn meet(one: &Taken, other: &Taken) -> bool {
    for place in 0..13 {
        if one[place] && other[place] {
            return true;
        }
    }
    false
}
