//! The search for assignments of which only the mixtures of the next number fail.
ghost use Rattle.std.specs.Prelude.{IfOk, IfSome};
ghost use Rattle.fam_motions.specs.Found.{AreApartAsNext};

use crate::base::base_of;
use crate::block::{differences, is_free, taken_with};
use crate::drift::{Block, Drift, run};
use crate::next::only_next_fail;
use crate::open::along;
use crate::searching::{Search, stride_of};
use crate::values::{Values, value_of};
use sem_query::{Atom, Attr, Element, Op, Query};
use std::alloc::{AllocError, Global};

// The sides of a `<>`, of which the first is of a place.
#[derive(Clone, Copy)]
struct Sides {
    here: Attr,
    elsewhere: Attr,
}

// Whether an operator is `<>`.
fn is_unequal(op: Op) -> bool {
    match op {
        Op::Ne => true,
        Op::Lt | Op::Eq | Op::Gt | Op::Le | Op::Ge => false,
    }
}

// The two columns in the order that has the one of the place first, where only one is of it.
fn sides_of(left: Attr, right: Attr, place: u8) -> Option<Sides> {
    if left.stream == right.stream {
        None
    } else if left.stream == place {
        Some(Sides {
            here: left,
            elsewhere: right,
        })
    } else if right.stream == place {
        Some(Sides {
            here: right,
            elsewhere: left,
        })
    } else {
        None
    }
}

// The sides of a comparison, where it is a `<>` between the place and another.
fn sides_at(atom: &Atom, place: u8) -> Option<Sides> {
    if !is_unequal(atom.op) {
        return None;
    }
    match (atom.left, atom.right) {
        (Element::Attr(left), Element::Attr(right)) => sides_of(left, right, place),
        (Element::Attr(_), Element::Const(_)) => None,
        (Element::Const(_), Element::Attr(_)) => None,
        (Element::Const(_), Element::Const(_)) => None,
    }
}

// The drift in which both sides go up, or down, and the one elsewhere has at each number what the one at the place has at the next. Two strides make one step,
// so that no other two values meet.
fn drift_of<'a>(search: &Search<'a>, sides: Sides, up: bool) -> Option<Drift<'a>> {
    let Sides { here, elsewhere } = sides;
    let list = differences(search.q);
    let first = taken_with(search.q, list.as_slice(), here, up);
    if !is_free(search.q, &first, up) {
        return None;
    }
    let second = taken_with(search.q, list.as_slice(), elsewhere, up);
    if !is_free(search.q, &second, up) {
        return None;
    }
    let attrs = search.q.attrs();
    let step = along(up, search.stride.saturating_mul(2));
    let between = value_of(attrs, search.base, here).saturating_sub(value_of(
        attrs,
        search.base,
        elsewhere,
    ));
    Some(Drift {
        base: search.base,
        first: Block {
            taken: first,
            start: step,
            step,
        },
        second: Block {
            taken: second,
            start: between.saturating_add(step).saturating_add(step),
            step,
        },
    })
}

// The values of all numbers where both sides are moved up, or down, if only the mixtures of the next number fail.
fn moved(
    alloc: Global,
    search: &Search,
    place: u8,
    sides: Sides,
    up: bool,
) -> Result<Option<Vec<Values>>, AllocError>
    ensures { IfOk result (λ found. IfSome found (λ all. AreApartAsNext search.now.q.now place search.now.n all.items)) }
{
    let drift = match drift_of(search, sides, up) {
        Some(drift) => drift,
        None => return Ok(None),
    };
    match run(alloc, search.q, &drift, search.n)? {
        Some(all) => {
            if only_next_fail(search.q, &all, place) {
                Ok(Some(all))
            } else {
                Ok(None)
            }
        }
        None => Ok(None),
    }
}

// The same up or down.
fn moved_either_way(
    alloc: Global,
    search: &Search,
    place: u8,
    sides: Sides,
) -> Result<Option<Vec<Values>>, AllocError>
    ensures { IfOk result (λ found. IfSome found (λ all. AreApartAsNext search.now.q.now place search.now.n all.items)) }
{
    match moved(alloc, search, place, sides, true)? {
        Some(all) => Ok(Some(all)),
        None => moved(alloc, search, place, sides, false),
    }
}

// The same by one of the comparisons of the query.
fn moved_by_any(
    alloc: Global,
    search: &Search,
    place: u8,
) -> Result<Option<Vec<Values>>, AllocError>
    ensures { IfOk result (λ found. IfSome found (λ all. AreApartAsNext search.now.q.now place search.now.n all.items)) }
{
    for atom in search.q.atoms() {
        match sides_at(atom, place) {
            Some(sides) => match moved_either_way(alloc, search, place, sides)? {
                Some(all) => return Ok(Some(all)),
                None => {}
            },
            None => {}
        }
    }
    Ok(None)
}

/// Returns the values of so many numbers that satisfy the query, and so do all mixtures with one number at a place of FROM and another elsewhere but those
/// of which the number at the place is the next after the other, or none where none are found. An error says that memory was not found.
pub fn apart_as_next(
    alloc: Global,
    q: &Query,
    place: u8,
    n: u16,
) -> Result<Option<Vec<Values>>, AllocError>
    ensures { IfOk result (λ found. IfSome found (λ all. AreApartAsNext q.now place n all.items)) }
{
    let base = match base_of(q) {
        Some(base) => base,
        None => return Ok(None),
    };
    let search = Search {
        q,
        base: base.as_slice(),
        stride: stride_of(q, base.as_slice()),
        n,
    };
    moved_by_any(alloc, &search, place)
}
