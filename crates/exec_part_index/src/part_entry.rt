//! What a row that is led along a chain meets at a part, in one place.
ghost use Rattle.std.specs.Prelude.{◌<◌, length};
ghost use Rattle.sem_query.specs.Parts.{pairs};
ghost use Rattle.exec_part_index.specs.Prepared.{ArePrepared};
ghost use Rattle.exec_part_index.specs.PartEntry.{IsSimpleBoxOf};
ghost use Rattle.exec_part_index.specs.SimpleBox.{IsSimpleBox};
ghost use Rattle.exec_synopsis.specs.Preparing.{IsPrepared};

use crate::prepared::prepared_of;
use crate::shift::Shift;
use crate::simple_box::{SimpleBox, simple_box_of};
use crate::span::Span;
use exec_synopsis::Prepared;
use sem_query::{PartPlan, PartPlans, Query, dims_at};

/// The box of a part and how far behind it that of the next one begins, its code, the next part, its remaining conditions, and whether the next one asks the same.
#[derive(Clone, Copy, Debug, PartialEq, Eq, Drop)]
pub struct PartEntry {
    pub simple_box: SimpleBox,
    pub shift: Option<Shift>,
    pub code: u32,
    pub next: u32,
    pub span: Span,
    pub follows: bool,
}

// The box of a part at a place where no cell is listed.
fn unlisted_box(part: &PartPlan, place: u8) -> SimpleBox
    ensures { IsSimpleBox part.now place result }
{
    match dims_at(part, usize::from(place)) {
        [dim] => SimpleBox::Range(*dim),
        _ => SimpleBox::Unlisted,
    }
}

// The box of a part at a place.
fn simple_box_in(q: &Query, part: &PartPlan, prepared: &Prepared, place: u8) -> SimpleBox
    requires { IsPrepared (pairs q.now) part.now prepared.now }
    ensures { IsSimpleBox part.now place result }
{
    // Named for the proof alone: the contract speaks of it.
    let _query = q;
    match prepared.places().get(usize::from(place)) {
        Some(listed) => simple_box_of(part, place, listed),
        None => unlisted_box(part, place),
    }
}

/// Returns the box of the part of a number at a place.
pub fn simple_box_at(
    q: &Query,
    parts: &PartPlans,
    prepared: &[Prepared],
    place: u8,
    i: u32,
) -> SimpleBox
    requires inside { i < length parts.now }
    requires prepared { ArePrepared (pairs q.now) parts.now prepared.now }
    ensures { IsSimpleBoxOf parts.now place i result }
{
    let prepared = prepared_of(q, parts, prepared, i);
    simple_box_in(q, parts.get(i), prepared, place)
}
