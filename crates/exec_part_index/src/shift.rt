//! Boxes of two parts at one place of FROM that are the same but for where they begin: a row stands at the same place in both.
ghost use Rattle.std.specs.Prelude.{◌≡◌, ◌+◌, IfSome};
ghost use Rattle.sem_query.specs.Parts.{pairs};
ghost use Rattle.sem_query.specs.Sharing.{same_dim, same_dims};
ghost use Rattle.exec_synopsis.specs.Preparing.{IsPrepared};
ghost use Rattle.exec_synopsis.specs.Axes.{IsBoxLayout};
ghost use Rattle.exec_part_index.specs.Shift.{IsShifted, placed};

use crate::owners::base_at;
use exec_synopsis::{BoxLayout, Placement, Prepared};
use sem_query::{Dim, Kind, PartPlan, Query, dims_at, is_same};

/// The cell that a row falls into, and what it keeps of rows.
#[derive(Clone, Copy, Debug, PartialEq, Eq, Drop)]
pub struct CellAt {
    pub number: u32,
    pub kind: Kind,
}

/// How many cells later the box of a part begins than that of another, and what its cells keep of rows.
#[derive(Clone, Copy, Debug, PartialEq, Eq, Drop)]
pub struct Shift {
    pub cells: u32,
    pub kind: Kind,
}

impl CellAt {
    /// Returns where the row stands.
    pub fn placement(self) -> Placement
        ensures { result ≡ placed self }
    {
        Placement::Cell {
            number: self.number,
            kind: self.kind,
        }
    }
}

// Whether two dims are the same.
fn is_dim(dim: Dim, other: Dim) -> bool
    ensures { result ≡ same_dim dim other }
{
    is_same(dim.attr, other.attr) && dim.lo == other.lo && dim.hi == other.hi
}

// Whether the dims are the same.
fn are_dims(dims: &[Dim], others: &[Dim]) -> bool
    ensures { result ≡ same_dims dims.now others.now }
{
    let [dim, dims @ ..] = dims else {
        return others.is_empty();
    };
    let [other, others @ ..] = others else {
        return false;
    };
    is_dim(*dim, *other) && are_dims(dims, others)
}

// How many cells later a box begins.
fn shift_of(from: u32, to: u32, kind: Kind) -> Option<Shift>
    ensures { IfSome result (λ shift. (to ≡ from + shift.cells) × (shift.kind ≡ kind)) }
{
    if from <= to {
        Some(Shift {
            cells: to - from,
            kind,
        })
    } else {
        None
    }
}

// How many cells later the box of a part begins, by what a row is asked there.
fn shift_to(part: &PartPlan, other: &PartPlan, listed: &BoxLayout, place: u8) -> Option<Shift>
    requires { IsBoxLayout other.now place listed.now }
    ensures { IfSome result (λ shift. IsShifted part.now other.now place shift) }
{
    let at = usize::from(place);
    if are_dims(dims_at(part, at), dims_at(other, at)) {
        shift_of(base_at(part, place), listed.base, listed.kind)
    } else {
        None
    }
}

/// Returns how many cells later the box of a part begins than that of another, where both have the same dims and cells of 32 bits.
pub fn shift_between(
    q: &Query,
    part: &PartPlan,
    other: &PartPlan,
    prepared: &Prepared,
    place: u8,
) -> Option<Shift>
    requires { IsPrepared (pairs q.now) other.now prepared.now }
    ensures { IfSome result (λ shift. IsShifted part.now other.now place shift) }
{
    // Named for the proof alone: the contract speaks of it.
    let _query = q;
    match prepared.places().get(usize::from(place)) {
        Some(listed) => shift_to(part, other, listed, place),
        None => None,
    }
}
