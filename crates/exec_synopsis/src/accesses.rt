//! What the links with known columns leave at a place, listed when a part is prepared.
ghost use Rattle.std.specs.Prelude.{◌≡◌, ℕ, ◌&&◌, ◌||◌, true, length, map, Some, slice_get, slice_index_or, []};
ghost use Rattle.std.specs.List.{list_any, list_all};
ghost use Rattle.sem_query.specs.declared.atom.Attr.{Attr};
ghost use Rattle.sem_query.specs.Plan.{dims_at};
ghost use Rattle.exec_synopsis.specs.Pinning.{touches, is_free, IsWhole};
ghost use Rattle.exec_synopsis.specs.declared.accesses.PlaceAccess.{PlaceAccess};
ghost use Rattle.exec_synopsis.specs.declared.accesses.PlaceAccess.TheVariants as accesses;

use crate::known::{binding_column, is_known};
use arrayvec::ArrayVec;
use sem_query::{Attr, Dim, Link, PartPlan, dims_at, is_same};

/// What the links with known columns leave of the dims of a place.
#[derive(Clone, Copy, Debug, Default, PartialEq, Eq)]
pub enum PlaceAccess {
    /// What they leave is to be worked out for each row.
    #[default]
    General,
    /// One value of each dim: this is a hint, on which no answer rests.
    Lookup,
    /// All values of each dim.
    Scan,
}

/// Returns whether it is listed that one value of each dim is left. This is a hint, on which no answer rests.
pub fn may_look_up(listed: Option<PlaceAccess>) -> bool {
    match listed {
        Some(access) => match access {
            PlaceAccess::Lookup => true,
            PlaceAccess::Scan => false,
            PlaceAccess::General => false,
        },
        None => false,
    }
}

/// Returns whether it is listed that all values are left.
pub fn is_scan(listed: Option<PlaceAccess>) -> bool
    ensures { result ≡ true → listed ≡ Some accesses.Scan }
{
    match listed {
        Some(access) => match access {
            PlaceAccess::Scan => true,
            PlaceAccess::Lookup => false,
            PlaceAccess::General => false,
        },
        None => false,
    }
}

// Whether a link is between a column and a known one.
fn touches(arriving: u8, place: usize, a: Attr, link: Link) -> bool
    ensures { result ≡ touches arriving place a link }
{
    (is_same(link.left, a) && is_known(arriving, place, link.right))
        || (is_same(link.right, a) && is_known(arriving, place, link.left))
}

// Whether some link is.
fn any_touches(arriving: u8, place: usize, a: Attr, links: &[Link]) -> bool
    ensures { result ≡ list_any (touches arriving place a) links.now }
{
    links.iter().any(|link| touches(arriving, place, a, *link))
}

// Whether no link is between a dim and a known column.
fn is_free(part: &PartPlan, arriving: u8, place: usize, dim: Dim) -> bool
    ensures { result ≡ is_free part.now arriving place dim }
{
    !any_touches(arriving, place, dim.attr, part.equal.as_slice())
        && !any_touches(arriving, place, dim.attr, part.less.as_slice())
}

// Whether no link is between any of these dims and a known column.
fn all_free(part: &PartPlan, arriving: u8, place: usize, dims: &[Dim]) -> bool
    ensures { result ≡ list_all (is_free part.now arriving place) dims.now }
{
    dims.iter().all(|dim| is_free(part, arriving, place, *dim))
}

// Whether known columns fix all dims of a place.
fn are_fixed(part: &PartPlan, arriving: u8, place: usize, dims: &[Dim]) -> bool {
    dims.iter().all(|dim| binding_column(
        arriving,
        place,
        dim.attr,
        part.equal.as_slice(),
    ).is_some())
}

// What the links leave at a place; of the arriving row's own none is asked.
fn access_at(part: &PartPlan, arriving: u8, place: usize) -> PlaceAccess
    ensures { result ≡ accesses.Scan → IsWhole part.now arriving place }
{
    if place == usize::from(arriving) {
        return PlaceAccess::General;
    }
    let dims = dims_at(part, place);
    if all_free(part, arriving, place, dims) {
        return PlaceAccess::Scan;
    }
    if are_fixed(part, arriving, place, dims) {
        return PlaceAccess::Lookup;
    }
    PlaceAccess::General
}

// The same of each place.
fn accesses_at(part: &PartPlan, arriving: u8) -> ArrayVec<PlaceAccess, 4>
    ensures { (place : ℕ) (access : PlaceAccess) → slice_get result.items place ≡ Some access → access ≡ accesses.Scan → IsWhole part.now arriving place }
{
    let mut places: ArrayVec<PlaceAccess, 4> = ArrayVec::new();
    let streams = part.streams.as_slice().len();
    'places: for place in 0..streams {
        places.push(access_at(part, arriving, place));
    }
    places
}

/// Returns the same for each arriving stream. Of one stream alone none is asked: there is nothing to walk.
pub fn all_accesses(part: &PartPlan) -> ArrayVec<ArrayVec<PlaceAccess, 4>, 4>
    ensures { (arriving place : ℕ) (access : PlaceAccess) → slice_get (slice_index_or result.items arriving (record { items = [] })).items place ≡ Some access → access ≡ accesses.Scan → IsWhole part.now arriving place }
{
    let mut all: ArrayVec<ArrayVec<PlaceAccess, 4>, 4> = ArrayVec::new();
    let streams = part.streams.as_slice().len() as u8;
    if streams == 1 {
        return all;
    }
    'streams: for arriving in 0..streams {
        all.push(accesses_at(part, arriving));
    }
    all
}
