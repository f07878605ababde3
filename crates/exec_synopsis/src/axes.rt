//! The dims of a place of FROM as every row is asked of them: one pass tells whether a row lies in their ranges, and the number of its cell.
ghost use Rattle.std.specs.Prelude.{◌≡◌, ◌+◌, ◌<◌, ◌^◌, ◌≤ℤ◌, length, [], MatchOption, IfSome, IfOk, true, false};
ghost use Rattle.std.specs.List.{list_all};
ghost use Rattle.sem_query.specs.Boxes.{dim_size, box_size};
ghost use Rattle.sem_query.specs.Meaning.{by_column};
ghost use Rattle.sem_query.specs.Plan.{dims_at};
ghost use Rattle.sem_query.specs.Admission.{in_range};
ghost use Rattle.sem_query.specs.Cells.{row_place};
ghost use Rattle.exec_synopsis.specs.Axes.{axis_of, IsShort, IsAbove, AreAxes, IsBoxLayout, AreBoxLayouts, IsPlacement, is_inside};

use crate::admission::stream_at;
use arrayvec::ArrayVec;
use sem_query::{Dim, Kind, PartPlan, value_at};
use std::alloc::{AllocError, Global};

/// A dim as a row is asked of it: the least value, how many values there are, and the column.
#[derive(Clone, Copy, Debug, Default, PartialEq, Eq)]
pub struct Axis {
    pub lo: i64,
    pub size: u32,
    pub column: u8,
}

/// What a row is asked at a place of FROM: the dims, the first cell of their box, and what its cells keep.
#[derive(Drop, Default)]
pub struct BoxLayout {
    pub axes: ArrayVec<Axis, 4>,
    pub base: u32,
    pub kind: Kind,
}

/// Where a row stands in a part.
#[derive(Clone, Copy, Debug, PartialEq, Eq)]
pub enum Placement {
    /// It is not admitted.
    Outside,
    /// It is admitted, and no number of a cell is told.
    Inside,
    /// It is admitted, and its cell has this number and is of this kind.
    Cell { number: u32, kind: Kind },
}

impl Placement {
    /// Returns whether the row is admitted.
    pub fn is_inside(self) -> bool
        ensures { result ≡ is_inside self }
    {
        match self {
            Placement::Outside => false,
            Placement::Inside => true,
            Placement::Cell { .. } => true,
        }
    }
}

// How many values a dim has, where there are some and 32 bits hold their number.
fn size_of(dim: Dim) -> Option<u32>
    ensures { IfSome result (λ size. (size ≡ dim_size dim) × (dim.lo ≤ℤ dim.hi)) }
{
    match dim.hi.checked_sub(dim.lo) {
        Some(width) if (0..i64::from(u32::MAX)).contains(&width) => Some(width as u32 + 1),
        _ => None,
    }
}

// A dim as a row is asked of it, where 32 bits hold the number of its values.
fn axis_of(dim: Dim) -> Option<Axis>
    ensures { IfSome result (λ axis. (axis ≡ axis_of dim) × (dim.lo ≤ℤ dim.hi) × IsShort axis) }
{
    match size_of(dim) {
        Some(size) => Some(Axis {
            lo: dim.lo,
            size,
            column: dim.attr.column,
        }),
        None => None,
    }
}

// How far the value of a dim is above its least one, where it is in range.
fn offset_in(axis: Axis, row: &[i64]) -> Option<u32>
    requires { IsShort axis }
    ensures { IsAbove (by_column row.now axis.column) axis result }
{
    let offset = value_at(row, axis.column).wrapping_sub(axis.lo);
    if 0 <= offset && offset < i64::from(axis.size) {
        Some(offset as u32)
    } else {
        None
    }
}

// The place of a row in the box of these dims, where it lies in their ranges.
#[inline(always)]
pub(crate) fn place_among(dims: &[Dim], axes: &[Axis], row: &[i64]) -> Option<u32>
    requires axes { AreAxes dims.now axes.now }
    requires few { box_size dims.now < 2 ^ 32 }
    ensures { MatchOption result (list_all (in_range (by_column row.now)) dims.now ≡ false) (λ place. (list_all (in_range (by_column row.now)) dims.now ≡ true) × (place ≡ row_place dims.now (by_column row.now)) × (place < box_size dims.now)) }
{
    // Named for the proof alone: the contract speaks of it.
    let _dims = dims;
    let mut place: u32 = 0;
    'axes: for axis in axes {
        let Some(offset) = offset_in(*axis, row) else {
            return None;
        };
        place = place * axis.size + offset;
    }
    Some(place)
}

// Puts the dims into a list as a row is asked of them, and tells how many cells their box has. It gives up where there is no room, or
// where 32 bits do not hold that number.
pub(crate) fn put_axes(dims: &[Dim], axes: &mut ArrayVec<Axis, 4>) -> Option<u32>
    requires { axes.old.items ≡ [] }
    ensures { IfSome result (λ cells. AreAxes dims.now axes.new.items × (cells ≡ box_size dims.now)) }
{
    if dims.len() > 4 {
        return None;
    }
    let mut cells: u32 = 1;
    'dims: for dim in dims {
        let Some(axis) = axis_of(*dim) else {
            return None;
        };
        let Some(more) = cells.checked_mul(axis.size) else {
            return None;
        };
        cells = more;
        axes.push(axis);
    }
    Some(cells)
}

// Whether 32 bits hold the numbers of so many cells from the first one on.
pub(crate) fn are_numbered(base: u32, cells: u32) -> bool
    ensures { result ≡ true → base + cells < 2 ^ 32 }
{
    cells <= u32::MAX - base
}

// What a row is asked at a place of FROM.
fn place_at(part: &PartPlan, place: usize) -> Option<BoxLayout>
    requires here { place < length part.now.streams.items }
    requires several { 1 < length part.now.streams.items }
    ensures { IfSome result (λ listed. IsBoxLayout part.now place listed) }
{
    let plan = stream_at(part, place);
    let mut axes: ArrayVec<Axis, 4> = ArrayVec::new();
    let Some(cells) = put_axes(plan.dims.as_slice(), &mut axes) else {
        return None;
    };
    if !are_numbered(plan.base, cells) {
        return None;
    }
    Some(BoxLayout {
        axes,
        base: plan.base,
        kind: plan.kind,
    })
}

/// Returns what a row is asked at each place of FROM, up to the first place where it cannot be listed. A query over one stream has no cells, and
/// nothing is listed, and no memory taken. An error says that memory was not found.
pub fn places_of(alloc: Global, part: &PartPlan) -> Result<Vec<BoxLayout>, AllocError>
    ensures { IfOk result (λ places. AreBoxLayouts part.now places.items) }
{
    let streams = part.streams.as_slice().len();
    if streams == 1 {
        return Ok(Vec::new(alloc));
    }
    let mut places: Vec<BoxLayout> = Vec::with_capacity(alloc, streams)?;
    'places: for place in 0..streams {
        match place_at(part, place) {
            Some(listed) => places.push(listed)?,
            None => return Ok(places),
        }
    }
    Ok(places)
}

/// Returns where a row stands, by what it is asked at its place.
#[inline(always)]
pub fn placement_at(part: &PartPlan, pos: u8, listed: &BoxLayout, row: &[i64]) -> Placement
    requires here { pos < length part.now.streams.items }
    requires listed { IsBoxLayout part.now pos listed.now }
    ensures { IsPlacement part.now pos row.now (list_all (in_range (by_column row.now)) (dims_at part.now pos)) result }
{
    let plan = stream_at(part, usize::from(pos));
    match place_among(plan.dims.as_slice(), listed.axes.as_slice(), row) {
        Some(place) => Placement::Cell {
            number: listed.base + place,
            kind: listed.kind,
        },
        None => Placement::Outside,
    }
}
