//! Cells equally far apart that the links leave where a walk begins, and a look along them for the first that is not empty.
ghost use Rattle.std.specs.Prelude.{◌≡◌, ◌≢◌, ℤ, ◌⊎◌, ◌+◌, ◌*◌, ◌<◌, ◌≤◌, ◌^◌, ◌-ℤ◌, ◌≤ℤ◌, nat_abs, [], length, true, false, Some, IfSome};
ghost use Rattle.sem_query.specs.Parts.{pairs};
ghost use Rattle.sem_query.specs.Boxes.{dim_size, box_size};
ghost use Rattle.sem_query.specs.Plan.{stream_at, dims_at};
ghost use Rattle.exec_ranges.specs.Lined.{IsLine};
ghost use Rattle.exec_ranges.specs.Narrowed.{narrowed_dims};
ghost use Rattle.exec_ranges.specs.Values.{value_in};
ghost use Rattle.exec_join.specs.Along.{IsLongerLine};
ghost use Rattle.exec_join.specs.declared.along.Along.TheVariants as along;
ghost use Rattle.exec_synopsis.specs.Narrowing.{binding_column, narrow};
ghost use Rattle.exec_synopsis.specs.Premises.{IsLaidOut};
ghost use Rattle.exec_synopsis.specs.Preparing.{IsPrepared};

use exec_pool::Occupied;
use exec_ranges::{Binding, RowAt, dim_size, value_in};
use exec_synopsis::{binding_column, offset, stream_at};
use sem_query::{Attr, Dim, Link};

/// So many cells from one on, equally far apart.
#[derive(Clone, Copy, Debug, PartialEq, Eq, Drop)]
pub struct CellLine {
    pub first: u32,
    pub stride: u32,
    pub count: u32,
}

/// What a look along the cells where a walk begins comes to: it is not taken, all are empty, or this is the first that is not.
#[derive(Clone, Copy, Debug, Drop)]
pub enum Along {
    Unasked,
    Nothing,
    Found(Occupied),
}

impl CellLine {
    // Whether the line stays one with all values of one dim more.
    #[inline(always)]
    fn may_grow(self) -> bool
        ensures { result ≡ true → (self.count ≡ 1) ⊎ (self.stride ≡ 1) }
    {
        if self.count == 1 {
            return true;
        }
        self.stride == 1
    }
}

/// Returns whether it was seen that all cells are empty.
#[inline(always)]
pub fn is_nothing(seen: Along) -> bool
    ensures yes { result ≡ true → seen ≡ along.Nothing }
    ensures no { result ≡ false → seen ≡ along.Nothing → ⊥ }
{
    match seen {
        Along::Unasked => false,
        Along::Nothing => true,
        Along::Found(_) => false,
    }
}

// The place in a dim of the value of the known column that it equals, where that is one of its values.
fn bound_place(at: &RowAt<'_>, known: &[Binding], dim: Dim, column: Attr) -> Option<u32>
    requires prepared { IsPrepared (pairs at.now.q.now) at.now.part.now at.now.prepared.now }
    requires few { dim_size dim < 2 ^ 32 }
    requires bound { binding_column at.now.arriving (length known.now) dim.attr at.now.part.now.equal.items ≡ Some column }
    ensures { IfSome result (λ place. (place < dim_size dim) × ((v : ℤ) → (narrow at.now.arriving (length known.now) at.now.part.now.equal.items at.now.part.now.less.items (value_in (pairs at.now.q.now) at.now.part.now at.now.arriving at.now.row.now.items known.now) dim).lo ≤ℤ v → v ≤ℤ (narrow at.now.arriving (length known.now) at.now.part.now.equal.items at.now.part.now.less.items (value_in (pairs at.now.q.now) at.now.part.now at.now.arriving at.now.row.now.items known.now) dim).hi → nat_abs (v -ℤ dim.lo) ≡ place) × (dim_size (narrow at.now.arriving (length known.now) at.now.part.now.equal.items at.now.part.now.less.items (value_in (pairs at.now.q.now) at.now.part.now at.now.arriving at.now.row.now.items known.now) dim) ≡ 1)) }
{
    let value = value_in(at, known, column);
    if value < dim.lo {
        return None;
    }
    if dim.hi < value {
        return None;
    }
    Some(offset(dim, value))
}

// The line with one dim more, where it stays one: known columns leave one value of the dim, or say nothing of it.
#[inline(always)]
fn longer_line(at: &RowAt<'_>, known: &[Binding], dim: Dim, line: CellLine) -> Option<CellLine>
    requires prepared { IsPrepared (pairs at.now.q.now) at.now.part.now at.now.prepared.now }
    requires free { at.now.part.now.less.items ≡ [] }
    requires few { dim_size dim < 2 ^ 32 }
    requires fits { (line.first + 1) * dim_size dim < 2 ^ 32 }
    requires wide { line.count * dim_size dim < 2 ^ 32 }
    requires far { line.stride * dim_size dim < 2 ^ 32 }
    requires some { 1 ≤ line.stride }
    requires full { dim.lo ≤ℤ dim.hi }
    ensures { IfSome result (λ longer. IsLongerLine (narrow at.now.arriving (length known.now) at.now.part.now.equal.items at.now.part.now.less.items (value_in (pairs at.now.q.now) at.now.part.now at.now.arriving at.now.row.now.items known.now) dim) dim line longer) }
{
    let size = dim_size(dim);
    let Some(column) = binding_column(at.arriving, known.len(), dim.attr, at.part.equal.as_slice())
    else {
        if !line.may_grow() {
            return None;
        }
        return Some(CellLine {
            first: line.first * size,
            stride: 1,
            count: line.count * size,
        });
    };
    let Some(place) = bound_place(at, known, dim, column) else {
        return None;
    };
    Some(CellLine {
        first: line.first * size + place,
        stride: line.stride * size,
        count: line.count,
    })
}

// Whether a known column is equal to one dim.
#[inline(always)]
fn is_bound(at: &RowAt<'_>, known: &[Binding], dim: Dim) -> bool {
    binding_column(at.arriving, known.len(), dim.attr, at.part.equal.as_slice()).is_some()
}

/// Returns the cells that the links leave at the next place, where no inequality is one of them and the cells stand equally far apart; it may
/// not return them where they hardly do.
#[inline(always)]
pub fn line_ahead(at: &RowAt<'_>, known: &[Binding]) -> Option<CellLine>
    requires here { length known.now < length at.now.part.now.streams.items }
    requires other { length known.now ≢ at.now.arriving }
    requires prepared { IsPrepared (pairs at.now.q.now) at.now.part.now at.now.prepared.now }
    requires laid { IsLaidOut (stream_at at.now.part.now (length known.now)) (2 ^ 32) }
    ensures line { IfSome result (λ line. IsLine (stream_at at.now.part.now (length known.now)).base (dims_at at.now.part.now (length known.now)) (narrowed_dims (pairs at.now.q.now) at.now.part.now at.now.arriving at.now.row.now.items known.now) (record { first = line.first; stride = line.stride })) }
    ensures count { IfSome result (λ line. line.count ≡ box_size (narrowed_dims (pairs at.now.q.now) at.now.part.now at.now.arriving at.now.row.now.items known.now)) }
{
    if !at.part.less.as_slice().is_empty() {
        return None;
    }
    let plan = stream_at(at.part, known.len());
    // Where of three or more dims neither the first nor the last is bound, the cells mostly stand side by side and far from the next such
    // cells: that spares the look at the dims between.
    let dims = plan.dims.as_slice();
    if dims.len() > 2
        && !is_bound(at, known, dims[0])
        && !is_bound(at, known, dims[dims.len() - 1])
    {
        return None;
    }
    let mut line = CellLine {
        first: 0,
        stride: 1,
        count: 1,
    };
    'dims: for dim in plan.dims.as_slice() {
        let Some(next) = longer_line(at, known, *dim, line) else {
            return None;
        };
        line = next;
    }
    Some(CellLine {
        first: plan.base + line.first,
        stride: line.stride,
        count: line.count,
    })
}
