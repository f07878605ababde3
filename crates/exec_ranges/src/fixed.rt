//! Levels at which known columns fix every dim: one pass tells the only combination of values and the number of its cell.
//! Where the columns are the arriving row's own, they are listed with the part; else they are searched for among the links.
ghost use Rattle.std.specs.Prelude.{◌≡◌, ◌≢◌, ◌+◌, ◌<◌, ◌^◌, ◌≤ℤ◌, length, map, IfSome};
ghost use Rattle.sem_query.specs.Parts.{pairs};
ghost use Rattle.sem_query.specs.Boxes.{box_size, place_of};
ghost use Rattle.sem_query.specs.Plan.{stream_at};
ghost use Rattle.exec_ranges.specs.Lined.{IsFixed, AreFixed};
ghost use Rattle.exec_synopsis.specs.Pinning.{IsKeyColumn, IsPinned};
ghost use Rattle.exec_synopsis.specs.Preparing.{IsPrepared};
ghost use Rattle.exec_synopsis.specs.Premises.{IsLaidOut};
ghost use Rattle.exec_ranges.specs.Values.{value_in};
ghost use Rattle.exec_synopsis.specs.Narrowing.{narrow, narrowed_to};
ghost use Rattle.exec_ranges.specs.Narrowed.{narrowed_dims};

use crate::binding::Binding;
use crate::combination::dim_size;
use crate::lines::offset_of;
use crate::lists::Dims;
use crate::part::RowAt;
use crate::values::value_in;
use exec_synopsis::{binding_column, is_scan, may_look_up, stream_at};
use sem_query::{Dim, value_at};

// The dim with one value alone, if that is in its range.
fn pinned(dim: Dim, value: i64) -> Option<Dim>
    ensures { IfSome result (λ fixed. (fixed ≡ narrowed_to dim value) × (fixed.lo ≤ℤ fixed.hi)) }
{
    if value < dim.lo {
        return None;
    }
    if dim.hi < value {
        return None;
    }
    Some(Dim {
        attr: dim.attr,
        lo: value,
        hi: value,
    })
}

/// Puts into `dims` the dims of the next stream, where it is listed that known columns leave each of them one value, and tells the number of
/// the cell for these values.
pub fn fixed_dims(at: &RowAt<'_>, known: &[Binding], dims: &mut Dims) -> Option<u32>
    requires here { length known.now < length at.now.part.now.streams.items }
    requires other { length known.now ≢ at.now.arriving }
    requires prepared { IsPrepared (pairs at.now.q.now) at.now.part.now at.now.prepared.now }
    requires laid { IsLaidOut (stream_at at.now.part.now (length known.now)) (2 ^ 32) }
    ensures { IfSome result (λ first. AreFixed at.now.part.now (length known.now) (narrowed_dims (pairs at.now.q.now) at.now.part.now at.now.arriving at.now.row.now.items known.now) dims.new.items first) }
{
    if !may_look_up(at.prepared.access(at.arriving, known.len())) {
        return None;
    }
    let plan = stream_at(at.part, known.len());
    let links = at.part.equal.as_slice();
    let mut place: u32 = 0;
    dims.clear();
    'dims: for dim in plan.dims.as_slice() {
        let Some(column) = binding_column(at.arriving, known.len(), dim.attr, links) else {
            return None;
        };
        let Some(fixed) = pinned(*dim, value_in(at, known, column)) else {
            return None;
        };
        place = place * dim_size(*dim) + offset_of(*dim, fixed);
        dims.push(fixed);
    }
    Some(plan.base + place)
}

/// Puts into `dims` the dims of the next stream, where it is listed that the arriving row's own columns leave each of them
/// one value, and tells the number of the cell for these values.
pub fn pinned_dims(at: &RowAt<'_>, known: &[Binding], dims: &mut Dims) -> Option<u32>
    requires other { length known.now ≢ at.now.arriving }
    requires prepared { IsPrepared (pairs at.now.q.now) at.now.part.now at.now.prepared.now }
    requires laid { IsLaidOut (stream_at at.now.part.now (length known.now)) (2 ^ 32) }
    ensures { IfSome result (λ first. AreFixed at.now.part.now (length known.now) (narrowed_dims (pairs at.now.q.now) at.now.part.now at.now.arriving at.now.row.now.items known.now) dims.new.items first) }
{
    let Some(listed) = at.prepared.pinned(at.arriving, known.len()) else {
        return None;
    };
    let mut place: u32 = 0;
    dims.clear();
    'key_columns: for key_column in listed.key_columns.as_slice() {
        let value = value_at(at.row.as_slice(), key_column.column.column);
        let Some(fixed) = pinned(key_column.dim, value) else {
            return None;
        };
        place = place * dim_size(key_column.dim) + offset_of(key_column.dim, fixed);
        dims.push(fixed);
    }
    Some(listed.first + place)
}

/// Puts into `dims` the dims of the next stream, where it is listed that all their values are left and there is one
/// combination of them, and tells the number of the cell for it.
pub fn single_dims(at: &RowAt<'_>, known: &[Binding], dims: &mut Dims) -> Option<u32>
    requires here { length known.now < length at.now.part.now.streams.items }
    requires other { length known.now ≢ at.now.arriving }
    requires prepared { IsPrepared (pairs at.now.q.now) at.now.part.now at.now.prepared.now }
    requires laid { IsLaidOut (stream_at at.now.part.now (length known.now)) (2 ^ 32) }
    ensures { IfSome result (λ first. AreFixed at.now.part.now (length known.now) (narrowed_dims (pairs at.now.q.now) at.now.part.now at.now.arriving at.now.row.now.items known.now) dims.new.items first) }
{
    if !is_scan(at.prepared.access(at.arriving, known.len())) {
        return None;
    }
    let plan = stream_at(at.part, known.len());
    if plan.size != 1 {
        return None;
    }
    dims.copy_from(plan.dims.as_slice());
    Some(plan.base)
}
