//! Places of which columns of the arriving row alone fix all dims, listed when a part is prepared: a walk then reads the
//! values from the row, and searches no link.
ghost use Rattle.std.specs.Prelude.{◌≡◌, ◌<◌, ◌≤◌, ℕ, length, Option, Some, slice_get, IfSome, IfOk};
ghost use Rattle.sem_query.specs.Plan.{dims_at};
ghost use Rattle.exec_synopsis.specs.Pinning.{IsKeyColumn, AreKeyColumns, IsPinned};

use crate::admission::stream_at;
use crate::known::binding_column;
use arrayvec::ArrayVec;
use sem_query::{Attr, Dim, PartPlan, dims_at};
use std::alloc::{AllocError, Global};

/// A dim, and the column of the arriving row that fixes it.
#[derive(Clone, Copy, Debug, Default, PartialEq, Eq)]
pub struct KeyColumn {
    pub dim: Dim,
    pub column: Attr,
}

/// A place of FROM of which columns of the arriving row fix all dims: how, and the number of the first cell of its box.
#[derive(Drop, Default)]
pub struct LookupKey {
    pub key_columns: ArrayVec<KeyColumn, 2>,
    pub first: u32,
    pub place: u8,
}

// The dim with the column of the arriving row that fixes it, if one does.
fn key_column_of(part: &PartPlan, arriving: u8, place: u8, dim: Dim) -> Option<KeyColumn>
    ensures { IfSome result (λ key_column. (key_column.dim ≡ dim) × IsKeyColumn part.now arriving place key_column) }
{
    let Some(column) = binding_column(
        arriving,
        usize::from(place),
        dim.attr,
        part.equal.as_slice(),
    ) else {
        return None;
    };
    if column.stream == arriving {
        Some(KeyColumn { dim, column })
    } else {
        None
    }
}

// The dims of a place with the columns of the arriving row that fix them, where they are at most two and all are fixed so.
pub(crate) fn key_columns_at(
    part: &PartPlan,
    arriving: u8,
    place: u8,
) -> Option<ArrayVec<KeyColumn, 2>>
    ensures { IfSome result (λ key_columns. AreKeyColumns part.now arriving place (dims_at part.now place) key_columns.items) }
{
    let dims = dims_at(part, usize::from(place));
    let mut key_columns: ArrayVec<KeyColumn, 2> = ArrayVec::new();
    if dims.len() > 2 {
        return None;
    }
    'dims: for dim in dims {
        let Some(key_column) = key_column_of(part, arriving, place, *dim) else {
            return None;
        };
        key_columns.push(key_column);
    }
    Some(key_columns)
}

// What is listed of a place, if columns of the arriving row fix all its dims.
fn pinned_at(part: &PartPlan, arriving: u8, place: u8) -> Option<LookupKey>
    requires { place < length part.now.streams.items }
    ensures { IfSome result (λ pinned. IsPinned part.now arriving pinned) }
{
    let Some(key_columns) = key_columns_at(part, arriving, place) else {
        return None;
    };
    let first = stream_at(part, usize::from(place)).base;
    Some(LookupKey {
        key_columns,
        first,
        place,
    })
}

// The first place other than the arriving row's own of which columns of the row fix all dims, if there is one.
fn first_pinned(part: &PartPlan, arriving: u8) -> Option<LookupKey>
    ensures { IfSome result (λ pinned. IsPinned part.now arriving pinned) }
{
    let streams = part.streams.as_slice().len() as u8;
    'places: for place in 0..streams {
        if place != arriving {
            let pinned = pinned_at(part, arriving, place);
            if pinned.is_some() {
                return pinned;
            }
        }
    }
    None
}

/// Returns the same for each arriving stream. Of one stream alone none is asked: there is nothing to walk, and no memory is taken. An error
/// says that memory was not found.
pub fn all_pinned(alloc: Global, part: &PartPlan) -> Result<Vec<Option<LookupKey>>, AllocError>
    ensures { IfOk result (λ all. (arriving : ℕ) (pinned : Option LookupKey) → slice_get all.items arriving ≡ Some pinned → IfSome pinned (λ p. IsPinned part.now arriving p)) }
{
    let streams = part.streams.as_slice().len() as u8;
    if streams == 1 {
        return Ok(Vec::new(alloc));
    }
    let mut all: Vec<Option<LookupKey>> = Vec::with_capacity(alloc, usize::from(streams))?;
    'streams: for arriving in 0..streams {
        all.push(first_pinned(part, arriving))?;
    }
    Ok(all)
}
