//! The share of a part in the work of a row.
ghost use Rattle.std.specs.Prelude.{◌≡◌, ◌||◌, ◌==◌, if◌then◌else◌};
ghost use Rattle.std.specs.List.{list_any};
ghost use Rattle.sem_query.specs.Query.{attr_eq};
ghost use Rattle.sem_query.specs.Boxes.{dim_size, box_size};
ghost use Rattle.sem_query.specs.Numbers.{is_earlier_dim, is_fixed, free_dims, share_of, share};
ghost use Rattle.plan_layout.specs.Capped.{capped};

use crate::sizes::dim_size;
use sem_query::{Attr, Dim, PartPlan, dims_at, is_same};

// Whether the column names one of some dims.
fn names_dim(dims: &[Dim], attr: Attr) -> bool
    ensures { result ≡ list_any (λ d. attr_eq d.attr attr) dims.now }
{
    dims.iter().any(|d| is_same(d.attr, attr))
}

// Whether the column names a dim of a stream that stands earlier in FROM.
fn is_earlier_dim(part: &PartPlan, place: usize, attr: Attr) -> bool
    ensures { result ≡ is_earlier_dim part.now place attr }
{
    usize::from(attr.stream) < place && names_dim(dims_at(part, usize::from(attr.stream)), attr)
}

// Whether the column is of the arriving stream, or names a dim of a stream that stands earlier in FROM.
fn is_known(part: &PartPlan, arriving: usize, place: usize, attr: Attr) -> bool
    ensures { result ≡ ((attr.stream == arriving) || is_earlier_dim part.now place attr) }
{
    usize::from(attr.stream) == arriving || is_earlier_dim(part, place, attr)
}

// Whether a dim equals an attribute of the arriving stream, or a dim of a stream earlier in FROM.
fn is_fixed(part: &PartPlan, arriving: usize, place: usize, dim: Dim) -> bool
    ensures { result ≡ is_fixed part.now arriving place dim }
{
    part.equal.as_slice().iter().any(|l| (is_same(l.left, dim.attr)
        && is_known(part, arriving, place, l.right))
        || (is_same(l.right, dim.attr) && is_known(part, arriving, place, l.left)))
}

// How many values a dim has, 1 where it is fixed.
fn free_values(part: &PartPlan, arriving: usize, place: usize, dim: Dim) -> u64
    ensures { result ≡ capped (if is_fixed part.now arriving place dim then 1 else dim_size dim) }
{
    if is_fixed(part, arriving, place, dim) {
        1
    } else {
        dim_size(dim)
    }
}

// How many combinations of values the free dims of a stream have, 1 for the arriving stream.
fn free_size(part: &PartPlan, arriving: usize, place: usize) -> u64
    ensures { result ≡ capped (box_size (free_dims part.now arriving place)) }
{
    if place == arriving {
        return 1;
    }
    let dims = dims_at(part, place);
    let mut size: u64 = 1;
    'dims: for i in 0..dims.len() {
        size = size.saturating_mul(free_values(part, arriving, place, dims[i]));
    }
    size
}

// The share of a part for one arriving stream.
fn share_of(part: &PartPlan, arriving: usize) -> u64
    ensures { result ≡ capped (share_of part.now arriving) }
{
    let mut size: u64 = 1;
    'places: for place in 0..part.streams.len() {
        size = size.saturating_mul(free_size(part, arriving, place));
    }
    size
}

/// Returns the share of a part: the greatest over the arriving stream.
pub fn share(part: &PartPlan) -> u64
    ensures { result ≡ capped (share part.now) }
{
    let mut greatest: u64 = 0;
    'streams: for arriving in 0..part.streams.len() {
        greatest = greatest.max(share_of(part, arriving));
    }
    greatest
}
