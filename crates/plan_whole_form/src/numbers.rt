//! The numbers of a part, from the dims of its streams and its links `=`.
ghost use Rattle.std.specs.Prelude.{◌≡◌, ◌||◌, ◌==◌, if◌then◌else◌, [], map};
ghost use Rattle.std.specs.List.{list_any, sum_by, slice_index_or};
ghost use Rattle.sem_query.specs.Query.{attr_eq};
ghost use Rattle.sem_query.specs.Boxes.{dim_size, box_size};
ghost use Rattle.sem_query.specs.Numbers.{is_earlier_dim, is_fixed, free_dims, share_of, share};
ghost use Rattle.plan_whole_form.specs.Numbers.{capped, part_with, cells_with, dims_in};

use crate::part::WholeStream;
use crate::sizes::{box_size, dim_size};
use sem_query::{Attr, Dim, Link, is_same};

/// How many cells and different answers a part has, and how many combinations of cells a row meets in it at most, each as 64 bits keep it.
#[derive(Clone, Copy, Debug, Default, PartialEq, Eq)]
pub struct PartNumbers {
    pub cells: u64,
    pub answers: u64,
    pub work: u64,
}

// The dims of the stream at a place, none where there is no such place.
fn dims_at(streams: &[WholeStream], place: usize) -> &[Dim]
    ensures { result.now ≡ slice_index_or (dims_in streams.now) place [] }
{
    match streams.get(place) {
        Some(stream) => stream.dims.as_slice(),
        None => &[],
    }
}

// Whether the column names one of some dims.
fn names_dim(dims: &[Dim], attr: Attr) -> bool
    ensures { result ≡ list_any (λ d. attr_eq d.attr attr) dims.now }
{
    dims.iter().any(|d| is_same(d.attr, attr))
}

// Whether the column names a dim of a stream that stands earlier in FROM.
fn is_earlier_dim(streams: &[WholeStream], place: usize, attr: Attr) -> bool
    ensures { result ≡ is_earlier_dim (part_with (dims_in streams.now) []) place attr }
{
    usize::from(attr.stream) < place && names_dim(dims_at(streams, usize::from(attr.stream)), attr)
}

// Whether the column is of the arriving stream, or names a dim of a stream that stands earlier in FROM.
fn is_known(streams: &[WholeStream], arriving: usize, place: usize, attr: Attr) -> bool
    ensures { result ≡ ((attr.stream == arriving) || is_earlier_dim (part_with (dims_in streams.now) []) place attr) }
{
    usize::from(attr.stream) == arriving || is_earlier_dim(streams, place, attr)
}

// Whether a dim equals an attribute of the arriving stream, or a dim of a stream earlier in FROM.
fn is_fixed(
    streams: &[WholeStream],
    equal: &[Link],
    arriving: usize,
    place: usize,
    dim: Dim,
) -> bool
    ensures { result ≡ is_fixed (part_with (dims_in streams.now) equal.now) arriving place dim }
{
    equal.iter().any(|l| (is_same(l.left, dim.attr) && is_known(streams, arriving, place, l.right))
        || (is_same(l.right, dim.attr) && is_known(streams, arriving, place, l.left)))
}

// How many values a dim has, 1 where it is fixed.
fn free_values(
    streams: &[WholeStream],
    equal: &[Link],
    arriving: usize,
    place: usize,
    dim: Dim,
) -> u64
    ensures { result ≡ capped (if is_fixed (part_with (dims_in streams.now) equal.now) arriving place dim then 1 else dim_size dim) }
{
    if is_fixed(streams, equal, arriving, place, dim) {
        1
    } else {
        dim_size(dim)
    }
}

// How many combinations of values the free dims of a stream have, 1 for the arriving stream.
fn free_size(streams: &[WholeStream], equal: &[Link], arriving: usize, place: usize) -> u64
    ensures { result ≡ capped (box_size (free_dims (part_with (dims_in streams.now) equal.now) arriving place)) }
{
    if place == arriving {
        return 1;
    }
    let dims = dims_at(streams, place);
    let mut size: u64 = 1;
    'dims: for i in 0..dims.len() {
        size = size.saturating_mul(free_values(streams, equal, arriving, place, dims[i]));
    }
    size
}

// The share of a part for one arriving stream.
fn share_of(streams: &[WholeStream], equal: &[Link], arriving: usize) -> u64
    ensures { result ≡ capped (share_of (part_with (dims_in streams.now) equal.now) arriving) }
{
    let mut size: u64 = 1;
    'places: for place in 0..streams.len() {
        size = size.saturating_mul(free_size(streams, equal, arriving, place));
    }
    size
}

// The share of a part: the greatest over the arriving stream.
fn share(streams: &[WholeStream], equal: &[Link]) -> u64
    ensures { result ≡ capped (share (part_with (dims_in streams.now) equal.now)) }
{
    let mut greatest: u64 = 0;
    'streams: for arriving in 0..streams.len() {
        greatest = greatest.max(share_of(streams, equal, arriving));
    }
    greatest
}

// How many cells all streams have.
fn sizes(streams: &[WholeStream]) -> u64
    ensures { result ≡ capped (sum_by box_size (dims_in streams.now)) }
{
    let mut size: u64 = 0;
    'sizes: for i in 0..streams.len() {
        size = size.saturating_add(box_size(streams[i].dims.as_slice()));
    }
    size
}

// How many cells a part has: that of a query over one stream keeps none.
fn cells(streams: &[WholeStream]) -> u64
    ensures { result ≡ capped (cells_with (dims_in streams.now)) }
{
    if streams.len() == 1 {
        0
    } else {
        sizes(streams)
    }
}

/// Returns the numbers of a part with these streams and these links `=`, where the different selected columns have these ranges.
pub fn numbers_of(streams: &[WholeStream], equal: &[Link], selected: &[Dim]) -> PartNumbers
    ensures cells { result.cells ≡ capped (cells_with (dims_in streams.now)) }
    ensures answers { result.answers ≡ capped (box_size selected.now) }
    ensures work { result.work ≡ capped (share (part_with (dims_in streams.now) equal.now)) }
{
    PartNumbers {
        cells: cells(streams),
        answers: box_size(selected),
        work: share(streams, equal),
    }
}
