//! The numbers of the cells of one stream: a box of values, the last dim running fastest.

ghost use Rattle.std.specs.Prelude.{◌≡◌, ◌+◌, ◌-◌, ◌<◌, ◌≤◌, ◌^◌, length, get_or, drop, nat_abs, List, ℤ, pos, ◌+ℤ◌, ◌-ℤ◌, ◌≤ℤ◌};
ghost use Rattle.sem_query.specs.Boxes.{dim_size, box_size, place_of, values_at, AreInside, AreNumbered, AreFull};

use crate::plan::{Dim, StreamPlan};
use arrayvec::ArrayVec;

// The number of values of a dim.
fn dim_size(dim: Dim) -> u32
    requires { dim_size dim < 2 ^ 32 }
    ensures { result ≡ dim_size dim }
{
    if dim.lo <= dim.hi {
        (dim.hi - dim.lo) as u32 + 1
    } else {
        0
    }
}

/// Returns the number of combinations of values.
pub fn size_of(dims: &[Dim]) -> u32
    requires { AreNumbered dims.now }
    ensures { result ≡ box_size dims.now }
{
    let mut size: u32 = 1;
    let mut i = dims.len();
    'sizes: while i > 0 {
        i -= 1;
        size *= dim_size(dims[i]);
    }
    size
}

// How far a value is above the least one.
fn offset(dim: Dim, value: i64) -> u32
    requires low { dim.lo ≤ℤ value }
    requires high { value ≤ℤ dim.hi }
    requires size { dim_size dim < 2 ^ 32 }
    ensures { result ≡ nat_abs (value -ℤ dim.lo) }
{
    (value - dim.lo) as u32
}

/// Returns the place of a combination of values.
pub fn place_of(dims: &[Dim], values: &[i64]) -> u32
    requires sound { AreNumbered dims.now }
    requires inside { AreInside dims.now values.now }
    ensures value { result ≡ place_of dims.now values.now }
    ensures below { result < box_size dims.now }
{
    let mut place: u32 = 0;
    'places: for (i, dim) in dims.iter().enumerate() {
        place = place * dim_size(*dim) + offset(*dim, values[i]);
    }
    place
}

// The value so far above the least one.
fn value_at(dim: Dim, offset: u32) -> i64
    requires { offset < dim_size dim }
    ensures { result ≡ dim.lo +ℤ pos offset }
{
    dim.lo + i64::from(offset)
}

/// Returns the combination of values at a place.
pub fn values_at(dims: &[Dim], place: u32) -> ArrayVec<i64, 8>
    requires few { length dims.now ≤ 8 }
    requires sound { AreNumbered dims.now }
    requires below { place < box_size dims.now }
    ensures { result.items ≡ values_at dims.now place }
{
    let mut values: ArrayVec<i64, 8> = ArrayVec::new();
    let mut rest = place;
    let mut size = size_of(dims);
    'values: for dim in dims {
        size /= dim_size(*dim);
        values.push(value_at(*dim, rest / size));
        rest %= size;
    }
    values
}

/// Returns the number of the cell that stands for the values.
pub fn cell_index(plan: &StreamPlan, values: &[i64]) -> u32
    requires full { AreFull plan.now.dims.items }
    requires size { plan.now.size ≡ box_size plan.now.dims.items }
    requires room { plan.now.base + plan.now.size < 2 ^ 32 }
    requires inside { AreInside plan.now.dims.items values.now }
    ensures value { result ≡ plan.now.base + place_of plan.now.dims.items values.now }
    ensures below { result < plan.now.base + plan.now.size }
{
    plan.base + place_of(plan.dims.as_slice(), values)
}
