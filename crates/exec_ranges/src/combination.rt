//! The combination of values at a place of a box. A walk asks for many, and mostly of boxes in which one dim alone has more
//! than one value, so it divides only where it must.
ghost use Rattle.std.specs.Prelude.{◌≡◌, ◌+◌, ◌/◌, ◌%◌, ◌<◌, ◌≤◌, ◌^◌, length, map, drop, pos, ◌+ℤ◌};
ghost use Rattle.sem_query.specs.Boxes.{dim_size, box_size, values_at, AreNumbered};

use crate::lists::Values;
use sem_query::Dim;

/// Returns how many values a dim has.
pub fn dim_size(dim: Dim) -> u32
    requires { dim_size dim < 2 ^ 32 }
    ensures { result ≡ dim_size dim }
{
    if dim.lo <= dim.hi {
        (dim.hi - dim.lo) as u32 + 1
    } else {
        0
    }
}

// The value so far above the least one.
fn value_at(dim: Dim, offset: u32) -> i64
    requires { offset < dim_size dim }
    ensures { result ≡ dim.lo +ℤ pos offset }
{
    dim.lo + i64::from(offset)
}

// How often one number is in another.
#[tactic(auto, using(crate::proofs::LeastLaws::none_in, crate::proofs::LeastLaws::once_in, crate::proofs::LeastLaws::by_one))]
fn quotient(n: u32, by: u32) -> u32
    requires { 0 < by }
    ensures { result ≡ n / by }
{
    if n < by {
        return 0;
    }
    if by == 1 {
        return n;
    }
    if n == by {
        return 1;
    }
    n / by
}

// What is left of a number.
#[tactic(auto, using(crate::proofs::LeastLaws::all_left, crate::proofs::LeastLaws::none_left))]
fn remainder(n: u32, by: u32) -> u32
    requires { 0 < by }
    ensures { result ≡ n % by }
{
    if n < by {
        return n;
    }
    if by == 1 {
        return 0;
    }
    n % by
}

/// Puts the combination of values at a place, where there are so many, into `values`.
pub fn values_into(dims: &[Dim], combinations: u32, place: u32, values: &mut Values)
    requires few { length dims.now ≤ 8 }
    requires sound { AreNumbered dims.now }
    requires size { combinations ≡ box_size dims.now }
    requires below { place < combinations }
    ensures { values.new.items ≡ values_at dims.now place }
{
    values.clear();
    if combinations == 1 {
        'least: for dim in dims {
            values.push(dim.lo);
        }
        return;
    }
    let mut rest = place;
    let mut size = combinations;
    'values: for dim in dims {
        let count = dim_size(*dim);
        let stride = quotient(size, count);
        values.push(value_at(*dim, quotient(rest, stride)));
        rest = remainder(rest, stride);
        size = stride;
    }
}

/// Returns the combination of values at a place, where there are so many.
pub fn values_of(dims: &[Dim], combinations: u32, place: u32) -> Values
    requires few { length dims.now ≤ 8 }
    requires sound { AreNumbered dims.now }
    requires size { combinations ≡ box_size dims.now }
    requires below { place < combinations }
    ensures { result.items ≡ values_at dims.now place }
{
    let mut values = Values::default();
    values_into(dims, combinations, place, &mut values);
    values
}
