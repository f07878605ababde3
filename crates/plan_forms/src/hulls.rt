//! The least ranges that hold those of several parts, column by column.
ghost use Rattle.std.specs.Prelude.{◌≡◌, ◌≤◌, length};
ghost use Rattle.std.specs.List.{slice_get};
ghost use Rattle.plan_forms.specs.Hulls.{wider, wider_with, joined};

use arrayvec::ArrayVec;
use sem_query::Dim;

// The least range that holds two of a column.
fn wider(one: Dim, other: Dim) -> Dim
    ensures { result ≡ wider one other }
{
    Dim {
        attr: one.attr,
        lo: if other.lo < one.lo { other.lo } else { one.lo },
        hi: if one.hi < other.hi { other.hi } else { one.hi },
    }
}

// The same with the range at a place, where there is one.
fn wider_with(before: &[Dim], i: usize, dim: Dim) -> Dim
    ensures { result ≡ wider_with (slice_get before.now i) dim }
{
    match before.get(i) {
        Some(one) => wider(*one, dim),
        None => dim,
    }
}

/// Returns the least ranges that hold some ranges and those of one part more, column by column; where there are none before, those of the part.
pub fn joined(before: &[Dim], dims: &[Dim]) -> ArrayVec<Dim, 8>
    requires { length dims.now ≤ 8 }
    ensures { result.items ≡ joined before.now dims.now }
{
    let mut list = ArrayVec::new();
    'columns: for i in 0..dims.len() {
        list.push(wider_with(before, i, dims[i]));
    }
    list
}
