//! Numbers of values and of their combinations, as 64 bits keep them.
ghost use Rattle.std.specs.Prelude.{◌≡◌};
ghost use Rattle.sem_query.specs.Boxes.{range_size, dim_size, box_size};
ghost use Rattle.plan_layout.specs.Capped.{capped};

use sem_query::Dim;

/// Returns how many integers there are from the least to the greatest.
pub fn range_size(lo: i64, hi: i64) -> u64
    ensures { result ≡ capped (range_size lo hi) }
{
    if lo <= hi {
        hi.abs_diff(lo).saturating_add(1)
    } else {
        0
    }
}

/// Returns how many values a dim has.
pub fn dim_size(dim: Dim) -> u64
    ensures { result ≡ capped (dim_size dim) }
{
    range_size(dim.lo, dim.hi)
}

/// Returns how many combinations of values the dims have.
pub fn box_size(dims: &[Dim]) -> u64
    ensures { result ≡ capped (box_size dims.now) }
{
    let mut size: u64 = 1;
    'sizes: for dim in dims {
        size = size.saturating_mul(dim_size(*dim));
    }
    size
}
