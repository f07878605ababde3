//! Where the cells of a level stand: mostly as far apart as each other, so that empty ones are passed by number alone.
ghost use Rattle.std.specs.Prelude.{◌≡◌, ℕ, ◌+◌, ◌*◌, ◌/◌, ◌%◌, ◌<◌, ◌≤◌, ◌^◌, map, nat_abs, ◌≤ℤ◌, ◌-ℤ◌, IfSome, MatchOption, true, false};
ghost use Rattle.sem_query.specs.declared.cell.Cell.TheVariants.{Empty};
ghost use Rattle.sem_query.specs.Boxes.{dim_size, box_size, AreNumbered, AreInside};
ghost use Rattle.exec_ranges.specs.Lined.{IsLine};

use crate::combination::dim_size;
use exec_pool::StridedCells;
use exec_synopsis::offset;
use sem_query::{Cell, Dim};

// How far apart cells stand, where one more dim has so many values, and there are so many combinations of the later dims,
// in a box of this size; None where they do not stand equally far apart.
#[tactic(auto, using(crate::proofs::LineLaws::one_value, crate::proofs::LineLaws::one_later, crate::proofs::LineLaws::all_later))]
fn stride_with(values: u32, combinations: u32, size: u32, stride: u32) -> Option<u32>
    requires { 0 < combinations }
    ensures { IfSome result (λ apart. (i : ℕ) → i < values * combinations → i / combinations * size + i % combinations * stride ≡ i * apart) }
{
    if values == 1 {
        return Some(stride);
    }
    if combinations == 1 {
        return Some(size);
    }
    if stride == 1 && size == combinations {
        return Some(1);
    }
    None
}

/// Returns how far the least value of a narrower dim is above that of the whole one.
pub fn offset_of(whole: Dim, dim: Dim) -> u32
    requires low { whole.lo ≤ℤ dim.lo }
    requires high { dim.lo ≤ℤ whole.hi }
    requires few { dim_size whole < 2 ^ 32 }
    ensures { result ≡ nat_abs (dim.lo -ℤ whole.lo) }
{
    offset(whole, dim.lo)
}

/// Returns the line on which the cells of a box stand for the combinations of these values, in order, if they stand on one. The
/// first cell of the box has this number.
pub fn line_of(base: u32, full: &[Dim], dims: &[Dim]) -> Option<StridedCells>
    requires numbered { AreNumbered full.now }
    requires fits { base + box_size full.now < 2 ^ 32 }
    requires sound { AreNumbered dims.now }
    requires some { 0 < box_size dims.now }
    requires inside { AreInside full.now (map (λ d. d.lo) dims.now) }
    ensures { IfSome result (λ line. IsLine base full.now dims.now line) }
{
    let mut first = base;
    let mut stride: u32 = 1;
    let mut combinations: u32 = 1;
    let mut size: u32 = 1;
    let mut i = dims.len();
    'dims: while i > 0 {
        i -= 1;
        let whole = full[i];
        let dim = dims[i];
        let values = dim_size(dim);
        let Some(apart) = stride_with(values, combinations, size, stride) else {
            return None;
        };
        first += offset_of(whole, dim) * size;
        stride = apart;
        combinations *= values;
        size *= dim_size(whole);
    }
    Some(StridedCells { first, stride })
}

/// Returns whether no row is in the cell.
pub fn is_empty(cell: Cell) -> bool
    ensures yes { result ≡ true → cell ≡ Empty }
    ensures no { result ≡ false → cell ≡ Empty → ⊥ }
{
    match cell {
        Cell::Empty => true,
        Cell::Count(_) => false,
        Cell::Present => false,
        Cell::Extreme(_) => false,
    }
}
