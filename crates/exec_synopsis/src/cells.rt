//! What a row does to the cells of a part.
ghost use Rattle.std.specs.Prelude.{◌≡◌, ◌↔◌, ◌+◌, ◌*◌, ◌<◌, true, length, [], ◌∷◌, ◌^◌, ◌≤ℤ◌, ◌-ℤ◌, nat_abs};
ghost use Rattle.sem_query.specs.Boxes.{dim_size, box_size, AreFull, AreNumbered, AreInside};
ghost use Rattle.sem_query.specs.Meaning.{by_column};
ghost use Rattle.sem_query.specs.Plan.{stream_at, dims_at};
ghost use Rattle.sem_query.specs.Cells.{dim_values, row_place, content};
ghost use Rattle.sem_query.specs.Merge.{merged};
ghost use Rattle.sem_query.specs.declared.atom.Attr.{Attr};
ghost use Rattle.sem_query.specs.declared.cell.Cell.TheVariants as cells;
ghost use Rattle.sem_query.specs.declared.plan.Kind.TheVariants as kinds;
ghost use Rattle.exec_synopsis.specs.Premises.{IsLaidOut, HasRoom, row_cell};
ghost use Rattle.exec_synopsis.specs.Axes.{IsCell};

use crate::admission::stream_at;
use crate::axes::Placement;
use exec_pool::Extent;
use sem_query::{Attr, Cell, Dim, Kind, PartPlan, value_at};

// A count of one row more.
fn counted(cell: Cell) -> Cell
    requires { HasRoom cell }
    ensures { result ≡ merged kinds.Count cell (cells.Count 1) }
{
    match cell {
        Cell::Empty => Cell::Count(1),
        Cell::Count(n) => Cell::Count(n + 1),
        Cell::Present => Cell::Present,
        Cell::Extreme(z) => Cell::Extreme(z),
    }
}

// A cell that says that there are rows.
fn marked(cell: Cell) -> Cell
    ensures { result ≡ merged kinds.Present cell cells.Present }
{
    match cell {
        Cell::Empty => Cell::Present,
        Cell::Count(n) => Cell::Count(n),
        Cell::Present => Cell::Present,
        Cell::Extreme(z) => Cell::Extreme(z),
    }
}

// A least value, with one value more.
fn lowered(cell: Cell, attr: Attr, value: i64) -> Cell
    ensures { result ≡ merged (kinds.Least attr) cell (cells.Extreme value) }
{
    match cell {
        Cell::Empty => Cell::Extreme(value),
        Cell::Count(n) => Cell::Count(n),
        Cell::Present => Cell::Present,
        Cell::Extreme(z) => Cell::Extreme(if value < z { value } else { z }),
    }
}

// A greatest value, with one value more.
fn raised(cell: Cell, attr: Attr, value: i64) -> Cell
    ensures { result ≡ merged (kinds.Greatest attr) cell (cells.Extreme value) }
{
    match cell {
        Cell::Empty => Cell::Extreme(value),
        Cell::Count(n) => Cell::Count(n),
        Cell::Present => Cell::Present,
        Cell::Extreme(z) => Cell::Extreme(if z < value { value } else { z }),
    }
}

/// Returns a cell with one row more.
pub fn with_row(kind: Kind, row: &[i64], cell: Cell) -> Cell
    requires { HasRoom cell }
    ensures { result ≡ merged kind cell (content kind (row.now ∷ [])) }
{
    match kind {
        Kind::Count => counted(cell),
        Kind::Present => marked(cell),
        Kind::Least(attr) => lowered(cell, attr, value_at(row, attr.column)),
        Kind::Greatest(attr) => raised(cell, attr, value_at(row, attr.column)),
    }
}

// Whether a row with this value leaves a least value as it is.
fn is_no_less(cell: Cell, value: i64) -> bool
    ensures { (attr : Attr) → (result ≡ true) ↔ (merged (kinds.Least attr) cell (cells.Extreme value) ≡ cell) }
{
    match cell {
        Cell::Empty => false,
        Cell::Count(_) | Cell::Present => true,
        Cell::Extreme(z) => z <= value,
    }
}

// Whether a row with this value leaves a greatest value as it is.
fn is_no_greater(cell: Cell, value: i64) -> bool
    ensures { (attr : Attr) → (result ≡ true) ↔ (merged (kinds.Greatest attr) cell (cells.Extreme value) ≡ cell) }
{
    match cell {
        Cell::Empty => false,
        Cell::Count(_) | Cell::Present => true,
        Cell::Extreme(z) => value <= z,
    }
}

// Whether a cell that says that there are rows stays so.
fn has_rows(cell: Cell) -> bool
    ensures { (result ≡ true) ↔ (merged kinds.Present cell cells.Present ≡ cell) }
{
    match cell {
        Cell::Empty => false,
        Cell::Count(_) | Cell::Present | Cell::Extreme(_) => true,
    }
}

// Whether a cell that counts rows counts no more.
fn counts_none(cell: Cell) -> bool
    ensures { (result ≡ true) ↔ (merged kinds.Count cell (cells.Count 1) ≡ cell) }
{
    match cell {
        Cell::Empty | Cell::Count(_) => false,
        Cell::Present | Cell::Extreme(_) => true,
    }
}

/// Returns whether a cell stays as it is with one row more.
pub fn stays_with(kind: Kind, row: &[i64], cell: Cell) -> bool
    ensures { (result ≡ true) ↔ (merged kind cell (content kind (row.now ∷ [])) ≡ cell) }
{
    match kind {
        Kind::Count => counts_none(cell),
        Kind::Present => has_rows(cell),
        Kind::Least(attr) => is_no_less(cell, value_at(row, attr.column)),
        Kind::Greatest(attr) => is_no_greater(cell, value_at(row, attr.column)),
    }
}

// How many values a dim has.
fn size_of(dim: Dim) -> u32
    requires full { dim.lo ≤ℤ dim.hi }
    requires few { dim_size dim < 2 ^ 32 }
    ensures { result ≡ dim_size dim }
{
    (dim.hi - dim.lo) as u32 + 1
}

/// Returns how far a value is above the least one of its dim.
pub fn offset(dim: Dim, value: i64) -> u32
    requires low { dim.lo ≤ℤ value }
    requires high { value ≤ℤ dim.hi }
    requires few { dim_size dim < 2 ^ 32 }
    ensures value { result ≡ nat_abs (value -ℤ dim.lo) }
    ensures below { result < dim_size dim }
{
    (value - dim.lo) as u32
}

// The place of a row in the box of its stream.
fn row_place(dims: &[Dim], row: &[i64]) -> u32
    requires full { AreFull dims.now }
    requires sound { AreNumbered dims.now }
    requires inside { AreInside dims.now (dim_values dims.now (by_column row.now)) }
    ensures value { result ≡ row_place dims.now (by_column row.now) }
    ensures below { result < box_size dims.now }
{
    let mut place: u32 = 0;
    'places: for dim in dims {
        place = place * size_of(*dim) + offset(*dim, value_at(row, dim.attr.column));
    }
    place
}

// The number of the cell that stands for a row. It is rarely asked, where nothing tells it, and so not inlined.
#[inline(never)]
fn row_cell(part: &PartPlan, pos: u8, row: &[i64], e: &Extent) -> u32
    requires here { pos < length part.now.streams.items }
    requires laid { IsLaidOut (stream_at part.now pos) (64 * e.now.pages) }
    requires inside { AreInside (dims_at part.now pos) (dim_values (dims_at part.now pos) (by_column row.now)) }
    ensures value { result ≡ row_cell part.now pos row.now }
    ensures below { result < 64 * e.now.pages }
{
    let plan = stream_at(part, usize::from(pos));
    plan.base + row_place(plan.dims.as_slice(), row)
}

/// Returns the cell of a row: its number and its kind.
pub fn cell_of(
    part: &PartPlan,
    pos: u8,
    row: &[i64],
    placement: Placement,
    e: &Extent,
) -> (u32, Kind)
    requires here { pos < length part.now.streams.items }
    requires laid { IsLaidOut (stream_at part.now pos) (64 * e.now.pages) }
    requires inside { AreInside (dims_at part.now pos) (dim_values (dims_at part.now pos) (by_column row.now)) }
    requires placement { IsCell part.now pos row.now placement }
    ensures number { result.0 ≡ row_cell part.now pos row.now }
    ensures below { result.0 < 64 * e.now.pages }
    ensures kind { result.1 ≡ (stream_at part.now pos).kind }
{
    match placement {
        Placement::Cell { number, kind } => (number, kind),
        _ => (
            row_cell(part, pos, row, e),
            stream_at(part, usize::from(pos)).kind,
        ),
    }
}
