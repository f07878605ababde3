//! A cell read as a row.
ghost use Rattle.std.specs.Prelude.{◌≡◌, ◌<◌, ◌^◌, length};
ghost use Rattle.sem_query.specs.Combinations.{row_of_values, row_of_cell};
ghost use Rattle.sem_query.specs.Parts.{pairs};
ghost use Rattle.sem_query.specs.Plan.{stream_at};
ghost use Rattle.exec_ranges.specs.Values.{extreme_of, value_or};
ghost use Rattle.exec_synopsis.specs.Premises.{IsLaidOut};
ghost use Rattle.exec_synopsis.specs.Preparing.{IsPrepared};
ghost use Rattle.exec_saturation.specs.Saturated.{HasColumns};

use exec_synopsis::{Prepared, class_of};
use sem_query::{Attr, Cell, PartPlan, Query, Row, dims_at, values_at};

/// A cell of a box: its place there, and what it holds.
#[derive(Clone, Copy, Debug, PartialEq, Eq, Drop)]
pub struct SeenCell {
    pub i: u32,
    pub held: Cell,
}

// The extreme that a cell keeps, and 0 where it keeps none.
fn extreme_of(cell: Cell) -> i64
    ensures { result ≡ extreme_of cell }
{
    match cell {
        Cell::Extreme(z) => z,
        _ => 0,
    }
}

// The value at a place, where there is one, or else another.
fn value_or(values: &[i64], otherwise: i64, place: Option<u8>) -> i64
    ensures { result ≡ value_or values.now otherwise place }
{
    match place {
        Some(k) => values.get(usize::from(k)).copied().unwrap_or(otherwise),
        None => otherwise,
    }
}

// The value of a column in a cell whose dims have these values: that of its class, or the extreme that the cell keeps.
fn column_value(
    q: &Query,
    part: &PartPlan,
    prepared: &Prepared,
    pos: u8,
    column: u8,
    values: &[i64],
    held: Cell,
) -> i64
    requires { IsPrepared (pairs q.now) part.now prepared.now }
    ensures { result ≡ row_of_values q.now part.now pos values.now (extreme_of held) column }
{
    let attr = Attr {
        stream: pos,
        column,
    };
    let class = class_of(q.pairs().as_slice(), part, prepared, attr);
    value_or(values, extreme_of(held), class)
}

/// Returns the row that a cell of the box at a place of FROM is read as. It has all eight columns that a row may have.
pub fn row_of_cell(q: &Query, part: &PartPlan, prepared: &Prepared, pos: u8, cell: SeenCell) -> Row
    requires laid { IsLaidOut (stream_at part.now pos) (2 ^ 32) }
    requires inside { cell.i < (stream_at part.now pos).size }
    requires prepared { IsPrepared (pairs q.now) part.now prepared.now }
    ensures columns { HasColumns (row_of_cell q.now part.now pos cell.i (extreme_of cell.held)) result.items }
{
    let values = values_at(dims_at(part, usize::from(pos)), cell.i);
    let mut row = Row::new();
    'columns: for column in 0..8u8 {
        row.push(column_value(q, part, prepared, pos, column, values.as_slice(), cell.held));
    }
    row
}
