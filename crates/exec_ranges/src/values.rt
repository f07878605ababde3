//! What the chosen cells say of the columns.
ghost use Rattle.std.specs.Prelude.{◌≡◌};
ghost use Rattle.sem_query.specs.Parts.{pairs};
ghost use Rattle.exec_ranges.specs.Values.{value_or, extreme_of, rows_in, chosen_value, value_in};
ghost use Rattle.exec_synopsis.specs.Preparing.{IsPrepared};
ghost use Rattle.exec_ranges.specs.declared.binding.Binding.{Binding};
ghost use Rattle.std.specs.declared.option.Option.TheVariants.{Some};

use crate::binding::Binding;
use crate::part::RowAt;
use exec_synopsis::class_of;
use sem_query::{Attr, Cell, value_at};

// The extreme that a cell keeps, and 0 where it keeps none.
fn extreme_of(cell: Cell) -> i64
    ensures { result ≡ extreme_of cell }
{
    match cell {
        Cell::Extreme(z) => z,
        _ => 0,
    }
}

/// Tells for how many rows a cell stands in a combination.
pub fn rows_in(cell: Cell) -> u64
    ensures { result ≡ rows_in cell }
{
    match cell {
        Cell::Empty => 0,
        Cell::Count(n) => n,
        Cell::Present => 1,
        Cell::Extreme(_) => 1,
    }
}

// The value at a place, where there is one, or else another.
fn value_or(values: &[i64], otherwise: i64, place: Option<u8>) -> i64
    ensures { result ≡ value_or values.now otherwise place }
{
    match place {
        Some(k) => values.get(usize::from(k)).copied().unwrap_or(otherwise),
        None => otherwise,
    }
}

/// Returns the value of a column, where cells were chosen at the first places of FROM.
#[tactic(auto, unfolding(crate::specs::Values::value_in))]
pub fn value_in(at: &RowAt<'_>, known: &[Binding], a: Attr) -> i64
    requires { IsPrepared (pairs at.now.q.now) at.now.part.now at.now.prepared.now }
    ensures { result ≡ value_in (pairs at.now.q.now) at.now.part.now at.now.arriving at.now.row.now.items known.now a }
{
    if a.stream == at.arriving {
        return value_at(at.row.as_slice(), a.column);
    }
    let Some(chosen) = known.get(usize::from(a.stream)) else {
        return 0;
    };
    let place = class_of(at.q.pairs().as_slice(), at.part, at.prepared, a);
    value_or(chosen.values.as_slice(), extreme_of(chosen.cell), place)
}
