//! Cells that stand equally far apart, and the first of them that is not empty. Cells side by side are passed by a page at
//! a time, by its word of marks; of others each is looked up, and none is copied but the one that is found.
ghost use Rattle.std.specs.Prelude.{◌≡◌, ℕ, ◌+◌, ◌*◌, ◌/◌, ◌%◌, ◌<◌, ◌≤◌, ◌^◌, ◌⊎◌, length};
ghost use Rattle.sem_query.specs.declared.cell.Cell.TheVariants.{Empty as empty};
ghost use Rattle.exec_pool.specs.Places.{cell_at, cell_place};
ghost use Rattle.exec_pool.specs.Strides.{Scanned, Marked, HasPage};

use crate::counted::is_empty;
use crate::marked::MarkedCells;
use crate::steps::Steps;
use sem_query::Cell;
use std::sync::ledger::Ledger;

/// The numbers of cells that stand equally far apart: that of the first, and how far the next one is.
#[derive(Clone, Copy, Debug, Default, PartialEq, Eq)]
pub struct StridedCells {
    pub first: u32,
    pub stride: u32,
}

/// A cell that is not empty, by its place on a line.
#[derive(Clone, Copy, Debug, Default)]
pub struct Occupied {
    pub next: u32,
    pub cell: Cell,
}

// Cells side by side on one page: the place of the first among all cells, and how many.
#[derive(Clone, Copy)]
struct Run {
    start: usize,
    count: usize,
}

// The cells of a slot side by side from one on, as far as they stand on its page and no more than so many.
#[inline(always)]
fn run_from(page_table: &[u16], slot: usize, number: usize, most: usize) -> Run
    requires more { 0 < most }
    requires slot { slot < 64 }
    requires small { number < 2 ^ 32 }
    requires table { slot * 4096 + number / 64 < length page_table.now }
    ensures some { 0 < result.count }
    ensures few { result.count ≤ most }
    ensures start { result.start ≡ cell_place page_table.now slot number }
    ensures page { number % 64 + result.count ≤ 64 }
    ensures whole { (result.count ≡ most) ⊎ (number % 64 + result.count ≡ 64) }
{
    let page = usize::from(page_table[slot * 4096 + number / 64]);
    let within = number % 64;
    let rest = 64 - within;
    let count = if most < rest { most } else { rest };
    Run {
        start: page * 64 + within,
        count,
    }
}

// The cell of a slot with that number. This is one read.
fn cell_of<'a, L: Ledger>(
    cells: &'a MarkedCells,
    page_table: &[u16],
    slot: usize,
    number: usize,
    steps: &mut Steps<L>,
) -> &'a Cell
    requires slot { slot < 64 }
    requires small { number < 2 ^ 32 }
    requires page { HasPage cells.now.cells page_table.now slot number }
    ensures cell { result.now ≡ cell_at cells.now.cells page_table.now slot number }
    ensures reads { steps.new.reads ≡ steps.old.reads + 1 }
    ensures writes { steps.new.writes ≡ steps.old.writes }
{
    let page = usize::from(page_table[slot * 4096 + number / 64]);
    cells.cell(page * 64 + number % 64, steps)
}

/// Returns the first cell of a slot that is not empty, among those from one place up to another, counted from its cell `first` on.
pub fn first_beside<L: Ledger>(
    cells: &MarkedCells,
    page_table: &[u16],
    slot: usize,
    first: u32,
    from: u32,
    to: u32,
    steps: &mut Steps<L>,
) -> Option<Occupied>
    requires slot { slot < 64 }
    requires below { from ≤ to }
    requires fits { (i : ℕ) → i < to → first + i < 2 ^ 32 }
    requires pages { (i : ℕ) → i < to → HasPage cells.now.cells page_table.now slot (first + i) }
    ensures reads { Scanned (λ i. cell_at cells.now.cells page_table.now slot (first + i)) from to steps.old.reads result steps.new.reads }
    ensures writes { steps.new.writes ≡ steps.old.writes }
{
    let mut i = from;
    'pages: while i < to {
        let run = run_from(page_table, slot, (first + i) as usize, (to - i) as usize);
        match cells.first_from(run.start, run.count, steps) {
            Some(found) => {
                steps.count_reads(found.next as usize);
                return Some(Occupied {
                    next: i + found.next,
                    cell: found.cell,
                });
            }
            None => {
                steps.count_reads(run.count - 1);
                i += run.count as u32;
            }
        }
    }
    None
}

/// Returns the first cell of a line of a slot that is not empty, from one place up to another.
pub fn first_along<L: Ledger>(
    cells: &MarkedCells,
    page_table: &[u16],
    slot: usize,
    strided: StridedCells,
    from: u32,
    to: u32,
    steps: &mut Steps<L>,
) -> Option<Occupied>
    requires slot { slot < 64 }
    requires below { from ≤ to }
    requires fits { (i : ℕ) → i < to → strided.first + i * strided.stride < 2 ^ 32 }
    requires pages { (i : ℕ) → i < to → HasPage cells.now.cells page_table.now slot (strided.first + i * strided.stride) }
    ensures reads { Scanned (λ i. cell_at cells.now.cells page_table.now slot (strided.first + i * strided.stride)) from to steps.old.reads result steps.new.reads }
    ensures writes { steps.new.writes ≡ steps.old.writes }
{
    let mut i = from;
    'cells: while i < to {
        let seen = cell_of(
            cells,
            page_table,
            slot,
            (strided.first + i * strided.stride) as usize,
            steps,
        );
        if !is_empty(seen) {
            return Some(Occupied {
                next: i,
                cell: *seen,
            });
        }
        i += 1;
    }
    None
}

/// Returns the first of so many cells of a slot that is not empty, side by side from its cell `first` on. The words of marks tell it: each
/// word that is looked at is one read, and the cell that is found costs none of its own.
pub fn first_marked<L: Ledger>(
    cells: &MarkedCells,
    page_table: &[u16],
    slot: usize,
    first: u32,
    count: u32,
    steps: &mut Steps<L>,
) -> Option<Occupied>
    requires slot { slot < 64 }
    requires fits { (i : ℕ) → i < count → first + i < 2 ^ 32 }
    requires pages { (i : ℕ) → i < count → HasPage cells.now.cells page_table.now slot (first + i) }
    ensures reads { Marked (λ i. cell_at cells.now.cells page_table.now slot (first + i)) first count steps.old.reads result steps.new.reads }
    ensures writes { steps.new.writes ≡ steps.old.writes }
{
    let mut i = 0;
    'pages: while i < count {
        let run = run_from(page_table, slot, (first + i) as usize, (count - i) as usize);
        match cells.first_from(run.start, run.count, steps) {
            Some(found) => {
                return Some(Occupied {
                    next: i + found.next,
                    cell: found.cell,
                });
            }
            None => i += run.count as u32,
        }
    }
    None
}
