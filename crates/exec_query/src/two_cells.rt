//! What a row does in a query of one part where one column tells the two cells that it meets.
ghost use Rattle.std.specs.Prelude.{◌≡◌, ◌<◌, ◌≤◌, ◌+◌, length, map, true};
ghost use Rattle.sem_query.specs.declared.cell.Cell.TheVariants as cells;
ghost use Rattle.sem_query.specs.Meaning.{by_column};
ghost use Rattle.sem_query.specs.Combinations.{read_from};
ghost use Rattle.exec_pool.specs.Extents.{cells_of};
ghost use Rattle.exec_ranges.specs.Values.{rows_in};
ghost use Rattle.exec_join.specs.Remaining.{as_found};
ghost use Rattle.exec_answer_table.specs.Entries.{with_entries, Fits};
ghost use Rattle.exec_query.specs.Executor.{cleared};
ghost use Rattle.exec_query.specs.FoundTable.{with_found, with_all, HaveRoom};
ghost use Rattle.exec_query.specs.Reads.{row_reads};
ghost use Rattle.exec_query.specs.CellSteps.{arrives, all_found, HasTaken, AreReady};
ghost use Rattle.exec_query.specs.TwoCells.{told_by};
ghost use Rattle.exec_point_lookup.specs.Direct.{IsDirect};

use crate::executor::clear;
use crate::part::{MOST_TIMES, record_found};
use exec_answer_table::Answers;
use exec_point_lookup::{DirectLookup, offset_in, put_selected};
use exec_pool::{Extent, Pool, Steps};
use exec_ranges::rows_in;
use exec_synopsis::{Admitted, Placement, own_cell, put_own};
use sem_query::{Cell, Kind, PartPlans, Query, Row, Tuple};
use std::sync::ledger::Ledger;

// Takes up the values of these columns of a row with DISTINCT. It is not inlined: most such queries have no DISTINCT.
#[inline(never)]
fn take_up_once(columns: &[u8], row: &[i64], tuple: &mut Tuple, table: &mut Answers)
    requires few { length columns.now ≤ 8 }
    requires width { length (map (by_column row.now) columns.now) ≡ table.old.width }
    requires room { Fits (map (by_column row.now) columns.now) table.old }
    ensures { table.new ≡ with_entries table.old (with_found true (as_found (map (by_column row.now) columns.now) 1) table.old.entries) }
{
    put_selected(columns, row, tuple);
    record_found(true, tuple, 1, table);
}

/// Gives up what waited, and takes up what the other cell tells of the answers to a row, which has rows. It is not inlined: most rows meet an empty
/// cell.
#[inline(never)]
pub fn take_up_anew(
    q: &Query,
    direct: &DirectLookup,
    row: &Row,
    cell: Cell,
    tuple: &mut Tuple,
    table: &mut Answers,
)
    requires some { cell ≡ cells.Empty → ⊥ }
    requires room { HaveRoom q.now.distinct (told_by direct.now row.now.items cell) (with_entries table.old (cleared q.now.distinct table.old.entries)) }
    ensures { table.new ≡ with_entries table.old (with_all q.now.distinct (told_by direct.now row.now.items cell) (cleared q.now.distinct table.old.entries)) }
{
    let is_once = q.distinct();
    clear(is_once, table);
    let columns = direct.selected.as_slice();
    let values = row.as_slice();
    if is_once {
        take_up_once(columns, values, tuple, table);
    } else {
        table.add_columns_upto(columns, values, u128::from(rows_in(cell)), MOST_TIMES);
    }
}

/// Takes a row of a stream of FROM into its own cell, where the only part of a query admits it, and returns what the other cell holds, which
/// tells the answers: nothing, where the part does not admit it.
#[inline(always)]
pub fn meet_cells<L: Ledger>(
    pool: &mut Pool,
    q: &Query,
    extent: &Extent,
    parts: &PartPlans,
    direct: &DirectLookup,
    row: &Row,
    steps: &mut Steps<L>,
) -> Cell
    requires direct { IsDirect q.now parts.now direct.now }
    requires ready { AreReady q.now parts.now pool.old extent.now }
    ensures answers { all_found q.now parts.now (read_from (cells_of pool.old extent.now)) (arrives q.now direct.now.pos row.now.items) ≡ told_by direct.now row.now.items result }
    ensures pool { HasTaken q.now parts.now extent.now (arrives q.now direct.now.pos row.now.items) (length parts.now) pool.old pool.new }
    ensures reads { steps.new.reads ≤ steps.old.reads + row_reads parts.now + length parts.now }
    ensures writes { steps.new.writes ≤ steps.old.writes + length parts.now }
{
    let plan = parts.get(0);
    let values = row.as_slice();
    let Some(offset) = offset_in(direct.range, values) else {
        return Cell::Empty;
    };
    let placement = Placement::Cell {
        number: direct.own + offset,
        kind: Kind::Count,
    };
    let at = Admitted {
        pos: direct.pos,
        placement,
    };
    // The own cell is read last, and put at once: where it stands is still at hand.
    let there = pool.read(extent, direct.other + offset, steps);
    let own = own_cell(pool, extent, q, plan, row, at, steps);
    put_own(pool, extent, plan, row, direct.pos, &own, steps);
    there
}
