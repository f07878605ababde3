//! Whether the table has all that a cell, read as a row, is answered.
ghost use Rattle.std.specs.Prelude.{◌≡◌, ◌+◌, ◌-◌, ◌*◌, ◌<◌, ◌≤◌, ◌↔◌, length, true};
ghost use Rattle.exec_answer_table.specs.Entries.{tuples_of};
ghost use Rattle.sem_laws.specs.Closed.{IsSaturated};
ghost use Rattle.sem_query.specs.Combinations.{read_from, row_of_cell};
ghost use Rattle.sem_query.specs.Future.{spelled_out};
ghost use Rattle.sem_query.specs.Meaning.{by_column};
ghost use Rattle.sem_query.specs.Numbers.{share};
ghost use Rattle.sem_query.specs.Parts.{pairs};
ghost use Rattle.sem_query.specs.Plan.{stream_at};
ghost use Rattle.sem_query.specs.Probing.{found_beside};
ghost use Rattle.exec_pool.specs.Extents.{cells_of};
ghost use Rattle.exec_synopsis.specs.Premises.{IsReady};
ghost use Rattle.exec_synopsis.specs.Preparing.{IsPrepared};
ghost use Rattle.exec_ranges.specs.Values.{extreme_of};
ghost use Rattle.exec_saturation.specs.Saturated.{HasColumns, HasEach};

use crate::cell_row::SeenCell;
use exec_answer_table::Answers;
use exec_join::{Probe, ProbeScratch, Scratch};
use exec_pool::{Extent, Pool, Steps};
use exec_ranges::{RowAt, is_empty};
use sem_query::Tuple;
use std::sync::ledger::Ledger;

// Whether the table has each tuple that a walk finds for a row.
#[tactic(auto, using(crate::proofs::Listed::missing_tuple, crate::proofs::Listed::no_tuple_missing))]
fn has_each<L: Ledger>(
    pool: &Pool,
    e: &Extent,
    at: &RowAt<'_>,
    room: &mut ProbeScratch,
    tuple: &mut Tuple,
    table: &Answers,
    steps: &mut Steps<L>,
) -> bool
    requires distinct { at.now.q.now.distinct ≡ true }
    requires here { at.now.arriving < length at.now.q.now.from }
    requires ready { IsReady at.now.q.now at.now.part.now pool.now e.now }
    requires prepared { IsPrepared (pairs at.now.q.now) at.now.part.now at.now.prepared.now }
    requires width { length at.now.q.now.select ≡ table.now.width }
    ensures value { (result ≡ true) ↔ HasEach (tuples_of table.now.entries) (spelled_out (found_beside at.now.q.now at.now.part.now (read_from (cells_of pool.now e.now)) at.now.arriving (by_column at.now.row.now.items))) }
    ensures reads { steps.new.reads ≤ steps.old.reads + (length at.now.part.now.streams.items - 1) * share at.now.part.now }
    ensures writes { steps.new.writes ≡ steps.old.writes }
{
    let (q, plan, prepared) = (at.q, at.part, at.prepared);
    let mut probe = Probe::new(q, plan, prepared, at.arriving, at.row, room);
    'walk: while let Some(_count) = probe.next(pool, e, q, plan, tuple, steps) {
        if !table.has(tuple) {
            return false;
        }
        probe.pass_repeats(q, plan, tuple);
    }
    true
}

/// Returns whether a cell of a part is saturated, which is met as the row that it is read as: whether the table has each tuple that the cell tells
/// together with cells of the other streams that are not empty. An empty cell is saturated, and no cell is read; for any other a walk is paid. No cell is written.
pub fn is_saturated<L: Ledger>(
    pool: &Pool,
    e: &Extent,
    at: &RowAt<'_>,
    cell: SeenCell,
    table: &Answers,
    scratch: &mut Scratch,
    steps: &mut Steps<L>,
) -> bool
    requires distinct { at.now.q.now.distinct ≡ true }
    requires here { at.now.arriving < length at.now.q.now.from }
    requires row { HasColumns (row_of_cell at.now.q.now at.now.part.now at.now.arriving cell.i (extreme_of cell.held)) at.now.row.now.items }
    requires inside { cell.i < (stream_at at.now.part.now at.now.arriving).size }
    requires held { cell.held ≡ read_from (cells_of pool.now e.now) at.now.part.now at.now.arriving cell.i }
    requires ready { IsReady at.now.q.now at.now.part.now pool.now e.now }
    requires prepared { IsPrepared (pairs at.now.q.now) at.now.part.now at.now.prepared.now }
    requires width { length at.now.q.now.select ≡ table.now.width }
    ensures value { (result ≡ true) ↔ IsSaturated at.now.q.now at.now.part.now (read_from (cells_of pool.now e.now)) (tuples_of table.now.entries) at.now.arriving cell.i }
    ensures reads { steps.new.reads ≤ steps.old.reads + (length at.now.part.now.streams.items - 1) * share at.now.part.now }
    ensures writes { steps.new.writes ≡ steps.old.writes }
{
    // Read for the proof alone: the call tells that each column is one of eight.
    let _select = at.q.select();
    if is_empty(cell.held) {
        return true;
    }
    let (room, tuple) = (&mut scratch.room, &mut scratch.tuple);
    has_each(pool, e, at, room, tuple, table, steps)
}
