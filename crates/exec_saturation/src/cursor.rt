//! The look at one cell after the other, after cells were loaded, until all are known to be saturated.
ghost use Rattle.std.specs.Prelude.{◌≡◌, ℕ, ◌+◌, ◌*◌, ◌<◌, ◌≤◌, ◌^◌, ◌↔◌, true, length, slice_get, slice_index_or, Some, None, IfSome};
ghost use Rattle.exec_answer_table.specs.Entries.{tuples_of};
ghost use Rattle.sem_laws.specs.Closed.{IsClosed};
ghost use Rattle.sem_query.specs.Combinations.{read_from};
ghost use Rattle.sem_query.specs.declared.cell.Cell.TheVariants.{Empty};
ghost use Rattle.sem_query.specs.declared.plan.PartPlan.{PartPlan};
ghost use Rattle.exec_pool.specs.Extents.{cells_of, IsLive};
ghost use Rattle.exec_saturation.specs.declared.saturation.Saturation.TheVariants as saturation;
ghost use Rattle.exec_saturation.specs.Known.{AreSaturated};
ghost use Rattle.exec_saturation.specs.Looking.{CanLook, StandsAhead, HasMoved, HasStepped, left_after, look_cost, work_of};

use crate::cell_row::{SeenCell, row_of_cell};
use crate::planned::PlannedQuery;
use crate::saturated::is_saturated;
use crate::saturation::{Cursor, Saturation};
use exec_answer_table::Answers;
use exec_join::Scratch;
use exec_pool::{Extent, Pool, Steps};
use exec_ranges::RowAt;
use exec_synopsis::stream_at;
use sem_query::{Cell, PartPlan, PartPlans, Plan, StreamPlan};
use std::sync::ledger::Ledger;

/// Where a cursor came to, and how many reads are left.
#[derive(Clone, Copy, Debug, PartialEq, Eq, Drop)]
pub struct Came {
    pub at: Cursor,
    pub left: u64,
}

/// What a step of a cursor comes to.
#[derive(Clone, Copy, Debug, PartialEq, Eq, Drop)]
pub enum CursorStep {
    /// It goes on.
    On(Came),
    /// It stays, since the next cell may cost more reads than are left.
    Stays,
    /// The cell at the cursor is not saturated.
    Open,
}

/// What stands at a cursor.
#[derive(Clone, Copy, Debug, PartialEq, Eq, Drop)]
pub enum Ahead {
    /// No cell that holds anything: the cursor goes on.
    On(Cursor),
    /// A cell, which holds this.
    At(Cell),
}

// How many cells are empty from one on, and what that one holds.
#[derive(Clone, Copy)]
struct ClearCells {
    count: u32,
    held: Cell,
}

// How many cells of a box are empty from one on, as far as its page of 64 cells goes, and what that one holds. A word of marks tells it: one
// read.
fn clear_ahead<L: Ledger>(
    pool: &Pool,
    extent: &Extent,
    stream: &StreamPlan,
    cell: u32,
    steps: &mut Steps<L>,
) -> ClearCells
    requires live { IsLive pool.now extent.now }
    requires within { stream.now.base + stream.now.size ≤ 64 * extent.now.pages }
    requires few { stream.now.base + stream.now.size < 2 ^ 32 }
    requires inside { cell < stream.now.size }
    ensures clear { (i : ℕ) → cell ≤ i → i < cell + result.count → slice_index_or (cells_of pool.now extent.now) (stream.now.base + i) Empty ≡ Empty }
    ensures within { cell + result.count ≤ stream.now.size }
    ensures held { result.count ≡ 0 → result.held ≡ slice_index_or (cells_of pool.now extent.now) (stream.now.base + cell) Empty }
    ensures reads { steps.new.reads ≤ steps.old.reads + 1 }
    ensures writes { steps.new.writes ≡ steps.old.writes }
{
    let first = stream.base + cell;
    let span = (stream.size - cell).min(64 - first % 64);
    match pool.first_marked(extent, first, span, steps) {
        Some(found) => ClearCells {
            count: found.next,
            held: found.cell,
        },
        None => ClearCells {
            count: span,
            held: Cell::Empty,
        },
    }
}

// What stands at a cursor: it goes on behind cells that are empty, or to the next box, if it is not at a cell that holds something. This is at
// most one read.
fn past_clear<L: Ledger>(
    pool: &Pool,
    planned: &PlannedQuery,
    parts: &PartPlans,
    at: Cursor,
    steps: &mut Steps<L>,
) -> Ahead
    requires look { CanLook planned.now.query parts.now planned.now.prepared pool.now planned.now.extent (length planned.now.query.select) (work_of planned.now.plan) }
    requires inside { at.part < length parts.now }
    ensures ahead { StandsAhead planned.now.query parts.now (read_from (cells_of pool.now planned.now.extent)) at result }
    ensures reads { steps.new.reads ≤ steps.old.reads + 1 }
    ensures writes { steps.new.writes ≡ steps.old.writes }
{
    // Named for the proof alone: the call tells that there are fewer than 2^32 parts.
    let _parts = parts.len();
    let plan = parts.get(at.part);
    if usize::from(at.place) >= plan.streams.as_slice().len() {
        return Ahead::On(Cursor {
            part: at.part + 1,
            place: 0,
            cell: 0,
        });
    }
    let stream = stream_at(plan, usize::from(at.place));
    if at.cell >= stream.size {
        return Ahead::On(Cursor {
            part: at.part,
            place: at.place + 1,
            cell: 0,
        });
    }
    let clear = clear_ahead(pool, &planned.extent, stream, at.cell, steps);
    if clear.count == 0 {
        return Ahead::At(clear.held);
    }
    Ahead::On(Cursor {
        part: at.part,
        place: at.place,
        cell: at.cell + clear.count,
    })
}

// What a look at a cell of a part over two streams costs at most: no walk reads more than the announced work of the plan.
fn cost_in(part: &PartPlan, plan: &Plan) -> u64
    requires { length part.now.streams.items ≡ 2 }
    ensures { result ≡ look_cost part.now (work_of plan.now) }
{
    let larger = stream_at(part, 0).size.max(stream_at(part, 1).size);
    match plan {
        Plan::Filter => 1,
        Plan::Parts { parts: _, numbers } => 1 + u64::from(numbers.work.min(larger)),
    }
}

// A step of a cursor: over cells that are empty, or over one that is looked at.
fn go_on<L: Ledger>(
    pool: &Pool,
    planned: &PlannedQuery,
    parts: &PartPlans,
    from: Came,
    table: &Answers,
    scratch: &mut Scratch,
    steps: &mut Steps<L>,
) -> CursorStep
    requires look { CanLook planned.now.query parts.now planned.now.prepared pool.now planned.now.extent table.now.width (work_of planned.now.plan) }
    requires inside { from.at.part < length parts.now }
    ensures stepped { HasStepped planned.now.query parts.now (read_from (cells_of pool.now planned.now.extent)) (tuples_of table.now.entries) (work_of planned.now.plan) from result }
    ensures reads { steps.new.reads + left_after result ≤ steps.old.reads + from.left }
    ensures writes { steps.new.writes ≡ steps.old.writes }
{
    if from.left == 0 {
        return CursorStep::Stays;
    }
    match past_clear(pool, planned, parts, from.at, steps) {
        Ahead::On(at) => CursorStep::On(Came {
            at,
            left: from.left - 1,
        }),
        Ahead::At(held) => {
            let plan = parts.get(from.at.part);
            let cost = cost_in(plan, &planned.plan);
            if from.left < cost {
                return CursorStep::Stays;
            }
            let prepared = planned.prepared.part(&planned.query, parts, from.at.part);
            let (pos, i) = (from.at.place, from.at.cell);
            let cell = SeenCell { i, held };
            let row = row_of_cell(&planned.query, plan, prepared, pos, cell);
            let met = RowAt {
                q: &planned.query,
                part: plan,
                prepared,
                arriving: pos,
                row: &row,
            };
            if !is_saturated(pool, &planned.extent, &met, cell, table, scratch, steps) {
                return CursorStep::Open;
            }
            let at = Cursor {
                part: from.at.part,
                place: from.at.place,
                cell: from.at.cell + 1,
            };
            CursorStep::On(Came {
                at,
                left: from.left - cost,
            })
        }
    }
}

/// Returns what is known of the cells of a query with DISTINCT after as many reads at most as are left, where all before a cursor are known to be
/// saturated: the cursor goes on over cells that are saturated, and when it comes behind the last one all are known to be; where it comes to
/// one that is not, nothing is known any more. It stays where the next cell may cost more reads than are left. No cell is written.
pub fn look_on<L: Ledger>(
    pool: &Pool,
    planned: &PlannedQuery,
    parts: &PartPlans,
    from: Came,
    table: &Answers,
    scratch: &mut Scratch,
    steps: &mut Steps<L>,
) -> Saturation
    requires look { CanLook planned.now.query parts.now planned.now.prepared pool.now planned.now.extent table.now.width (work_of planned.now.plan) }
    requires known { AreSaturated (saturation.Before from.at) planned.now.query parts.now (read_from (cells_of pool.now planned.now.extent)) (tuples_of table.now.entries) }
    ensures known { AreSaturated result planned.now.query parts.now (read_from (cells_of pool.now planned.now.extent)) (tuples_of table.now.entries) }
    ensures moves { HasMoved from.at from.left (work_of planned.now.plan) result }
    ensures open { result ≡ saturation.None → IsClosed planned.now.query parts.now (read_from (cells_of pool.now planned.now.extent)) (tuples_of table.now.entries) → ⊥ }
    ensures reads { steps.new.reads ≤ steps.old.reads + from.left }
    ensures writes { steps.new.writes ≡ steps.old.writes }
{
    let mut came = from;
    'cells: while came.at.part < parts.len() {
        match go_on(pool, planned, parts, came, table, scratch, steps) {
            CursorStep::On(next) => came = next,
            CursorStep::Stays => return Saturation::Before(came.at),
            CursorStep::Open => return Saturation::None,
        }
    }
    Saturation::All
}
