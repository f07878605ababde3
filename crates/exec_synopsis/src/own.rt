//! The cell that a row falls into: what it holds, and what it holds with the row.
ghost use Rattle.std.specs.Prelude.{◌≡◌, ◌+◌, ◌*◌, ◌<◌, ◌≤◌, ◌↔◌, length, slice_index_or, IsTrue, true};
ghost use Rattle.sem_query.specs.declared.cell.Cell.TheVariants as cells;
ghost use Rattle.sem_query.specs.Meaning.{by_column};
ghost use Rattle.sem_query.specs.Admission.{admits};
ghost use Rattle.exec_pool.specs.Extents.{cells_of, with_cells, IsLive};
ghost use Rattle.exec_synopsis.specs.Premises.{IsHeld, HasRoom, row_cell};
ghost use Rattle.exec_synopsis.specs.Axes.{IsCell};
ghost use Rattle.exec_synopsis.specs.Inserting.{cells_with_row};
ghost use Rattle.exec_synopsis.specs.Own.{IsOwnCell, with_row};

use crate::axes::Placement;
use crate::cells::{cell_of, stays_with, with_row};
use exec_pool::{Extent, Pool, Steps};
use sem_query::{Cell, Kind, PartPlan, Query, Row};
use std::sync::ledger::Ledger;

/// Where a row stands that a part admits: its place of FROM, and where it stands in the part.
#[derive(Clone, Copy, Debug, PartialEq, Eq)]
pub struct Admitted {
    pub pos: u8,
    pub placement: Placement,
}

/// The cell that a row falls into: its number, what it keeps of rows, and what it holds.
#[derive(Clone, Copy, Debug, PartialEq, Eq, Drop)]
pub struct OwnCell {
    pub number: u32,
    pub kind: Kind,
    pub held: Cell,
}

impl OwnCell {
    /// Returns whether a row leaves the cell as it is.
    pub fn stays(&self, row: &Row) -> bool
        ensures { (result ≡ true) ↔ (with_row self.now row.now.items ≡ self.now.held) }
    {
        stays_with(self.kind, row.as_slice(), self.held)
    }

    // What the cell holds with a row more.
    fn with_row(&self, row: &Row) -> Cell
        requires { HasRoom self.now.held }
        ensures { result ≡ with_row self.now row.now.items }
    {
        with_row(self.kind, row.as_slice(), self.held)
    }
}

/// Returns the cell that a row falls into in a part that admits it. This is one read.
#[inline(always)]
pub fn own_cell<L: Ledger>(
    pool: &Pool,
    e: &Extent,
    q: &Query,
    part: &PartPlan,
    row: &Row,
    at: Admitted,
    steps: &mut Steps<L>,
) -> OwnCell
    requires here { at.pos < length q.now.from }
    requires several { 1 < length q.now.from }
    requires held { IsHeld q.now part.now pool.now e.now }
    requires admitted { IsTrue (admits q.now part.now at.pos (by_column row.now.items)) }
    requires placement { IsCell part.now at.pos row.now.items at.placement }
    requires room { HasRoom (slice_index_or (cells_of pool.now e.now) (row_cell part.now at.pos row.now.items) cells.Empty) }
    ensures own { IsOwnCell part.now at.pos row.now.items (cells_of pool.now e.now) result }
    ensures inside { result.number < 64 * e.now.pages }
    ensures room { HasRoom result.held }
    ensures reads { steps.new.reads ≡ steps.old.reads + 1 }
    ensures writes { steps.new.writes ≡ steps.old.writes }
{
    // Named for the proof alone: the contract speaks of it.
    let _query = q;
    let values = row.as_slice();
    let (number, kind) = cell_of(part, at.pos, values, at.placement, e);
    let held = pool.read(e, number, steps);
    OwnCell { number, kind, held }
}

/// Takes a row into its cell, and changes no other cell of any extent. A cell that stays as it is is not written; else this is one write.
#[inline(always)]
pub fn put_own<L: Ledger>(
    pool: &mut Pool,
    e: &Extent,
    part: &PartPlan,
    row: &Row,
    pos: u8,
    own: &OwnCell,
    steps: &mut Steps<L>,
)
    requires live { IsLive pool.old e.now }
    requires inside { own.now.number < 64 * e.now.pages }
    requires own { IsOwnCell part.now pos row.now.items (cells_of pool.old e.now) own.now }
    requires room { HasRoom own.now.held }
    ensures cell { pool.new ≡ with_cells pool.old e.now (cells_with_row part.now pos row.now.items (cells_of pool.old e.now)) }
    ensures reads { steps.new.reads ≡ steps.old.reads }
    ensures writes { steps.new.writes ≤ steps.old.writes + 1 }
{
    // Named for the proof alone: the contract speaks of them.
    let _part = part;
    let _pos = pos;
    if own.stays(row) {
        return;
    }
    pool.write(e, own.number, own.with_row(row), steps);
}
