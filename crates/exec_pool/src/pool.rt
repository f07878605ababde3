//! The page pool: a clause sees how many pages are free and the cells of each live extent.
ghost use Rattle.std.specs.Prelude.{◌≡◌, ℕ, ◌+◌, ◌*◌, ◌<◌, ◌≤◌, length, slice_index, slice_index_or, slice_set, IfOk, MatchResult};
ghost use Rattle.exec_pool.specs.Extents.{cells_of, with_cells, IsLive, IsTaken, IsFull, IsGivenBack, live_extents, lent_pages, AreApart, IsFresh};
ghost use Rattle.exec_pool.specs.Strides.{at_stride, Scanned, Marked};
ghost use Rattle.sem_query.specs.declared.cell.Cell.{Cell};
ghost use Rattle.sem_query.specs.declared.cell.Cell.TheVariants.{Empty as empty};

use crate::marked::MarkedCells;
use crate::pages::{add_pages, clear_pages, lend_pages, return_pages, vacant};
use crate::scan::{Occupied, StridedCells, first_along, first_beside, first_marked};
use crate::steps::Steps;
use sem_query::Cell;
use std::alloc::{AllocError, Global};
use std::marker::Model;
use std::sync::ledger::Ledger;
use thiserror::Error;

/// The cells of a page.
const CELLS_PER_PAGE: usize = 64;

/// The slots: the most live extents.
const SLOTS: usize = 64;

/// The entries of the page table that a slot has: the most pages of an extent.
const PAGES_PER_SLOT: usize = 4096;

/// Why no extent was taken.
#[derive(Clone, Copy, Debug, PartialEq, Eq, Error)]
pub enum PoolError {
    /// Fewer pages are free than are needed.
    #[error("{needed} pages are needed and {free} are free")]
    Full { needed: u32, free: u32 },
}

/// Pages lent out: 64 cells for each page, numbered from 0. It cannot be dropped or copied; `Pool::give_back` spends it.
pub struct Extent {
    slot: u8,
    pages: u16,
}

/// All pages, free and lent out. The numbers of the pages of slot s stand in `page_table` from 4096 * s on, and those of the free pages
/// that were lent before in `spare`. The other free pages have no cells and no number yet: room for all is taken once, and none of it is
/// touched before it is needed.
#[derive(Drop)]
pub struct Pool {
    cells: MarkedCells,
    page_table: Vec<u16>,
    spare: Vec<u16>,
    slots: Vec<Option<u16>>,
    free: u32,
    pages: u32,
}

impl Model for Pool {
    ghost use Rattle.exec_pool.specs.Extents.{PoolValue};

    ghost Value = { PoolValue };

    ghost use Rattle.std.specs.Prelude.{vec_capacity};
    ghost use Rattle.exec_pool.specs.Places.{lent, extents, IsSound, HasRoom};

    ghost view = { λ pool. record { pages = pool.pages; free = pool.free; lent = lent pool.page_table.items pool.slots.items; extents = extents pool.cells.cells pool.page_table.items pool.slots.items } };

    ghost invariant = { λ pool. IsSound pool.cells.cells pool.page_table.items pool.spare.items pool.slots.items pool.free pool.pages × HasRoom pool.pages pool.cells.room (vec_capacity pool.page_table) (vec_capacity pool.spare) };
}

impl Pool {
    /// Returns a pool of at most 16,384 pages, all of them free, with 64 slots for extents. An error says that memory was not
    /// found; no other call takes any. The room is taken and not touched: its size costs no time here.
    pub fn new(alloc: Global, pages: u16) -> Result<Pool, AllocError>
        requires { pages ≤ 16384 }
        ensures { IfOk result (λ pool. IsFresh pages pool) }
    {
        let cells = MarkedCells::with_capacity(alloc, usize::from(pages))?;
        let page_table = Vec::with_capacity(alloc, SLOTS * PAGES_PER_SLOT)?;
        let spare = Vec::with_capacity(alloc, usize::from(pages))?;
        let slots = no_slots(alloc)?;
        Ok(Pool {
            cells,
            page_table,
            spare,
            slots,
            free: u32::from(pages),
            pages: u32::from(pages),
        })
    }

    /// Returns the number of free pages: all pages but those of the live extents, which have no page in common.
    pub fn free(&self) -> u32
        ensures count { result ≡ self.now.free }
        ensures others { result + lent_pages self.now ≡ self.now.pages }
        ensures apart { AreApart self.now }
    {
        self.free
    }

    /// Takes an extent of at most 4,096 pages, also of none, with all its cells empty. `PoolError::Full` comes exactly
    /// where more pages are needed than are free, and then nothing changes.
    pub fn take(&mut self, pages: u16) -> Result<Extent, PoolError>
        requires small { pages ≤ 4096 }
        requires few { live_extents self.old < 64 }
        ensures { MatchResult result (λ extent. IsTaken self.old pages self.new extent) (λ refused. IsFull self.old pages self.new refused) }
    {
        let needed = u32::from(pages);
        if needed > self.free {
            return Err(PoolError::Full {
                needed,
                free: self.free,
            });
        }
        let count = usize::from(pages);
        let fresh = count.saturating_sub(self.spare.len());
        add_pages(&mut self.cells, &mut self.spare, fresh);
        let slot = vacant(&self.slots);
        let first = slot * PAGES_PER_SLOT;
        lend_pages(&mut self.page_table, first, &mut self.spare, count);
        clear_pages(&mut self.cells, &self.page_table, first, count - fresh);
        self.slots[slot] = Some(pages);
        self.free -= needed;
        Ok(Extent {
            slot: slot as u8,
            pages,
        })
    }

    /// Returns the cell of an extent with that number. This is one read.
    pub fn read<L: Ledger>(&self, extent: &Extent, index: u32, steps: &mut Steps<L>) -> Cell
        requires live { IsLive self.now extent.now }
        requires within { index < 64 * extent.now.pages }
        ensures cell { (otherwise : Cell) → result ≡ slice_index_or (cells_of self.now extent.now) index otherwise }
        ensures reads { steps.new.reads ≡ steps.old.reads + 1 }
        ensures writes { steps.new.writes ≡ steps.old.writes }
    {
        let i = index as usize;
        let page = self.page_table[usize::from(extent.slot) * PAGES_PER_SLOT + i / CELLS_PER_PAGE];
        *self.cells.cell(
            usize::from(page) * CELLS_PER_PAGE + i % CELLS_PER_PAGE,
            steps,
        )
    }

    /// Returns the first cell of a line of an extent that is not empty, from one place up to another, if one is not. Each cell that is
    /// seen is one read.
    pub fn first_occupied<L: Ledger>(
        &self,
        extent: &Extent,
        strided: StridedCells,
        from: u32,
        to: u32,
        steps: &mut Steps<L>,
    ) -> Option<Occupied>
        requires live { IsLive self.now extent.now }
        requires within { (i : ℕ) → i < to → strided.first + i * strided.stride < 64 * extent.now.pages }
        requires below { from ≤ to }
        ensures reads { Scanned (at_stride (cells_of self.now extent.now) strided) from to steps.old.reads result steps.new.reads }
        ensures writes { steps.new.writes ≡ steps.old.writes }
    {
        let slot = usize::from(extent.slot);
        if strided.stride == 1 && to - from > 1 {
            return first_beside(
                &self.cells,
                &self.page_table,
                slot,
                strided.first,
                from,
                to,
                steps,
            );
        }
        first_along(
            &self.cells,
            &self.page_table,
            slot,
            strided,
            from,
            to,
            steps,
        )
    }

    /// Returns the first of so many cells of an extent that is not empty, side by side from one on, if one is not. The words of marks tell it, one
    /// for each page: each word that is looked at is one read, and the cell that is found costs none of its own.
    pub fn first_marked<L: Ledger>(
        &self,
        extent: &Extent,
        first: u32,
        count: u32,
        steps: &mut Steps<L>,
    ) -> Option<Occupied>
        requires live { IsLive self.now extent.now }
        requires within { first + count ≤ 64 * extent.now.pages }
        ensures reads { Marked (λ i. slice_index_or (cells_of self.now extent.now) (first + i) empty) first count steps.old.reads result steps.new.reads }
        ensures writes { steps.new.writes ≡ steps.old.writes }
    {
        first_marked(
            &self.cells,
            &self.page_table,
            usize::from(extent.slot),
            first,
            count,
            steps,
        )
    }

    /// Writes the cell of an extent with that number, and no other cell of any extent. This is one write.
    pub fn write<L: Ledger>(
        &mut self,
        extent: &Extent,
        index: u32,
        cell: Cell,
        steps: &mut Steps<L>,
    )
        requires live { IsLive self.old extent.now }
        requires within { index < 64 * extent.now.pages }
        ensures cells { self.new ≡ with_cells self.old extent.now (slice_set (cells_of self.old extent.now) index cell) }
        ensures reads { steps.new.reads ≡ steps.old.reads }
        ensures writes { steps.new.writes ≡ steps.old.writes + 1 }
    {
        steps.count_write();
        let i = index as usize;
        let page = self.page_table[usize::from(extent.slot) * PAGES_PER_SLOT + i / CELLS_PER_PAGE];
        self.cells.set(
            usize::from(page) * CELLS_PER_PAGE + i % CELLS_PER_PAGE,
            cell,
        );
    }

    /// Makes the pages of an extent free again.
    pub fn give_back(&mut self, extent: Extent)
        requires { IsLive self.old extent }
        ensures { IsGivenBack self.old extent self.new }
    {
        let Extent { slot, pages } = extent;
        let slot = usize::from(slot);
        return_pages(
            &self.page_table,
            slot * PAGES_PER_SLOT,
            usize::from(pages),
            &mut self.spare,
        );
        self.slots[slot] = None;
        self.free += u32::from(pages);
    }
}

/// The slots of a pool in which no extent is live.
fn no_slots(alloc: Global) -> Result<Vec<Option<u16>>, AllocError>
    ensures length { IfOk result (λ slots. length slots.items ≡ 64) }
    ensures none { IfOk result (λ slots. (s : ℕ) → slice_index_or slots.items s None ≡ None) }
{
    let mut slots = Vec::with_capacity(alloc, SLOTS)?;
    for i in 0..SLOTS {
        slots.push(None)?;
    }
    Ok(slots)
}
