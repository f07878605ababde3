//! The cells of a pool, by their places, with a word of marks for each page of 64: which of its cells are not empty. Room for all pages is taken
//! once, and a page of it is touched when it is added.
ghost use Rattle.std.specs.Prelude.{◌≡◌, ℕ, ◌+◌, ◌*◌, ◌/◌, ◌%◌, ◌≢◌, ◌<◌, ◌≤◌, List, [], length, slice_index_or, slice_set, IfOk, MatchOption};
ghost use Rattle.sem_query.specs.declared.cell.Cell.{Cell};
ghost use Rattle.sem_query.specs.declared.cell.Cell.TheVariants.{Empty as empty};

use crate::counted::{CountedCell, PageMarks};
use crate::pages::clear_page;
use crate::scan::Occupied;
use crate::steps::Steps;
use sem_query::Cell;
use std::alloc::{AllocError, Global};
use std::marker::Model;
use std::sync::ledger::Ledger;

/// The cells of the pages that there are. The word of a page has a bit for each of its cells that is not empty, and only the calls below
/// write either. A clause sees the list of the cells, and for how many pages there is room.
#[derive(Drop)]
pub struct MarkedCells {
    cells: Vec<CountedCell>,
    marks: Vec<PageMarks>,
    room: usize,
}

impl Model for MarkedCells {
    ghost use Rattle.std.specs.Prelude.{◌*◌, ◌≤◌, vec_capacity};
    ghost use Rattle.exec_pool.specs.Marks.{CellsValue, AreMarked};

    ghost Value = { CellsValue };

    ghost view = { λ board. record { cells = board.cells.items; room = board.room } };

    ghost invariant = { λ board. AreMarked board.cells.items board.marks.items × (board.room * 64 ≤ vec_capacity board.cells) × (board.room ≤ vec_capacity board.marks) };
}

impl MarkedCells {
    /// Returns no page, with room for so many. An error says that memory was not found; no other call takes any.
    pub fn with_capacity(alloc: Global, pages: usize) -> Result<MarkedCells, AllocError>
        requires { pages ≤ 16384 }
        ensures { IfOk result (λ board. board ≡ record { cells = []; room = pages }) }
    {
        let cells = Vec::with_capacity(alloc, pages * 64)?;
        let marks = Vec::with_capacity(alloc, pages)?;
        Ok(MarkedCells {
            cells,
            marks,
            room: pages,
        })
    }

    /// Returns how many pages there are.
    pub fn pages(&self) -> usize
        ensures { length self.now.cells ≡ result * 64 }
    {
        self.marks.len()
    }

    /// Adds so many pages of empty cells behind the others.
    pub fn add_pages(&mut self, pages: usize)
        requires { length self.old.cells + pages * 64 ≤ self.old.room * 64 }
        ensures len { length self.new.cells ≡ length self.old.cells + pages * 64 }
        ensures empty { (place : ℕ) → slice_index_or self.new.cells place empty ≡ slice_index_or self.old.cells place empty }
        ensures room { self.new.room ≡ self.old.room }
    {
        let all = self.marks.len() + pages;
        // There is room, so this is done.
        let _cells_stored = self
            .cells
            .resize(all * 64, CountedCell::new(Cell::Empty))
            .is_ok();
        let _marks_stored = self.marks.resize(all, PageMarks::none()).is_ok();
    }

    /// Returns the cell at a place. This is one read.
    #[inline(always)]
    pub fn cell<L: Ledger>(&self, place: usize, steps: &mut Steps<L>) -> &Cell
        requires { place < length self.now.cells }
        ensures cell { result.now ≡ slice_index_or self.now.cells place empty }
        ensures reads { steps.new.reads ≡ steps.old.reads + 1 }
        ensures writes { steps.new.writes ≡ steps.old.writes }
    {
        self.cells[place].look(steps)
    }

    /// Writes the cell at a place.
    #[inline(always)]
    pub fn set(&mut self, place: usize, cell: Cell)
        requires { place < length self.old.cells }
        ensures { self.new ≡ record { cells = slice_set self.old.cells place cell; room = self.old.room } }
    {
        let page = place / 64;
        self.marks[page] = self.marks[page].with(place % 64, &cell);
        self.cells[place] = CountedCell::new(cell);
    }

    /// Empties the cells of a page.
    pub fn clear_page(&mut self, page: usize)
        requires { page * 64 + 64 ≤ length self.old.cells }
        ensures len { length self.new.cells ≡ length self.old.cells }
        ensures room { self.new.room ≡ self.old.room }
        ensures cleared { (place : ℕ) → place / 64 ≡ page → slice_index_or self.new.cells place empty ≡ empty }
        ensures others { (place : ℕ) → place / 64 ≢ page → slice_index_or self.new.cells place empty ≡ slice_index_or self.old.cells place empty }
    {
        clear_page(&mut self.cells, page);
        self.marks[page] = PageMarks::none();
    }

    /// Returns the first of so many cells of a page, from a place on, that is not empty, by how far from that place it is. This is one read,
    /// of the word of marks: the cell that it tells of costs none of its own.
    #[inline(always)]
    pub fn first_from<L: Ledger>(
        &self,
        place: usize,
        count: usize,
        steps: &mut Steps<L>,
    ) -> Option<Occupied>
        requires inside { place < length self.now.cells }
        requires page { place % 64 + count ≤ 64 }
        ensures first { MatchOption result ((k : ℕ) → k < count → slice_index_or self.now.cells (place + k) empty ≡ empty) (λ found. (found.next < count) × ((j : ℕ) → j < found.next → slice_index_or self.now.cells (place + j) empty ≡ empty) × (slice_index_or self.now.cells (place + found.next) empty ≡ empty → ⊥) × (found.cell ≡ slice_index_or self.now.cells (place + found.next) empty)) }
        ensures reads { steps.new.reads ≡ steps.old.reads + 1 }
        ensures writes { steps.new.writes ≡ steps.old.writes }
    {
        match self.marks[place / 64].first_of(place % 64, count, steps) {
            Some(told) => {
                let ahead = told.ahead();
                Some(Occupied {
                    next: ahead as u32,
                    cell: self.cells[place + ahead].look_told(told),
                })
            }
            None => None,
        }
    }
}
