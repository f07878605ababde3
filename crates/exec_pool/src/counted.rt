//! A cell, and the marks of a page, of which each look is counted: what they hold is seen by these calls alone, and no clause above them has
//! to say at which cells a body looks.
ghost use Rattle.std.specs.Prelude.{◌≡◌, ◌≢◌, ℕ, ◌+◌, ◌<◌, ◌≤◌, MatchOption, true, false};
ghost use Rattle.std.specs.Int.{bit_at};
ghost use Rattle.sem_query.specs.declared.cell.Cell.TheVariants.{Empty as empty};
ghost use Rattle.exec_pool.specs.Marks.{mark};

use crate::steps::Steps;
use sem_query::Cell;
use std::marker::Model;
use std::sync::ledger::Ledger;

/// A cell. A clause sees what it holds.
#[derive(Clone, Copy, Drop)]
pub struct CountedCell {
    held: Cell,
}

impl Model for CountedCell {
    ghost use Rattle.sem_query.specs.declared.cell.Cell.{Cell};

    ghost Value = { Cell };

    ghost view = { λ cell. cell.held };

    ghost inverse = { λ held. record { held = held } };
}

/// The marks of a page of 64 cells: a bit for each of them that is not empty. A clause sees the word.
#[derive(Clone, Copy, Drop)]
pub struct PageMarks {
    word: u64,
}

impl Model for PageMarks {
    ghost use Rattle.std.specs.Prelude.{ℕ};

    ghost Value = { ℕ };

    ghost view = { λ marks. marks.word };

    ghost inverse = { λ word. record { word = word } };
}

/// How far ahead a mark tells of a cell that is not empty. It is given by a look at marks, and spent by a look at the one cell that it tells of.
#[derive(Drop)]
pub struct Told {
    ahead: usize,
}

impl Told {
    /// Returns how far ahead the cell is.
    #[inline(always)]
    pub fn ahead(&self) -> usize
        ensures { result ≡ self.now.ahead }
    {
        self.ahead
    }
}

impl CountedCell {
    /// Makes a cell that holds this.
    #[inline(always)]
    pub fn new(held: Cell) -> CountedCell
        ensures { result ≡ held }
    {
        CountedCell { held }
    }

    /// Returns what the cell holds. This is one read.
    #[inline(always)]
    pub fn look<L: Ledger>(&self, steps: &mut Steps<L>) -> &Cell
        ensures held { result.now ≡ self.now }
        ensures reads { steps.new.reads ≡ steps.old.reads + 1 }
        ensures writes { steps.new.writes ≡ steps.old.writes }
    {
        steps.count_read();
        &self.held
    }

    /// Returns what the cell holds of which marks told: the look at them was the read.
    #[inline(always)]
    pub fn look_told(&self, told: Told) -> Cell
        ensures { result ≡ self.now }
    {
        let Told { ahead: _ahead } = told;
        self.held
    }
}

impl PageMarks {
    /// Makes the marks of a page of empty cells.
    #[inline(always)]
    pub fn none() -> PageMarks
        ensures { result ≡ 0 }
    {
        PageMarks { word: 0 }
    }

    /// Returns the marks where a cell of the page holds this, and the others are as before.
    #[inline(always)]
    pub fn with(self, bit: usize, cell: &Cell) -> PageMarks
        requires { bit < 64 }
        ensures own { bit_at result bit ≡ mark cell.now }
        ensures others { (i : ℕ) → i < 64 → i ≢ bit → bit_at result i ≡ bit_at self i }
    {
        PageMarks {
            word: with_mark(self.word, bit, cell),
        }
    }

    /// Returns the first of so many marks, from one on, that is set. This is one read.
    #[inline(always)]
    pub fn first_of<L: Ledger>(
        &self,
        from: usize,
        count: usize,
        steps: &mut Steps<L>,
    ) -> Option<Told>
        requires from { from < 64 }
        requires page { from + count ≤ 64 }
        ensures first { MatchOption result ((k : ℕ) → k < count → bit_at self.now (from + k) ≡ 0) (λ told. (told.ahead < count) × ((j : ℕ) → j < told.ahead → bit_at self.now (from + j) ≡ 0) × (bit_at self.now (from + told.ahead) ≡ 1)) }
        ensures reads { steps.new.reads ≡ steps.old.reads + 1 }
        ensures writes { steps.new.writes ≡ steps.old.writes }
    {
        steps.count_read();
        match first_set(self.word, from, count) {
            Some(ahead) => Some(Told { ahead }),
            None => None,
        }
    }
}

/// Returns whether no row is in the cell.
pub fn is_empty(cell: &Cell) -> bool
    ensures yes { result ≡ true → cell.now ≡ empty }
    ensures no { result ≡ false → cell.now ≡ empty → ⊥ }
{
    match cell {
        Cell::Empty => true,
        Cell::Count(_) => false,
        Cell::Present => false,
        Cell::Extreme(_) => false,
    }
}

// A word in which that bit is the mark of a cell, and the others are as before.
#[inline(always)]
fn with_mark(word: u64, bit: usize, cell: &Cell) -> u64
    requires { bit < 64 }
    ensures own { bit_at result bit ≡ mark cell.now }
    ensures others { (i : ℕ) → i < 64 → i ≢ bit → bit_at result i ≡ bit_at word i }
{
    match cell {
        Cell::Empty => without_bit(word, bit),
        Cell::Count(_) => with_bit(word, bit),
        Cell::Present => with_bit(word, bit),
        Cell::Extreme(_) => with_bit(word, bit),
    }
}

// The word with that bit set.
#[inline(always)]
fn with_bit(word: u64, bit: usize) -> u64
    requires { bit < 64 }
    ensures own { bit_at result bit ≡ 1 }
    ensures others { (i : ℕ) → i ≢ bit → bit_at result i ≡ bit_at word i }
{
    word | (1 << bit)
}

// The word without that bit.
#[inline(always)]
fn without_bit(word: u64, bit: usize) -> u64
    requires { bit < 64 }
    ensures own { bit_at result bit ≡ 0 }
    ensures others { (i : ℕ) → i < 64 → i ≢ bit → bit_at result i ≡ bit_at word i }
{
    word & !(1 << bit)
}

// The first of so many bits of a word, from one on, that is set: how far from that one it is.
#[inline(always)]
fn first_set(word: u64, from: usize, count: usize) -> Option<usize>
    requires from { from < 64 }
    requires page { from + count ≤ 64 }
    ensures { MatchOption result ((k : ℕ) → k < count → bit_at word (from + k) ≡ 0) (λ k. (k < count) × ((j : ℕ) → j < k → bit_at word (from + j) ≡ 0) × (bit_at word (from + k) ≡ 1)) }
{
    let first = (word >> from).trailing_zeros() as usize;
    if first < count { Some(first) } else { None }
}
