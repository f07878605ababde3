//! A counter of reads and writes of cells that exists for proofs alone: it takes no bytes and no time.
ghost use Rattle.std.specs.Prelude.{◌≡◌, ℕ, ◌+◌, ◌<◌, ◌≤◌};

use std::marker::Model;
use std::sync::ledger::{Blank, Book, Ledger, Share};

/// How many cells of a pool were read and how many were written. Only the pool counts: no other crate can.
#[derive(Drop)]
pub struct Steps<L: Ledger> {
    book: Book<L>,
    reads: Share<L>,
    writes: Share<L>,
}

impl<L: Ledger> Model for Steps<L> {
    ghost use Rattle.std.specs.Prelude.{◌<◌};
    ghost use Rattle.exec_pool.specs.Counted.{StepsValue};

    ghost Value = { StepsValue };

    ghost view = { λ s. record { reads = s.reads.amount; writes = s.writes.amount } };

    ghost invariant = { λ s. (0 < s.reads.parts) × (0 < s.writes.parts) };
}

impl<L: Ledger> Steps<L> {
    /// Makes a counter by which no cell was read and none was written. A ledger gives one blank, `Blank::new(2)`: one part for the reads, one for
    /// the writes.
    pub fn new(blank: Blank) -> Steps<L>
        requires name { blank.name ≡ L.name }
        requires parts { blank.parts ≡ L.parts }
        requires two { 2 ≤ L.parts }
        ensures reads { result.reads ≡ 0 }
        ensures writes { result.writes ≡ 0 }
    {
        let (book, mut reads) = blank.open::<L>();
        let writes = reads.split_off(1, 0);
        Steps {
            book,
            reads,
            writes,
        }
    }

    // Counts one cell that is read.
    pub(crate) fn count_read(&mut self)
        ensures reads { self.new.reads ≡ self.old.reads + 1 }
        ensures writes { self.new.writes ≡ self.old.writes }
    {
        self.book.add(&mut self.reads, 1);
    }

    // Counts so many cells that are read.
    pub(crate) fn count_reads(&mut self, count: usize)
        ensures reads { self.new.reads ≡ self.old.reads + count }
        ensures writes { self.new.writes ≡ self.old.writes }
    {
        self.book.add(&mut self.reads, count as u64);
    }

    // Counts one cell that is written.
    pub(crate) fn count_write(&mut self)
        ensures reads { self.new.reads ≡ self.old.reads }
        ensures writes { self.new.writes ≡ self.old.writes + 1 }
    {
        self.book.add(&mut self.writes, 1);
    }
}
