//! Of which cells it is known that the table has all that they tell, so that a row that leaves its cell as it is answers nothing new.
ghost use Rattle.std.specs.Prelude.{◌≡◌, ◌<◌, ◌↔◌, length, true, if◌then◌else◌};
ghost use Rattle.exec_saturation.specs.declared.saturation.Saturation.TheVariants as saturation;
ghost use Rattle.exec_saturation.specs.Known.{none_yet};

use sem_query::Query;

/// A cell, in the order of parts, places of FROM and cells: the number of its part, the place of FROM, and its place in the box there.
#[derive(Clone, Copy, Debug, PartialEq, Eq, Drop)]
pub struct Cursor {
    pub part: u32,
    pub place: u8,
    pub cell: u32,
}

/// Of which cells it is known that the table has each tuple that they tell beside the present cells of the other streams.
#[derive(Clone, Copy, Debug, PartialEq, Eq, Drop)]
pub enum Saturation {
    /// Of all: so after creation, as long as no cell is loaded, and again when all were looked at.
    All,
    /// Of those before a cell: so after a cell was loaded, while one after the other is looked at.
    Before(Cursor),
    /// Of none, and none is looked at any more.
    None,
}

impl Saturation {
    // Whether it is known of all cells.
    fn is_all(self) -> bool
        ensures { (result ≡ true) ↔ (self ≡ saturation.All) }
    {
        match self {
            Saturation::All => true,
            _ => false,
        }
    }

    /// Returns what is known after a cell was asked to be loaded, and was or was not.
    pub fn after_load(self, was_loaded: bool) -> Saturation
        ensures { result ≡ (if was_loaded then none_yet else self) }
    {
        if was_loaded {
            Saturation::Before(Cursor {
                part: 0,
                place: 0,
                cell: 0,
            })
        } else {
            self
        }
    }

    /// Returns whether a row that leaves its cell as it is is known to be answered nothing new: with DISTINCT, where the query has cells
    /// and all are saturated.
    pub fn spares(self, q: &Query) -> bool
        ensures all { result ≡ true → self ≡ saturation.All }
        ensures distinct { result ≡ true → q.now.distinct ≡ true }
        ensures several { result ≡ true → 1 < length q.now.from }
        ensures sure { self ≡ saturation.All → q.now.distinct ≡ true → 1 < length q.now.from → result ≡ true }
    {
        if !self.is_all() || !q.distinct() {
            return false;
        }
        1 < q.from().len()
    }
}
