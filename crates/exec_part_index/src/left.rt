//! The parts that a row passes over, since it leaves their cells as they are.
ghost use Rattle.std.specs.Prelude.{◌≡◌, ◌↔◌, ◌<◌, ◌≤◌, ◌+◌, true, false, length, None};
ghost use Rattle.exec_part_index.specs.PartIndex.{IsPartIndex};
ghost use Rattle.exec_synopsis.specs.Own.{with_row};
ghost use Rattle.exec_part_index.specs.declared.left.Reached.TheVariants.{Part};
ghost use Rattle.exec_part_index.specs.Leaving.{AreHeld, IsPlaced, IsOnChain, HasReached, number_of, reads_to};

use crate::part_index::Led;
use crate::shift::CellAt;
use exec_pool::{Pool, Steps};
use exec_synopsis::{OwnCell, Placement};
use sem_query::{Cell, Row};
use std::sync::ledger::Ledger;

/// The number of a part that admits or may admit a row, where the row stands there, and its own cell, where that was read.
#[derive(Clone, Copy)]
pub struct Met {
    pub i: u32,
    pub placement: Placement,
    pub own: Option<OwnCell>,
}

/// Where a row came to along a chain.
#[derive(Clone, Copy)]
pub enum Reached {
    /// Behind all parts that it passes over, to a part of this number of which it is not told where the row stands, or to none.
    Unasked(u32),
    /// To a part of which that is told.
    Part(Met),
}

// Whether a row leaves its own cell as it is: an empty cell does not stay so, and one that says that there are rows does, whatever it keeps of them.
fn stays(own: &OwnCell, row: &Row) -> bool
    ensures { (result ≡ true) ↔ (with_row own.now row.now.items ≡ own.now.held) }
{
    // Asked one after the other, the usual one first: to choose among all by one jump costs more.
    match own.held {
        Cell::Present => true,
        _ => match own.held {
            Cell::Empty => false,
            _ => own.stays(row),
        },
    }
}

/// Leads a row from a part over those whose cells it leaves as they are, where it may pass over them, to the first that it turns or that is not told. Each cell seen
/// is one read.
#[inline(always)]
pub fn reach<L: Ledger>(
    pool: &Pool,
    led: &Led<'_>,
    passes: bool,
    i: u32,
    placement: Placement,
    steps: &mut Steps<L>,
) -> Reached
    requires here { led.now.pos < length led.now.q.now.from }
    requires several { passes ≡ true → 1 < length led.now.q.now.from }
    requires part_index { IsPartIndex led.now.q.now led.now.parts.now led.now.pos led.now.part_index.now }
    requires held { AreHeld led.now.q.now led.now.parts.now pool.now led.now.extent.now }
    requires inside { i < length led.now.parts.now }
    requires placed { IsPlaced led.now.q.now led.now.parts.now led.now.pos led.now.row.now.items i placement }
    requires there { IsOnChain led.now.q.now led.now.parts.now led.now.part_index.now led.now.row.now.items i }
    ensures none { passes ≡ false → result ≡ Part record { i = i; placement = placement; own = None } }
    ensures reached { HasReached led.now.q.now led.now.parts.now led.now.part_index.now led.now.pos led.now.row.now.items pool.now led.now.extent.now i result }
    ensures reads { steps.new.reads + i ≤ steps.old.reads + number_of result + reads_to result }
    ensures writes { steps.new.writes ≡ steps.old.writes }
{
    match placement {
        Placement::Cell { number, kind } if passes => {
            let entries = led.part_index.entries();
            let mut at = i;
            let mut cell = CellAt { number, kind };
            'chain: loop {
                let held = pool.read(led.extent, cell.number, steps);
                let own = OwnCell {
                    number: cell.number,
                    kind: cell.kind,
                    held,
                };
                if !stays(&own, led.row) {
                    return Reached::Part(Met {
                        i: at,
                        placement: cell.placement(),
                        own: Some(own),
                    });
                }
                let entry = &entries[at as usize];
                let told = led.cell_behind(cell, at, entry);
                at = entry.next;
                match told {
                    Some(next) => cell = next,
                    None => return Reached::Unasked(at),
                }
            }
        }
        _ => Reached::Part(Met {
            i,
            placement,
            own: None,
        }),
    }
}
