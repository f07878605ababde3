//! What a row of a stream of FROM does in all parts of a query.
ghost use Rattle.std.specs.Prelude.{◌≡◌, ◌<◌, ◌≤◌, ◌+◌, ◌==◌, length, slice_index_or, MatchOption, true, false};
ghost use Rattle.std.specs.List.{list_any};
ghost use Rattle.sem_query.specs.Meaning.{by_column};
ghost use Rattle.sem_query.specs.Combinations.{read_from};
ghost use Rattle.exec_pool.specs.Extents.{cells_of};
ghost use Rattle.exec_answer_table.specs.Entries.{with_entries};
ghost use Rattle.exec_query.specs.FoundTable.{with_all, HaveRoom};
ghost use Rattle.exec_query.specs.Reads.{row_reads};
ghost use Rattle.exec_query.specs.CellSteps.{arrives, all_found, HasTaken, AreReady, AnswersNothingNew};
ghost use Rattle.exec_part_index.specs.Owners.{EachTakes};
ghost use Rattle.exec_part_index.specs.PartIndex.{IsPartIndex, IsNext, buckets, row_bucket, row_code};
ghost use Rattle.exec_part_index.specs.Prepared.{IsPreparedPlan};

use crate::part::{Takes, apply_to_part};
use exec_answer_table::Answers;
use exec_join::Scratch;
use exec_part_index::{CellAt, Led, Reached, reach};
use exec_pool::{Pool, Steps};
use exec_ranges::RowAt;
use std::sync::ledger::Ledger;

/// Returns the place of FROM of a stream, where the query names it.
pub fn place_of(from: &[u8], stream: u8) -> Option<u8>
    requires { length from.now ≤ 4 }
    ensures { MatchOption result (list_any (λ s. stream == s) from.now ≡ false) (λ place. (place < length from.now) × (slice_index_or from.now place 0 ≡ stream) × (list_any (λ s. stream == s) from.now ≡ true)) }
{
    match from.iter().position(|s| stream == *s) {
        Some(place) => Some(place as u8),
        None => None,
    }
}

/// Takes a row into all parts that admit it, from the first one of its bucket on: what they answer comes to wait in the table, and their cells take
/// the row. Of the parts only those of the row's bucket are asked, and each box is asked once: where parts share a box, the first of them takes the
/// row. A row that stands at the same place of the box of the next part is not placed again, and passes over parts whose cells it leaves as they are
/// where it is known that they answer nothing new. No part reads a cell of the row's own stream, so the answers are those of the cells before the
/// row. What is known of the cells before the row is known of a part's own cell where each part takes rows into a box of its own, and else as long as
/// no cell changed.
pub fn apply_along<L: Ledger>(
    pool: &mut Pool,
    led: &Led<'_>,
    first: u32,
    scratch: &mut Scratch,
    table: &mut Answers,
    steps: &mut Steps<L>,
)
    requires here { led.now.pos < length led.now.q.now.from }
    requires part_index { IsPartIndex led.now.q.now led.now.parts.now led.now.pos led.now.part_index.now }
    requires each { led.now.each ≡ true → EachTakes led.now.q.now led.now.parts.now led.now.pos }
    requires code { led.now.code ≡ row_code led.now.part_index.now.tested.items (by_column led.now.row.now.items) }
    requires first { IsNext (buckets led.now.part_index.now) (row_bucket led.now.part_index.now (by_column led.now.row.now.items)) 0 first }
    requires ready { AreReady led.now.q.now led.now.parts.now pool.old led.now.extent.now }
    requires prepared { IsPreparedPlan led.now.q.now led.now.parts.now led.now.prepared.now }
    requires known { led.now.known ≡ true → AnswersNothingNew led.now.q.now led.now.parts.now (read_from (cells_of pool.old led.now.extent.now)) table.old.entries }
    requires room { HaveRoom led.now.q.now.distinct (all_found led.now.q.now led.now.parts.now (read_from (cells_of pool.old led.now.extent.now)) (arrives led.now.q.now led.now.pos led.now.row.now.items)) table.old }
    ensures table { table.new ≡ with_entries table.old (with_all led.now.q.now.distinct (all_found led.now.q.now led.now.parts.now (read_from (cells_of pool.old led.now.extent.now)) (arrives led.now.q.now led.now.pos led.now.row.now.items)) table.old.entries) }
    ensures pool { HasTaken led.now.q.now led.now.parts.now led.now.extent.now (arrives led.now.q.now led.now.pos led.now.row.now.items) (length led.now.parts.now) pool.old pool.new }
    ensures reads { steps.new.reads ≤ steps.old.reads + row_reads led.now.parts.now + length led.now.parts.now }
    ensures writes { steps.new.writes ≤ steps.old.writes + length led.now.parts.now }
{
    let part_index = led.part_index;
    let (q, parts, e) = (led.q, led.parts, led.extent);
    let mut i = first;
    let mut same = true;
    let mut told: Option<CellAt> = None;
    'parts: while i < parts.len() {
        let placement = match told {
            Some(cell) => cell.placement(),
            None => led.placement_of(i),
        };
        let passes = led.known & (led.each | same);
        match reach(pool, led, passes, i, placement, steps) {
            Reached::Unasked(next) => {
                told = None;
                i = next;
            }
            Reached::Part(met) => {
                let plan = parts.get(met.i);
                if met.placement.is_inside() {
                    let owns = part_index.owns(led.each, q, parts, plan, led.pos, met.i);
                    let at = RowAt {
                        q,
                        part: plan,
                        prepared: led.prepared.part(q, parts, met.i),
                        arriving: led.pos,
                        row: led.row,
                    };
                    let takes = Takes {
                        placement: met.placement,
                        owns,
                        own: met.own,
                    };
                    same &= !apply_to_part(pool, e, &at, takes, scratch, table, steps);
                }
                told = led.cell_after(plan, met.placement, met.i);
                i = part_index.after(q, parts, led.pos, met.i);
            }
        }
    }
}
