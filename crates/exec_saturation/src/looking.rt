//! The look at cells beside a row, after some were loaded.
ghost use Rattle.std.specs.Prelude.{◌≡◌, ◌+◌, ◌≤◌, ◌==◌, true, false, length};
ghost use Rattle.std.specs.List.{list_any};
ghost use Rattle.exec_answer_table.specs.Entries.{tuples_of};
ghost use Rattle.sem_query.specs.Combinations.{read_from};
ghost use Rattle.sem_query.specs.Numbers.{parts_of};
ghost use Rattle.sem_query.specs.declared.plan.Plan.TheVariants as plans;
ghost use Rattle.exec_pool.specs.Extents.{cells_of};
ghost use Rattle.exec_saturation.specs.declared.saturation.Saturation.TheVariants as saturation;
ghost use Rattle.exec_saturation.specs.Known.{AreSaturated};
ghost use Rattle.exec_saturation.specs.Looking.{CanLookAt, HasLookedBeside, spare_reads};

use crate::cursor::{Came, look_on};
use crate::planned::PlannedQuery;
use crate::saturation::{Cursor, Saturation};
use exec_answer_table::Answers;
use exec_join::Scratch;
use exec_pool::{Pool, Steps};
use sem_query::Plan;
use std::sync::ledger::Ledger;

// Whether a stream is one of FROM.
fn is_named(from: &[u8], stream: u8) -> bool
    ensures { result ≡ list_any (λ s. stream == s) from.now }
{
    from.iter().any(|s| stream == *s)
}

/// Returns what is known of the cells of a query after some were looked at beside a row of a stream of FROM, from a cursor on: as many as the
/// announced work leaves room for. With DISTINCT over two streams the cursor goes on, stays where the next cell may cost more than that, or ends at a cell
/// that is not saturated; beside a row of another stream it stays. Of any other query nothing is looked at.
pub fn look_beside_row<L: Ledger>(
    pool: &Pool,
    planned: &PlannedQuery,
    stream: u8,
    cursor: Cursor,
    table: &Answers,
    scratch: &mut Scratch,
    steps: &mut Steps<L>,
) -> Saturation
    requires look { CanLookAt planned.now.query planned.now.plan planned.now.prepared pool.now planned.now.extent table.now.width }
    requires known { planned.now.query.distinct ≡ true → AreSaturated (saturation.Before cursor) planned.now.query (parts_of planned.now.plan) (read_from (cells_of pool.now planned.now.extent)) (tuples_of table.now.entries) }
    ensures known { planned.now.query.distinct ≡ true → AreSaturated result planned.now.query (parts_of planned.now.plan) (read_from (cells_of pool.now planned.now.extent)) (tuples_of table.now.entries) }
    ensures moves { planned.now.query.distinct ≡ true → length planned.now.query.from ≡ 2 → HasLookedBeside planned.now.query planned.now.plan (read_from (cells_of pool.now planned.now.extent)) (tuples_of table.now.entries) (list_any (λ s. stream == s) planned.now.query.from) cursor result }
    ensures reads { steps.new.reads ≤ steps.old.reads + spare_reads planned.now.query planned.now.plan }
    ensures writes { steps.new.writes ≡ steps.old.writes }
    ensures alone { planned.now.plan ≡ plans.Filter → steps.new ≡ steps.old }
    ensures outside { list_any (λ s. stream == s) planned.now.query.from ≡ false → steps.new ≡ steps.old }
{
    if !planned.query.distinct() {
        return Saturation::None;
    }
    if planned.query.from().len() != 2 {
        return Saturation::None;
    }
    if !is_named(planned.query.from(), stream) {
        return Saturation::Before(cursor);
    }
    match &planned.plan {
        Plan::Filter => Saturation::None,
        Plan::Parts { parts, numbers } => {
            let work = u64::from(numbers.work);
            let from = Came {
                at: cursor,
                left: 2 * work - work / 2,
            };
            look_on(pool, planned, parts, from, table, scratch, steps)
        }
    }
}
