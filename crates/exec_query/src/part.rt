//! What a row does in one part: what the cells answer to it waits in the table, and its own cell takes it.
//!
//! The ways by which a part answers a row, in the order in which they are tried, the cheapest first. In brackets stands how many times as much a row
//! costs without the way, where it brings most:
//!
//! 1. The part is passed over, since the row leaves its own cell as it is (245; `reach` of `exec_part_index`).
//! 2. One look-up: the row tells the one cell that can answer with it (1.07).
//! 3. The one tuple that can come is known: the row alone tells it, and it has an entry; no cell is read (1.6).
//! 4. A look before the walk: one cell tells that nothing answers, or the only answer (1.4); or no cell is left where the walk ends (112).
//! 5. A look along the cells at which the walk begins (2.9).
//! 6. The walk over the cells of the other streams, which finds all, and passes what it would find again (1.04).
//!
//! A part that takes rows into a box of its own reads the row's own cell before these, where it was not read yet, and puts it after them.
ghost use Rattle.std.specs.Prelude.{◌≡◌, ◌<◌, ◌≤◌, ◌+◌, ◌*◌, length, true, false, IfSome, MatchOption};
ghost use Rattle.sem_query.specs.declared.cell.Cell.TheVariants as cells;
ghost use Rattle.sem_query.specs.Admission.{admits};
ghost use Rattle.sem_query.specs.Meaning.{by_column};
ghost use Rattle.sem_query.specs.Combinations.{read_from, found_in};
ghost use Rattle.sem_query.specs.Probing.{found_beside};
ghost use Rattle.exec_pool.specs.Extents.{cells_of, with_cells};
ghost use Rattle.sem_query.specs.Parts.{pairs};
ghost use Rattle.exec_synopsis.specs.Premises.{IsReady, HasRoom};
ghost use Rattle.exec_synopsis.specs.Inserting.{cells_with_row};
ghost use Rattle.exec_synopsis.specs.Preparing.{IsPrepared};
ghost use Rattle.exec_synopsis.specs.Axes.{IsCell};
ghost use Rattle.exec_synopsis.specs.Own.{IsOwnCell};
ghost use Rattle.exec_join.specs.Costs.{walk_reads};
ghost use Rattle.exec_join.specs.Remaining.{as_found};
ghost use Rattle.exec_answer_table.specs.Entries.{with_entries, Fits};
ghost use Rattle.exec_query.specs.FoundTable.{with_found, with_all, HaveRoom};
ghost use Rattle.exec_query.specs.CellSteps.{arrives, with_row, CanCount};
ghost use Rattle.exec_query.specs.Reads.{most_reads};
ghost use Rattle.exec_part_index.specs.Leaving.{reads_of};

use exec_answer_table::Answers;
use exec_join::{
    FirstLook, Probe, ProbeScratch, Scratch, first_look, is_nothing, look_before_walk,
};
use exec_point_lookup::determined_tuple;
use exec_pool::{Extent, Pool, Steps};
use exec_ranges::RowAt;
use exec_synopsis::{Admitted, OwnCell, Placement, own_cell, put_own};
use sem_query::Tuple;
use std::sync::ledger::Ledger;

/// The most times that one answer waits.
pub const MOST_TIMES: u128 = 1 << 127;

/// How a part takes a row: where the row stands there, whether the part takes it into a box of its own, and the row's own cell, where it was read.
#[derive(Clone, Copy, Debug, PartialEq, Eq)]
pub struct Takes {
    pub placement: Placement,
    pub owns: bool,
    pub own: Option<OwnCell>,
}

/// Takes a row into a part that admits it: all that the cells answer to it is taken up, and where the part takes rows into a box of its
/// own, the row's own cell takes it, which is not read again where it was read. Returns false where no cell changed.
pub fn apply_to_part<L: Ledger>(
    pool: &mut Pool,
    e: &Extent,
    at: &RowAt<'_>,
    takes: Takes,
    scratch: &mut Scratch,
    table: &mut Answers,
    steps: &mut Steps<L>,
) -> bool
    requires here { at.now.arriving < length at.now.q.now.from }
    requires ready { IsReady at.now.q.now at.now.part.now pool.old e.now }
    requires prepared { IsPrepared (pairs at.now.q.now) at.now.part.now at.now.prepared.now }
    requires admitted { admits at.now.q.now at.now.part.now at.now.arriving (by_column at.now.row.now.items) ≡ true }
    requires placement { IsCell at.now.part.now at.now.arriving at.now.row.now.items takes.placement }
    requires own { IfSome takes.own (λ cell. IsOwnCell at.now.part.now at.now.arriving at.now.row.now.items (cells_of pool.old e.now) cell × (cell.number < 64 * e.now.pages)) }
    requires several { takes.owns ≡ true → 1 < length at.now.q.now.from }
    requires counts { takes.owns ≡ true → CanCount at.now.part.now (read_from (cells_of pool.old e.now)) }
    requires room { HaveRoom at.now.q.now.distinct (found_in at.now.q.now at.now.part.now (read_from (cells_of pool.old e.now)) (arrives at.now.q.now at.now.arriving at.now.row.now.items)) table.old }
    ensures table { table.new ≡ with_entries table.old (with_all at.now.q.now.distinct (found_in at.now.q.now at.now.part.now (read_from (cells_of pool.old e.now)) (arrives at.now.q.now at.now.arriving at.now.row.now.items)) table.old.entries) }
    ensures pool { pool.new ≡ with_row takes.owns at.now.q.now at.now.part.now at.now.arriving at.now.row.now.items e.now pool.old }
    ensures same { result ≡ false → pool.new ≡ pool.old }
    ensures reads { steps.new.reads + reads_of takes.own ≤ steps.old.reads + most_reads at.now.part.now + 1 }
    ensures writes { steps.new.writes ≤ steps.old.writes + 1 }
{
    // Read for the proof alone: the call tells how many streams there are.
    let _from = at.q.from();
    let own = if takes.owns {
        Some(match takes.own {
            Some(own) => own,
            None => {
                let there = Admitted {
                    pos: at.arriving,
                    placement: takes.placement,
                };
                own_cell(pool, e, at.q, at.part, at.row, there, steps)
            }
        })
    } else {
        None
    };
    // A copy for the call that is not inlined, so that the other stays in registers.
    let met = *at;
    answer_and_put(pool, e, &met, &own, scratch, table, steps);
    takes.owns
}

// Takes up all that the cells of a part answer to a row, and then takes the row into its own cell, where that was read for it. It is not
// inlined: with DISTINCT most rows leave their own cells as they are, and pass over the part.
#[inline(never)]
fn answer_and_put<L: Ledger>(
    pool: &mut Pool,
    e: &Extent,
    at: &RowAt<'_>,
    own: &Option<OwnCell>,
    scratch: &mut Scratch,
    table: &mut Answers,
    steps: &mut Steps<L>,
)
    requires here { at.now.arriving < length at.now.q.now.from }
    requires ready { IsReady at.now.q.now at.now.part.now pool.old e.now }
    requires prepared { IsPrepared (pairs at.now.q.now) at.now.part.now at.now.prepared.now }
    requires own { IfSome own.now (λ cell. IsOwnCell at.now.part.now at.now.arriving at.now.row.now.items (cells_of pool.old e.now) cell × (cell.number < 64 * e.now.pages) × HasRoom cell.held) }
    requires room { HaveRoom at.now.q.now.distinct (found_beside at.now.q.now at.now.part.now (read_from (cells_of pool.old e.now)) at.now.arriving (by_column at.now.row.now.items)) table.old }
    ensures table { table.new ≡ with_entries table.old (with_all at.now.q.now.distinct (found_beside at.now.q.now at.now.part.now (read_from (cells_of pool.old e.now)) at.now.arriving (by_column at.now.row.now.items)) table.old.entries) }
    ensures pool { MatchOption own.now (pool.new ≡ pool.old) (λ cell. pool.new ≡ with_cells pool.old e.now (cells_with_row at.now.part.now at.now.arriving at.now.row.now.items (cells_of pool.old e.now))) }
    ensures reads { steps.new.reads ≤ steps.old.reads + most_reads at.now.part.now }
    ensures writes { steps.new.writes ≤ steps.old.writes + 1 }
{
    let (room, tuple) = (&mut scratch.room, &mut scratch.tuple);
    match first_look(pool, e, at, tuple, steps) {
        FirstLook::Nothing => {}
        FirstLook::One(count) => { record_found(at.q.distinct(), tuple, u128::from(count), table) }
        FirstLook::Unknown => look_then_walk(pool, e, at, room, tuple, table, steps),
    }
    match own {
        Some(own) => put_own(pool, e, at.part, at.row, at.arriving, own, steps),
        None => {}
    }
}

// Takes up all that the cells of a part answer to a row. Where that is one tuple that has an entry, nothing changes. It is not inlined: with
// DISTINCT most rows do without it.
#[inline(never)]
fn look_then_walk<L: Ledger>(
    pool: &Pool,
    e: &Extent,
    at: &RowAt<'_>,
    room: &mut ProbeScratch,
    tuple: &mut Tuple,
    table: &mut Answers,
    steps: &mut Steps<L>,
)
    requires here { at.now.arriving < length at.now.q.now.from }
    requires ready { IsReady at.now.q.now at.now.part.now pool.now e.now }
    requires prepared { IsPrepared (pairs at.now.q.now) at.now.part.now at.now.prepared.now }
    requires room { HaveRoom at.now.q.now.distinct (found_beside at.now.q.now at.now.part.now (read_from (cells_of pool.now e.now)) at.now.arriving (by_column at.now.row.now.items)) table.old }
    ensures table { table.new ≡ with_entries table.old (with_all at.now.q.now.distinct (found_beside at.now.q.now at.now.part.now (read_from (cells_of pool.now e.now)) at.now.arriving (by_column at.now.row.now.items)) table.old.entries) }
    ensures reads { steps.new.reads ≤ steps.old.reads + most_reads at.now.part.now }
    ensures writes { steps.new.writes ≡ steps.old.writes }
{
    // In an empty table nothing is searched.
    if table.len() != 0
        && determined_tuple(at.q, at.part, at.arriving, at.row, tuple)
        && table.has(tuple)
    {
        return;
    }
    match look_before_walk(pool, e, at, room, tuple, steps) {
        FirstLook::Nothing => {}
        FirstLook::One(count) => { record_found(at.q.distinct(), tuple, u128::from(count), table) }
        FirstLook::Unknown => walk(pool, e, at, room, tuple, table, steps),
    }
}

// Takes up all that a walk over the cells of a part finds for a row. It is not inlined: most rows are answered before a walk begins.
#[inline(never)]
fn walk<L: Ledger>(
    pool: &Pool,
    e: &Extent,
    at: &RowAt<'_>,
    room: &mut ProbeScratch,
    tuple: &mut Tuple,
    table: &mut Answers,
    steps: &mut Steps<L>,
)
    requires here { at.now.arriving < length at.now.q.now.from }
    requires ready { IsReady at.now.q.now at.now.part.now pool.now e.now }
    requires prepared { IsPrepared (pairs at.now.q.now) at.now.part.now at.now.prepared.now }
    requires room { HaveRoom at.now.q.now.distinct (found_beside at.now.q.now at.now.part.now (read_from (cells_of pool.now e.now)) at.now.arriving (by_column at.now.row.now.items)) table.old }
    ensures table { table.new ≡ with_entries table.old (with_all at.now.q.now.distinct (found_beside at.now.q.now at.now.part.now (read_from (cells_of pool.now e.now)) at.now.arriving (by_column at.now.row.now.items)) table.old.entries) }
    ensures reads { steps.new.reads ≤ steps.old.reads + walk_reads at.now.part.now at.now.arriving }
    ensures writes { steps.new.writes ≡ steps.old.writes }
{
    let seen = room.look_along(pool, e, at, steps);
    if is_nothing(seen) {
        return;
    }
    let (q, plan, prepared) = (at.q, at.part, at.prepared);
    let mut probe = Probe::new_behind(q, plan, prepared, at.arriving, at.row, room, seen);
    'walk: while let Some(count) = probe.next(pool, e, q, plan, tuple, steps) {
        record_found(q.distinct(), tuple, count, table);
        probe.pass_repeats(q, plan, tuple);
    }
}

/// Takes up a tuple that was found: with DISTINCT it waits once, and that only where it has no entry.
pub fn record_found(distinct: bool, tuple: &Tuple, count: u128, table: &mut Answers)
    requires width { length tuple.now.items ≡ table.old.width }
    requires room { Fits tuple.now.items table.old }
    ensures { table.new ≡ with_entries table.old (with_found distinct (as_found tuple.now.items count) table.old.entries) }
{
    if distinct {
        table.add_new(tuple);
    } else {
        table.add_upto(tuple, count, MOST_TIMES);
    }
}
