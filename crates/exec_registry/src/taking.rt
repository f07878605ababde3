//! What a row does to all live queries.
ghost use Rattle.std.specs.Prelude.{◌≡◌, ◌<◌, ◌≤◌, ◌+◌, ◌^◌, All, List, ℕ, false, length, []};
ghost use Rattle.sem_query.specs.Domains.{RowKeeps};
ghost use Rattle.exec_query.specs.Executor.{arrival, waiting_in};
ghost use Rattle.exec_query.specs.Standing.{IsReady};
ghost use Rattle.exec_registry.specs.Live.{named, plan_reads, plan_writes};
ghost use Rattle.exec_registry.specs.Registry.{IsSound, KeepsToEach, most_reads, most_writes};
ghost use Rattle.exec_registry.specs.RowByQuery.{AreSpared, TookOne, TookFirst};
ghost use Rattle.exec_registry.specs.Counted.{IsCounted, run_to};
ghost use Rattle.exec_registry.specs.Waiting.{AreQuiet};

use crate::queries::{Queries, Runner};
use crate::waiting::noted;
use exec_pool::{Pool, Steps};
use exec_query::RowHint;
use exec_query_index::{Concerns, has_bit, lowest_bit, without_bit};
use sem_query::Row;
use std::sync::ledger::Ledger;

// Gives a row to what runs a live query, of which so many rows were counted, whatever its name. What is said of the row decides on the time
// alone.
#[inline(always)]
fn take_next<L: Ledger>(
    pool: &mut Pool,
    runner: &mut Runner,
    hint: RowHint,
    rows: u64,
    stream: u8,
    row: &Row,
    steps: &mut Steps<L>,
) -> bool
    requires counted { IsCounted rows runner.old }
    requires ready { IsReady (run_to rows runner.old) pool.old }
    requires keeps { RowKeeps runner.old.executor.query (arrival stream row.now.items) }
    ensures none { result ≡ false → waiting_in runner.new.executor ≡ [] }
    ensures taken { (name : List ℕ) → TookOne (arrival stream row.now.items) pool.old pool.new (named name (run_to rows runner.old)) (named name runner.new.executor) }
    ensures before { runner.new.before ≡ runner.old.before }
    ensures reads { steps.new.reads ≤ steps.old.reads + plan_reads runner.old.executor.plan }
    ensures writes { steps.new.writes ≤ steps.old.writes + plan_writes runner.old.executor.plan }
{
    runner.executor.pass(runner.before + rows);
    let waits = runner.executor.apply(hint, pool, stream, row, steps);
    // Read for the proof alone: the call tells what is true of what runs the query.
    let _sound = runner.executor.plan();
    waits
}

// Gives a row to the live queries that a word has, in order of creation, and counts it for all others. It is not inlined, so that a row of
// one live query pays nothing for the loop.
#[cold]
#[inline(never)]
fn apply_to_each<L: Ledger>(
    pool: &mut Pool,
    live: &mut Queries,
    asked: Concerns,
    stream: u8,
    row: &Row,
    steps: &mut Steps<L>,
) -> u64
    requires sound { IsSound pool.old live.old }
    requires few { All (λ l. l.executor.given < 2 ^ 40) live.old }
    requires keeps { KeepsToEach live.old (arrival stream row.now.items) }
    requires spared { AreSpared asked.word (arrival stream row.now.items) live.old }
    ensures taken { TookFirst (arrival stream row.now.items) (length live.old) pool.old pool.new live.old live.new }
    ensures waiting { AreQuiet result live.new }
    ensures reads { steps.new.reads ≤ steps.old.reads + most_reads live.old }
    ensures writes { steps.new.writes ≤ steps.old.writes + most_writes live.old }
{
    let rows = live.rows;
    let runners = live.runners.as_mut_slice();
    let mut waiting = 0;
    let mut left = asked.word;
    // The places before it are done.
    let mut next = 0;
    'bits: while left != 0 {
        let place = lowest_bit(left);
        left = without_bit(left, place);
        let hint = RowHint {
            is_within: has_bit(asked.within, place),
            is_alone: false,
        };
        let waits = take_next(pool, &mut runners[place], hint, rows, stream, row, steps);
        waiting = noted(waiting, place, waits);
        next = place + 1;
    }
    live.rows = rows.wrapping_add(1);
    waiting
}

/// Gives a row, whose values lie in the domains of each live query that names its stream, to the live queries that a word has, in order of
/// creation, and counts it for all others, which it does not concern. Of those that are told answers may wait then.
#[inline(always)]
pub fn apply_to_all<L: Ledger>(
    pool: &mut Pool,
    live: &mut Queries,
    asked: Concerns,
    stream: u8,
    row: &Row,
    steps: &mut Steps<L>,
) -> u64
    requires sound { IsSound pool.old live.old }
    requires few { All (λ l. l.executor.given < 2 ^ 40) live.old }
    requires keeps { KeepsToEach live.old (arrival stream row.now.items) }
    requires spared { AreSpared asked.word (arrival stream row.now.items) live.old }
    ensures taken { TookFirst (arrival stream row.now.items) (length live.old) pool.old pool.new live.old live.new }
    ensures waiting { AreQuiet result live.new }
    ensures reads { steps.new.reads ≤ steps.old.reads + most_reads live.old }
    ensures writes { steps.new.writes ≤ steps.old.writes + most_writes live.old }
{
    if asked.word == 0 {
        // Where no query is live the number of rows is of no account, and may be too large.
        live.rows = live.rows.wrapping_add(1);
        return 0;
    }
    let place = lowest_bit(asked.word);
    if without_bit(asked.word, place) != 0 {
        // There are others.
        return apply_to_each(pool, live, asked, stream, row, steps);
    }
    let rows = live.rows;
    live.rows = rows.wrapping_add(1);
    let runners = live.runners.as_mut_slice();
    let hint = RowHint {
        is_within: asked.word & asked.within != 0,
        is_alone: true,
    };
    let waits = take_next(pool, &mut runners[place], hint, rows, stream, row, steps);
    if waits { asked.word } else { 0 }
}
