//! Loading what a checkpoint tells of the live query at a place.
ghost use Rattle.std.specs.Prelude.{◌≡◌, ℕ, List, ◌<◌, ◌≤◌, ◌+◌, ◌^◌, length, slice_index_or};
ghost use Rattle.sem_query.specs.Numbers.{parts_of};
ghost use Rattle.exec_query.specs.Loading.{loaded_given, loaded_cell, loaded_tuple};
ghost use Rattle.exec_pool.specs.Extents.{IsLive};
ghost use Rattle.exec_registry.specs.Live.{Live, boxes_for, named, plan_cells};
ghost use Rattle.exec_registry.specs.Counted.{IsCounted, run_to};
ghost use Rattle.exec_registry.specs.Loaded.{LoadedOne, LoadedAlone, LoadedAt, LoadedAloneAt};
ghost use Rattle.exec_registry.specs.Registry.{IsSound, most_cells};

use crate::queries::{Queries, Runner, level};
use exec_pool::{Pool, Steps};
use exec_query::Executor;
use sem_query::Tuple;
use std::sync::ledger::Ledger;

// Says how many rows were given to a live query, whatever its name.
fn load_given_one(executor: &mut Executor, n: u64) -> bool
    requires few { n ≤ 2 ^ 40 }
    ensures { LoadedAlone result n (λ q shared plan base. loaded_given n base) executor.old executor.new }
{
    let loads = executor.load_given(n);
    // Read for the proof alone: the call tells what is true of what runs the query.
    let _sound = executor.plan();
    loads
}

// Sets the content of a cell of a live query, whatever its name.
fn load_cell_one<L: Ledger>(
    pool: &mut Pool,
    executor: &mut Executor,
    i: u32,
    v: i64,
    steps: &mut Steps<L>,
) -> bool
    requires live { IsLive pool.old executor.old.extent }
    ensures loads { (name : List ℕ) → LoadedOne result 0 (λ q shared plan base. loaded_cell (boxes_for q shared plan) i v base) pool.old pool.new (named name executor.old) (named name executor.new) }
    ensures reads { steps.new.reads ≤ steps.old.reads + plan_cells executor.old.plan }
    ensures writes { steps.new.writes ≤ steps.old.writes + plan_cells executor.old.plan }
    ensures one { (steps.new.reads ≤ steps.old.reads + 1) × (steps.new.writes ≤ steps.old.writes + 1) }
{
    // Read for the proof alone: the call tells what is true of what runs the query.
    let _sound = executor.plan();
    executor.load_cell(pool, i, v, steps)
}

// Puts a tuple among those that a live query printed, whatever its name.
fn load_tuple_one(executor: &mut Executor, t: &Tuple) -> bool
    requires width { length t.now.items ≡ length executor.old.query.select }
    ensures { LoadedAlone result 0 (λ q shared plan base. loaded_tuple q (parts_of plan) t.now.items base) executor.old executor.new }
{
    let loads = executor.load_tuple(t);
    // Read for the proof alone: the call tells what is true of what runs the query.
    let _sound = executor.plan();
    loads
}

// Says how many rows were given to a live query, of which none was counted.
fn load_given_at(runner: &mut Runner, n: u64) -> bool
    requires counted { IsCounted 0 runner.old }
    requires few { n ≤ 2 ^ 40 }
    ensures loads { LoadedAlone result n (λ q shared plan base. loaded_given n base) (run_to 0 runner.old) (run_to 0 runner.new) }
    ensures counted { IsCounted 0 runner.new }
{
    runner.catch_up(0);
    let loads = load_given_one(&mut runner.executor, n);
    runner.before = runner.executor.given();
    loads
}

// Sets the content of a cell of a live query, of which no row was counted.
fn load_cell_at<L: Ledger>(
    pool: &mut Pool,
    runner: &mut Runner,
    i: u32,
    v: i64,
    steps: &mut Steps<L>,
) -> bool
    requires counted { IsCounted 0 runner.old }
    requires live { IsLive pool.old runner.old.executor.extent }
    ensures loads { (name : List ℕ) → LoadedOne result 0 (λ q shared plan base. loaded_cell (boxes_for q shared plan) i v base) pool.old pool.new (named name (run_to 0 runner.old)) (named name (run_to 0 runner.new)) }
    ensures reads { steps.new.reads ≤ steps.old.reads + plan_cells runner.old.executor.plan }
    ensures writes { steps.new.writes ≤ steps.old.writes + plan_cells runner.old.executor.plan }
    ensures one { (steps.new.reads ≤ steps.old.reads + 1) × (steps.new.writes ≤ steps.old.writes + 1) }
    ensures counted { IsCounted 0 runner.new }
{
    runner.catch_up(0);
    let loads = load_cell_one(pool, &mut runner.executor, i, v, steps);
    runner.before = runner.executor.given();
    loads
}

// Puts a tuple among those that a live query printed, of which no row was counted.
fn load_tuple_at(runner: &mut Runner, t: &Tuple) -> bool
    requires counted { IsCounted 0 runner.old }
    requires width { length t.now.items ≡ length runner.old.executor.query.select }
    ensures loads { LoadedAlone result 0 (λ q shared plan base. loaded_tuple q (parts_of plan) t.now.items base) (run_to 0 runner.old) (run_to 0 runner.new) }
    ensures counted { IsCounted 0 runner.new }
{
    runner.catch_up(0);
    let loads = load_tuple_one(&mut runner.executor, t);
    runner.before = runner.executor.given();
    loads
}

/// Says how many rows were given to the live query at a place, where none were yet.
pub fn load_given(live: &mut Queries, place: usize, n: u64) -> bool
    requires there { place < length live.old }
    requires few { n ≤ 2 ^ 40 }
    ensures { LoadedAloneAt place result n (λ q shared plan base. loaded_given n base) live.old live.new }
{
    level(&mut live.runners, &mut live.rows);
    load_given_at(&mut live.runners[place], n)
}

/// Sets the content of a cell of the live query at a place, where it is empty.
pub fn load_cell<L: Ledger>(
    pool: &mut Pool,
    live: &mut Queries,
    place: usize,
    i: u32,
    v: i64,
    steps: &mut Steps<L>,
) -> bool
    requires sound { IsSound pool.old live.old }
    requires there { place < length live.old }
    ensures loads { LoadedAt place result 0 (λ q shared plan base. loaded_cell (boxes_for q shared plan) i v base) pool.old pool.new live.old live.new }
    ensures reads { steps.new.reads ≤ steps.old.reads + most_cells live.old }
    ensures writes { steps.new.writes ≤ steps.old.writes + most_cells live.old }
    ensures one { (steps.new.reads ≤ steps.old.reads + 1) × (steps.new.writes ≤ steps.old.writes + 1) }
{
    level(&mut live.runners, &mut live.rows);
    load_cell_at(pool, &mut live.runners[place], i, v, steps)
}

/// Puts a tuple among those that the live query at a place printed.
pub fn load_tuple(live: &mut Queries, place: usize, t: &Tuple) -> bool
    requires there { place < length live.old }
    requires width { (d : Live) → length t.now.items ≡ length (slice_index_or live.old place d).executor.query.select }
    ensures { LoadedAloneAt place result 0 (λ q shared plan base. loaded_tuple q (parts_of plan) t.now.items base) live.old live.new }
{
    level(&mut live.runners, &mut live.rows);
    load_tuple_at(&mut live.runners[place], t)
}
