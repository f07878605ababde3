//! The live queries: their names, and what runs each of them. Clauses speak of the list that the two are side by side.
ghost use Rattle.std.specs.Prelude.{◌≡◌, ◌<◌, [], ◌∷◌, ◌++◌, false, length, slice_index_or, map, ◌+◌, ◌≤◌, ◌^◌, All, IfErr, IfOk, OnErr, OnOk};
ghost use Rattle.std.specs.List.{list_any, position, remove};
ghost use Rattle.std.specs.Str.{bytes_eq};
ghost use Rattle.indexmap.specs.IndexSet.{spare};
ghost use Rattle.exec_query.specs.Executor.{with_given};
ghost use Rattle.exec_registry.specs.Live.{Live, named};
ghost use Rattle.exec_registry.specs.Counted.{IsCounted, run_to, shown};
ghost use Rattle.exec_registry.specs.Passed.{given_more};

use exec_query::Executor;
use indexmap::IndexSet;
use sql_text::Name;
use std::alloc::{AllocError, AllocFailed, Global};
use std::marker::Model;

/// What runs a live query, and how many rows were given to it before the count began. A row that does not concern a query is counted for all
/// of them at once, so that what runs it may lag behind.
pub struct Runner {
    pub executor: Executor,
    pub before: u64,
}

/// The live queries in order of creation. What runs one stands at the place of its name, in a list of its own, so that a row goes
/// through them without a look at names. To each so many rows were given as were counted, beside those before. It cannot be dropped, and is
/// ended when no query is left.
pub struct Queries {
    pub names: IndexSet<Name>,
    pub runners: Vec<Runner>,
    pub rows: u64,
}

impl Model for Queries {
    ghost use Rattle.std.specs.Prelude.{◌≡◌, List, length, All};
    ghost use Rattle.exec_registry.specs.Live.{Live, live_of};
    ghost use Rattle.exec_registry.specs.Counted.{IsCounted, shown};

    ghost Value = { List Live };

    ghost view = { λ q. live_of q.names.keys (shown q.rows q.runners.items) };

    ghost invariant = { λ q. (length q.names.keys ≡ length q.runners.items) × All (IsCounted q.rows) q.runners.items };
}

// Puts a new name behind the others, for which there is room.
fn put_name(names: &mut IndexSet<Name>, name: Name)
    requires room { 0 < spare names.old }
    requires new { list_any (bytes_eq name) names.old.keys ≡ false }
    ensures { names.new.keys ≡ names.old.keys ++ name ∷ [] }
{
    // There is room, so this is done.
    let _stored = names.insert(name).is_ok();
}

impl Runner {
    /// Returns how many rows were given, of which so many were counted.
    pub fn given(&self, rows: u64) -> u64
        requires { IsCounted rows self.now }
        ensures { result ≡ self.now.before + rows }
    {
        self.before + rows
    }

    /// Lets what runs the query know how many rows were given to it, of which so many were counted.
    pub fn catch_up(&mut self, rows: u64)
        requires { IsCounted rows self.old }
        ensures executor { self.new.executor ≡ run_to rows self.old }
        ensures before { self.new.before ≡ self.old.before }
    {
        self.executor.pass(self.before + rows);
    }
}

// Counts so many rows for a query as given before.
fn count_one(runner: &mut Runner, rows: u64)
    requires { IsCounted rows runner.old }
    ensures executor { runner.new.executor ≡ runner.old.executor }
    ensures before { runner.new.before ≡ runner.old.before + rows }
{
    runner.before += rows;
}

// Counts so many rows for each query as given before.
fn count_all(runners: &mut [Runner], rows: u64)
    requires { All (IsCounted rows) runners.old }
    ensures shown { shown 0 runners.new ≡ shown rows runners.old }
    ensures counted { All (IsCounted 0) runners.new }
{
    for k in 0..runners.len() {
        count_one(&mut runners[k], rows);
    }
}

/// Begins the count of rows anew.
pub fn level(runners: &mut Vec<Runner>, rows: &mut u64)
    requires { All (IsCounted rows.old) runners.old.items }
    ensures shown { shown 0 runners.new.items ≡ shown rows.old runners.old.items }
    ensures counted { All (IsCounted 0) runners.new.items }
    ensures rows { rows.new ≡ 0 }
{
    if *rows != 0 {
        count_all(runners.as_mut_slice(), *rows);
        *rows = 0;
    }
}

impl Queries {
    /// Makes a list of no live query, with room for so many.
    pub fn with_capacity(alloc: Global, most: usize) -> Result<Queries, AllocError>
        ensures { IfOk result (λ q. q ≡ []) }
    {
        let names = IndexSet::with_capacity(alloc, most)?;
        let runners = Vec::with_capacity(alloc, most)?;
        Ok(Queries {
            names,
            runners,
            rows: 0,
        })
    }

    /// Returns how many there are.
    pub fn len(&self) -> usize
        ensures { result ≡ length self.now }
    {
        self.runners.len()
    }

    /// Returns whether a live query has the name.
    pub fn has(&self, name: &Name) -> bool
        ensures { result ≡ list_any (λ l. bytes_eq l.name name.now) self.now }
    {
        self.names.contains(name)
    }

    /// Returns the place of the live query of a name.
    pub fn place_of(&self, name: &Name) -> Option<usize>
        ensures place { result ≡ position (λ l. bytes_eq l.name name.now) self.now }
    {
        self.names.get_index_of(name)
    }

    /// Returns the name of the live query at a place.
    pub fn name_of(&self, place: usize) -> &Name
        requires { place < length self.now }
        ensures { (d : Live) → result.now ≡ (slice_index_or self.now place d).name }
    {
        self.names.get_index(place).unwrap()
    }

    /// Returns what runs the live query at a place, which may count fewer rows than were given.
    pub fn executor_at(&self, place: usize) -> &Executor
        requires { place < length self.now }
        ensures { (d : Live) → (slice_index_or self.now place d).executor ≡ with_given result.now (slice_index_or self.now place d).executor.given result.now.table.entries }
    {
        &self.runners[place].executor
    }

    /// Returns how many rows were given to the live query at a place.
    pub fn given_at(&self, place: usize) -> u64
        requires { place < length self.now }
        ensures { (d : Live) → result ≡ (slice_index_or self.now place d).executor.given }
    {
        self.runners[place].given(self.rows)
    }

    /// Counts so many rows as given to each live query.
    #[inline(always)]
    pub fn pass(&mut self, rows: u64)
        requires { All (λ l. l.executor.given + rows ≤ 2 ^ 40) self.old }
        ensures { self.new ≡ map (given_more rows) self.old }
    {
        // Where no query is live the number of rows is of no account, and may be too large.
        self.rows = self.rows.wrapping_add(rows);
    }

    /// Puts a live query behind the others, none of which has its name. For want of memory they are as before, and what was to run
    /// it is given back.
    pub fn add_last(&mut self, name: Name, executor: Executor) -> Result<(), AllocFailed<Executor>>
        requires new { list_any (λ l. bytes_eq l.name name) self.old ≡ false }
        ensures last { OnOk result (self.new ≡ self.old ++ named name executor ∷ []) }
        ensures same { OnErr result (self.new ≡ self.old) }
        ensures back { IfErr result (λ failed. failed.value ≡ executor) }
    {
        if self.names.reserve(1).is_err() {
            return Err(AllocFailed { value: executor });
        }
        level(&mut self.runners, &mut self.rows);
        let before = executor.given();
        match self.runners.push(Runner { executor, before }) {
            Ok(()) => {
                put_name(&mut self.names, name);
                Ok(())
            }
            Err(AllocFailed { value }) => {
                let Runner {
                    executor,
                    before: _,
                } = value;
                Err(AllocFailed { value: executor })
            }
        }
    }

    /// Takes the live query at a place out of the live ones, and gives what ran it. The others keep their order.
    pub fn take_out(&mut self, place: usize) -> Executor
        requires { place < length self.old }
        ensures value { (d : Live) → result ≡ (slice_index_or self.old place d).executor }
        ensures left { self.new ≡ remove self.old place }
    {
        // The name is there, and nobody asks for it any more.
        let _name = self.names.shift_remove_index(place);
        let mut runner = self.runners.remove(place);
        runner.catch_up(self.rows);
        let Runner {
            executor,
            before: _,
        } = runner;
        executor
    }

    /// Ends them where none is left.
    pub fn destroy_empty(self)
        requires { length self ≡ 0 }
    {
        let Queries {
            names: _names,
            runners,
            rows: _,
        } = self;
        runners.destroy_empty();
    }
}
