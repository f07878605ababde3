//! A live query: a clause sees the query, its plan, the extent of its cells, how many rows were given, and the answer table.
ghost use Rattle.std.specs.Prelude.{◌≡◌, List, [], ◌+◌, ◌*◌, ◌<◌, ◌≤◌, ◌^◌, min, nat_eq, true, false, MatchResult, IfOk, length, replicate, slice_index_or, if◌then◌else◌};
ghost use Rattle.sem_query.specs.declared.cell.Cell.TheVariants as cell;
ghost use Rattle.sem_query.specs.Meaning.{Arrival};
ghost use Rattle.sem_query.specs.Domains.{RowKeeps};
ghost use Rattle.sem_query.specs.Numbers.{pages_of};
ghost use Rattle.sem_query.specs.Sharing.{sizes_in};
ghost use Rattle.sem_query.specs.Bases.{Base, first_base};
ghost use Rattle.exec_pool.specs.Extents.{PoolValue, cells_of, with_cells, IsLive, IsGivenBack};
ghost use Rattle.exec_answer_lines.specs.Gathering.{Gathers};
ghost use Rattle.exec_answer_table.specs.Entries.{with_entries, settled};
ghost use Rattle.exec_saturation.specs.declared.saturation.Saturation.TheVariants as saturation;
ghost use Rattle.exec_saturation.specs.Known.{none_yet};
ghost use Rattle.exec_query.specs.Executor.{IsAccepted, IsSound, arrival, cells_in, cleared, list_in, most_answers, parts_in, tuples_in, waiting_in, with_given, with_saturation};
ghost use Rattle.exec_query.specs.Standing.{StandsFor, AreKept, KeepsWithin, IsReady};
ghost use Rattle.exec_query.specs.Bases.{StandsFrom};
ghost use Rattle.exec_query.specs.Row.{HasLooked, KeepsToWork, TakesRow};
ghost use Rattle.exec_query.specs.Loading.{loaded_given, loaded_cell, loaded_tuple, Loads};
ghost use Rattle.exec_query.specs.Passing.{IsBoxFor};
ghost use Rattle.exec_query.specs.Written.{answer_lines};

use crate::access::{Access, access_of};
use crate::filter::{filter_row, plain_filter_row};
use crate::output::gather_listed;
use crate::route::{apply_along, place_of};
use crate::two_cells::{meet_cells, take_up_anew};
use exec_answer_lines::AnswerLines;
use exec_answer_table::Answers;
use exec_filter::{Prefilter, prefilter_of};
use exec_join::Scratch;
use exec_part_index::{Led, prepare_all};
use exec_pool::{Extent, Pool, Steps};
use exec_query_index::QueryBox;
use exec_ranges::is_empty;
use exec_restore::{cell_to_load, fill, put_printed};
use exec_saturation::{Cursor, PlannedQuery, Saturation, look_beside_row};
use io_streams::{Sink, WriteFault};
use sem_query::{Cell, Plan, Query, Row, Tuple};
use sql_text::Name;
use std::alloc::{AllocError, Global};
use std::marker::Model;
use std::sync::ledger::Ledger;

/// What is said of a row to a query: whether it lies within the query's box, and whether it concerns no other query.
#[derive(Clone, Copy)]
pub struct RowHint {
    pub is_within: bool,
    pub is_alone: bool,
}

/// A live query. Like its extent it cannot be dropped: `close` spends it.
pub struct Executor {
    given: u64,
    prefilter: Prefilter,
    access: Access,
    table: Answers,
    planned: PlannedQuery,
    shared: bool,
    saturation: Saturation,
    scratch: Scratch,
}

impl Model for Executor {
    ghost use Rattle.sem_query.specs.Numbers.{parts_of};
    ghost use Rattle.exec_query.specs.Access.{IsAccess};
    ghost use Rattle.exec_query.specs.Executor.{ExecutorValue, IsSound};
    ghost use Rattle.exec_part_index.specs.Prepared.{IsPreparedPlan};
    ghost use Rattle.exec_filter.specs.Prefilter.{IsPrefilter};

    ghost Value = { ExecutorValue };

    ghost view = { λ e. record { query = e.planned.query; shared = e.shared; plan = e.planned.plan; extent = e.planned.extent; given = e.given; table = e.table; saturation = e.saturation } };

    ghost invariant = { λ e. IsSound (record { query = e.planned.query; shared = e.shared; plan = e.planned.plan; extent = e.planned.extent; given = e.given; table = e.table; saturation = e.saturation }) × IsPreparedPlan e.planned.query (parts_of e.planned.plan) e.planned.prepared × IsPrefilter e.planned.query e.planned.plan e.prefilter × IsAccess e.planned.query e.planned.plan e.prefilter e.access };
}

// For how many answers a query with this plan has room.
fn most_answers(plan: &Plan) -> u32
    ensures { result ≡ most_answers plan.now }
{
    match plan {
        Plan::Filter => 1,
        Plan::Parts { numbers, .. } => numbers.answers,
    }
}

// Leaves nothing that waits of what a table holds; with DISTINCT the tuples stay. It is not inlined, so that a row before which nothing
// waited pays nothing for it.
#[cold]
#[inline(never)]
fn clear_listed(distinct: bool, table: &mut Answers)
    ensures { table.new ≡ with_entries table.old (cleared distinct table.old.entries) }
{
    if distinct {
        table.settle();
    } else {
        table.clear();
    }
}

/// Leaves nothing that waits; with DISTINCT the tuples stay. Most often nothing is there, and this is seen at less cost than clearing has.
#[inline(always)]
pub fn clear(distinct: bool, table: &mut Answers)
    ensures { table.new ≡ with_entries table.old (cleared distinct table.old.entries) }
{
    if table.len() == 0 {
        return;
    }
    clear_listed(distinct, table);
}

impl Executor {
    /// Returns the executor of an accepted query, with shared cells or without, to which no row was given. An error says that memory was not
    /// found, and gives the extent back; no other call takes any.
    pub fn new(
        alloc: Global,
        query: Query,
        shared: bool,
        plan: Plan,
        extent: Extent,
    ) -> Result<Executor, (Extent, AllocError)>
        requires accepted { IsAccepted shared query plan }
        requires pages { extent.pages ≡ pages_of plan }
        ensures value { MatchResult result (λ e. e ≡ record { query = query; shared = shared; plan = plan; extent = extent; given = 0; table = record { width = length query.select; capacity = most_answers plan; entries = [] }; saturation = saturation.All }) (λ refused. refused.0 ≡ extent) }
        ensures history { IfOk result (λ e. (pool : PoolValue) → IsLive pool extent → cells_of pool extent ≡ replicate (64 * extent.pages) cell.Empty → StandsFor e pool []) }
        ensures bases { IfOk result (λ e. (pool : PoolValue) → IsLive pool extent → cells_of pool extent ≡ replicate (64 * extent.pages) cell.Empty → StandsFrom e pool (first_base (list_in e)) []) }
        ensures within { IfOk result (λ e. (pool : PoolValue) → IsLive pool extent → cells_of pool extent ≡ replicate (64 * extent.pages) cell.Empty → KeepsWithin e pool) }
    {
        let width = query.select().len() as u8;
        let prepared = match prepare_all(alloc, &query, &plan) {
            Ok(prepared) => prepared,
            Err(error) => return Err((extent, error)),
        };
        let prefilter = prefilter_of(&query, &plan);
        let access = access_of(&query, &plan, &prefilter, &prepared);
        let capacity = most_answers(&plan);
        match Answers::new(alloc, capacity, width) {
            Ok(table) => Ok(Executor {
                given: 0,
                prefilter,
                access,
                table,
                planned: PlannedQuery {
                    query,
                    plan,
                    prepared,
                    extent,
                },
                shared,
                saturation: Saturation::All,
                scratch: Scratch::new(),
            }),
            Err(error) => Err((extent, error)),
        }
    }

    /// Takes a row of any stream of at most 2^40 rows in all, whose values lie in the domains of the query where it names the stream.
    /// What waited before is given up. The answers that cells and table tell come to wait, each at most 2^127 times; the cells become
    /// their merge with the row's own; with DISTINCT the tuples grow by the answers. Where the executor stood for a history, the new
    /// answers wait, and it then stands for the history with the row; so it does for a base and the rows since, which tell the answers
    /// that wait. It keeps within the numbers that its plan announces. It reads at most three cells for each unit of announced work and
    /// one for each part, and writes at most one for each part; a filter, and a query that does not name the stream, read and write none.
    /// Where it says no, no answer waits; where it says yes, some may. The prefilter is not asked of a row of which the caller says that it
    /// lies within the query's box; what is said decides on the time alone.
    #[inline(always)]
    pub fn apply<L: Ledger>(
        &mut self,
        hint: RowHint,
        pool: &mut Pool,
        stream: u8,
        row: &Row,
        steps: &mut Steps<L>,
    ) -> bool
        requires ready { IsReady self.old pool.old }
        requires keeps { RowKeeps self.old.query (arrival stream row.now.items) }
        ensures took { TakesRow self.old pool.old (arrival stream row.now.items) self.new pool.new }
        ensures none { result ≡ false → waiting_in self.new ≡ [] }
        ensures steps { KeepsToWork self.old (arrival stream row.now.items) steps.old steps.new }
    {
        match &self.access {
            Access::Filter(filter) => {
                self.given += 1;
                let (prefilter, table) = (&self.prefilter, &mut self.table);
                plain_filter_row(hint.is_alone, prefilter, filter, stream, row, table)
            }
            Access::PointLookup(_) => self.apply_by_cells(hint.is_within, pool, stream, row, steps),
            Access::Plan => self.apply_by_plan(hint.is_within, pool, stream, row, steps),
        }
    }

    // Takes a row as `apply` does, by two cells where one column of it tells them. It is not inlined, so that each way keeps on the stack
    // what it needs alone.
    #[inline(never)]
    fn apply_by_cells<L: Ledger>(
        &mut self,
        is_within: bool,
        pool: &mut Pool,
        stream: u8,
        row: &Row,
        steps: &mut Steps<L>,
    ) -> bool
        requires ready { IsReady self.old pool.old }
        requires keeps { RowKeeps self.old.query (arrival stream row.now.items) }
        ensures took { TakesRow self.old pool.old (arrival stream row.now.items) self.new pool.new }
        ensures none { result ≡ false → waiting_in self.new ≡ [] }
        ensures steps { KeepsToWork self.old (arrival stream row.now.items) steps.old steps.new }
    {
        let (Access::PointLookup(lookups), Plan::Parts { parts, .. }) = (
            &self.access,
            &self.planned.plan,
        ) else {
            return self.apply_by_plan(is_within, pool, stream, row, steps);
        };
        let Some(direct) = lookups.of_stream(stream) else {
            return self.apply_by_plan(is_within, pool, stream, row, steps);
        };
        self.given += 1;
        let (q, extent) = (&self.planned.query, &self.planned.extent);
        let there = meet_cells(pool, q, extent, parts, direct, row, steps);
        if is_empty(there) {
            clear(self.planned.query.distinct(), &mut self.table);
            return false;
        }
        let (tuple, table) = (&mut self.scratch.tuple, &mut self.table);
        take_up_anew(&self.planned.query, direct, row, there, tuple, table);
        true
    }

    // Takes a row as `apply` does, whatever the query. It is not inlined, and the way to it is laid aside, so that a row of a filter, and one
    // that is taken by two cells, pay nothing for it.
    #[cold]
    #[inline(never)]
    fn apply_by_plan<L: Ledger>(
        &mut self,
        is_within: bool,
        pool: &mut Pool,
        stream: u8,
        row: &Row,
        steps: &mut Steps<L>,
    ) -> bool
        requires ready { IsReady self.old pool.old }
        requires keeps { RowKeeps self.old.query (arrival stream row.now.items) }
        ensures took { TakesRow self.old pool.old (arrival stream row.now.items) self.new pool.new }
        ensures none { result ≡ false → waiting_in self.new ≡ [] }
        ensures steps { KeepsToWork self.old (arrival stream row.now.items) steps.old steps.new }
    {
        // A row that is refused while nothing waits is but counted: there is nothing to be given up.
        if !is_within && !self.prefilter.passes(stream, row) && self.table.waiting_len() == 0 {
            self.given += 1;
            return false;
        }
        if let Saturation::Before(cursor) = self.saturation {
            self.look_on(pool, stream, cursor, steps);
        }
        self.given += 1;
        clear(self.planned.query.distinct(), &mut self.table);
        let (q, prepared, table) = (&self.planned.query, &self.planned.prepared, &mut self.table);
        match &self.planned.plan {
            Plan::Filter => filter_row(q, stream, row, &mut self.scratch.tuple, table),
            Plan::Parts { parts, .. } => match place_of(q.from(), stream) {
                Some(pos) => {
                    let part_index = prepared.part_index(q, parts, pos);
                    let hit = part_index.first(q, parts, pos, row);
                    let led = Led {
                        q,
                        parts,
                        pos,
                        row,
                        code: hit.code,
                        part_index,
                        each: part_index.each_owns(q, parts, pos),
                        prepared,
                        extent: &self.planned.extent,
                        known: self.saturation.spares(q),
                    };
                    apply_along(pool, &led, hit.first, &mut self.scratch, table, steps)
                }
                None => {}
            },
        }
        self.table.waiting_len() != 0
    }

    // Looks at some cells after others were loaded, whether they are saturated: as many as the announced work leaves room for beside a row of
    // a stream. It is not inlined, so that a row of a query of which no cell was loaded pays nothing for it.
    #[cold]
    #[inline(never)]
    fn look_on<L: Ledger>(&mut self, pool: &Pool, stream: u8, cursor: Cursor, steps: &mut Steps<L>)
        requires ready { IsReady self.old pool.now }
        requires here { self.old.saturation ≡ saturation.Before cursor }
        ensures { HasLooked self.old pool.now stream self.new steps.old steps.new }
    {
        let (planned, table, scratch) = (&self.planned, &self.table, &mut self.scratch);
        self.saturation = look_beside_row(pool, planned, stream, cursor, table, scratch, steps);
    }

    /// Gathers a line for each answer that waits, in ascending order, behind what is gathered, of which some may be written. Where it is said
    /// that no other query answers the row, and nothing is gathered, they are written. Then nothing waits, also after a fault; all else is as
    /// before, with DISTINCT the tuples too, so that the executor stands for what it stood for, a history or a base.
    #[inline(always)]
    pub fn emit<O: Sink>(
        &mut self,
        is_alone: bool,
        name: &Name,
        lines: &mut AnswerLines,
        out: &mut O,
    ) -> Result<(), WriteFault>
        requires { is_alone ≡ true → lines.old ≡ [] }
        ensures gathers { Gathers result (O.seen out.old) (O.seen out.new) lines.old lines.new (answer_lines name.now (waiting_in self.old)) }
        ensures written { is_alone ≡ true → lines.new ≡ [] }
        ensures none { waiting_in self.new ≡ [] }
        ensures same { self.new ≡ with_given self.old self.old.given (settled self.old.table.entries) }
        ensures tuples { tuples_in self.new ≡ tuples_in self.old }
        ensures kept { (pool : PoolValue) → AreKept self.old pool → AreKept self.new pool }
        ensures within { (pool : PoolValue) → KeepsWithin self.old pool → KeepsWithin self.new pool }
        ensures history { (pool : PoolValue) (history : List Arrival) → StandsFor self.old pool history → StandsFor self.new pool history }
        ensures bases { (pool : PoolValue) (base : Base) (history : List Arrival) → StandsFrom self.old pool base history → StandsFrom self.new pool base history }
    {
        let written = match self.table.lone_entry() {
            Some(found) => {
                let (tuple, times) = found;
                if is_alone {
                    lines.write(name, tuple, times, out)
                } else {
                    lines.gather(name, tuple, times, out)
                }
            }
            None => gather_listed(&self.table, name, lines, out),
        };
        self.give_up();
        written
    }

    /// Gives up what waits: nothing waits then, and all else is as before, with DISTINCT the tuples too.
    pub fn give_up(&mut self)
        ensures none { waiting_in self.new ≡ [] }
        ensures same { self.new ≡ with_given self.old self.old.given (settled self.old.table.entries) }
        ensures tuples { tuples_in self.new ≡ tuples_in self.old }
        ensures kept { (pool : PoolValue) → AreKept self.old pool → AreKept self.new pool }
        ensures within { (pool : PoolValue) → KeepsWithin self.old pool → KeepsWithin self.new pool }
        ensures history { (pool : PoolValue) (history : List Arrival) → StandsFor self.old pool history → StandsFor self.new pool history }
        ensures bases { (pool : PoolValue) (base : Base) (history : List Arrival) → StandsFrom self.old pool base history → StandsFrom self.new pool base history }
    {
        self.table.settle();
    }

    // Whether no row was given.
    fn is_new(&self) -> bool
        ensures { result ≡ nat_eq self.now.given 0 }
    {
        self.given == 0
    }

    /// Says how many rows were given before, where none was: whatever base with no rows since the executor stood for, it then stands for this
    /// base with that number. Returns false, and changes nothing, where rows were given.
    pub fn load_given(&mut self, n: u64) -> bool
        requires few { n ≤ 2 ^ 40 }
        ensures value { result ≡ nat_eq self.old.given 0 }
        ensures loads { (pool : PoolValue) (base : Base) → StandsFrom self.old pool base [] → Loads result (loaded_given n base) self.old pool self.new pool }
        ensures same { self.new ≡ with_given self.old self.new.given self.old.table.entries }
        ensures given { self.new.given ≡ (if result then n else self.old.given) }
        ensures kept { (pool : PoolValue) → AreKept self.old pool → AreKept self.new pool }
        ensures within { (pool : PoolValue) → KeepsWithin self.old pool → KeepsWithin self.new pool }
    {
        if !self.is_new() {
            return false;
        }
        self.given = n;
        true
    }

    /// Puts the content of a cell in its place: whatever base with no rows since the executor stood for, it then stands for this base with that
    /// cell. Returns false, and changes nothing, where the query keeps no cell of this number, where that cell is not empty, and where the
    /// content does not fit its kind: a count is 1 up to the rows given, and the content 1 says that there are rows. Then no cell is known to
    /// be saturated yet. This is at most one read and one write.
    pub fn load_cell<L: Ledger>(
        &mut self,
        pool: &mut Pool,
        i: u32,
        v: i64,
        steps: &mut Steps<L>,
    ) -> bool
        requires live { IsLive pool.old self.old.extent }
        ensures loads { (base : Base) → StandsFrom self.old pool.old base [] → Loads result (loaded_cell (list_in self.old) i v base) self.old pool.old self.new pool.new }
        ensures same { self.new ≡ with_saturation self.old (if result then none_yet else self.old.saturation) }
        ensures only { pool.new ≡ with_cells pool.old self.old.extent (cells_of pool.new self.old.extent) }
        ensures kept { AreKept self.old pool.old → AreKept self.new pool.new }
        ensures within { KeepsWithin self.old pool.old → KeepsWithin self.new pool.new }
        ensures reads { steps.new.reads ≤ steps.old.reads + min 1 (sizes_in (list_in self.old)) }
        ensures writes { steps.new.writes ≤ steps.old.writes + min 1 (sizes_in (list_in self.old)) }
    {
        let filled = match cell_to_load(
            &self.planned.query,
            self.shared,
            &self.planned.plan,
            self.given,
            i,
            v,
        ) {
            Some(cell) => fill(pool, &self.planned.extent, i, cell, steps),
            None => false,
        };
        self.saturation = self.saturation.after_load(filled);
        filled
    }

    /// Says that a tuple, as wide as the selected columns, was printed: whatever base with no rows since the executor stood for, it then stands
    /// for this base with that tuple. Returns false, and changes nothing, without DISTINCT, where the tuple lies in the ranges of no part, and
    /// where it was printed before.
    pub fn load_tuple(&mut self, t: &Tuple) -> bool
        requires width { length t.now.items ≡ length self.old.query.select }
        ensures loads { (pool : PoolValue) (base : Base) → StandsFrom self.old pool base [] → Loads result (loaded_tuple self.old.query (parts_in self.old) t.now.items base) self.old pool self.new pool }
        ensures same { self.new ≡ with_given self.old self.old.given self.new.table.entries }
        ensures quiet { waiting_in self.old ≡ [] → waiting_in self.new ≡ [] }
        ensures kept { (pool : PoolValue) → AreKept self.old pool → AreKept self.new pool }
        ensures within { (pool : PoolValue) → KeepsWithin self.old pool → KeepsWithin self.new pool }
    {
        put_printed(
            &self.planned.query,
            &self.planned.plan,
            &self.planned.prepared,
            t,
            &mut self.table,
        )
    }

    /// Counts rows up to a number as given that are refused: all else is as before.
    pub fn pass(&mut self, given: u64)
        requires more { self.old.given ≤ given }
        requires few { given ≤ 2 ^ 40 }
        ensures { self.new ≡ with_given self.old given self.old.table.entries }
    {
        self.given = given;
    }

    /// Returns a box of intervals outside of which each row of a stream is refused. There is none where each row of it is. A filter without
    /// DISTINCT is asked of each row in it.
    pub fn box_for(&self, stream: u8) -> Option<QueryBox>
        ensures { IsBoxFor self.now.query self.now.plan stream result }
    {
        match self.prefilter.box_for(stream) {
            Some(own) => Some(own.with_asked(self.access.is_filter())),
            None => None,
        }
    }

    /// Returns how many rows were given.
    pub fn given(&self) -> u64
        ensures value { result ≡ self.now.given }
        ensures few { result ≤ 2 ^ 40 }
    {
        self.given
    }

    /// Returns whether the query has shared cells.
    pub fn is_shared(&self) -> bool
        ensures { result ≡ self.now.shared }
    {
        self.shared
    }

    /// Returns how many tuples were printed, which is 0 without DISTINCT.
    pub fn printed(&self) -> u32
        ensures { result ≡ (if self.now.query.distinct then length (tuples_in self.now) else 0) }
    {
        if self.planned.query.distinct() {
            self.table.len()
        } else {
            0
        }
    }

    /// Returns the printed tuple of a number from 0, in ascending order.
    pub fn tuple(&self, i: u32) -> Tuple
        requires { i < (if self.now.query.distinct then length (tuples_in self.now) else 0) }
        ensures { result.items ≡ slice_index_or (tuples_in self.now) i [] }
    {
        let (tuple, _waiting) = self.table.entry(i);
        tuple
    }

    /// Returns the cell of a number. This is one read.
    pub fn cell<L: Ledger>(&self, pool: &Pool, i: u32, steps: &mut Steps<L>) -> Cell
        requires live { IsLive pool.now self.now.extent }
        requires there { i < sizes_in (list_in self.now) }
        ensures value { result ≡ slice_index_or (cells_in self.now pool.now) i cell.Empty }
        ensures reads { steps.new.reads ≡ steps.old.reads + 1 }
        ensures writes { steps.new.writes ≡ steps.old.writes }
    {
        pool.read(&self.planned.extent, i, steps)
    }

    /// Returns the query.
    pub fn query(&self) -> &Query
        ensures value { result.now ≡ self.now.query }
        ensures sound { IsSound self.now }
    {
        &self.planned.query
    }

    /// Returns its plan.
    pub fn plan(&self) -> &Plan
        ensures value { result.now ≡ self.now.plan }
        ensures sound { IsSound self.now }
    {
        &self.planned.plan
    }

    /// Gives the pages of the cells back.
    pub fn close(self, pool: &mut Pool)
        requires { IsLive pool.old self.extent }
        ensures { IsGivenBack pool.old self.extent pool.new }
    {
        let Executor {
            given: _,
            prefilter: _prefilter,
            access: _access,
            table: _table,
            planned,
            shared: _,
            saturation: _,
            scratch: _scratch,
        } = self;
        let PlannedQuery {
            query: _query,
            plan: _plan,
            prepared: _prepared,
            extent,
        } = planned;
        pool.give_back(extent);
    }
}
