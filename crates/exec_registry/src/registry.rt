//! The registry.
ghost use Rattle.std.specs.Prelude.{◌≡◌, ◌<◌, ◌≤◌, ◌+◌, ◌^◌, List, ℕ, [], All, false, length, map, is_some, IfOk, IsTrue, Some, remove, slice_index_or};
ghost use Rattle.std.specs.List.{flat_map, position, list_any};
ghost use Rattle.std.specs.Str.{bytes_eq};
ghost use Rattle.io_streams.specs.Sink.{Writes};
ghost use Rattle.sem_query.specs.Numbers.{parts_of};
ghost use Rattle.sem_forms.specs.Forms.{IsFormPlanOf};
ghost use Rattle.exec_pool.specs.Extents.{IsLive};
ghost use Rattle.exec_query.specs.Executor as running;
ghost use Rattle.exec_query.specs.Executor.{arrival, with_given};
ghost use Rattle.exec_query.specs.Loading.{loaded_given, loaded_cell, loaded_tuple};
ghost use Rattle.exec_registry.specs.Live.{Live, LiveQuery, boxes_of, with_row, without, free_pages};
ghost use Rattle.exec_registry.specs.Concerned.{SparesStream};
ghost use Rattle.exec_registry.specs.Loaded.{LoadsAt};
ghost use Rattle.exec_registry.specs.Passed.{passed};
ghost use Rattle.exec_registry.specs.Registry.{IsSound, KeepQueries, waiting_text, most_cells, most_reads, most_writes};

use crate::concerned::{Concerned, Listing, all_of};
use crate::loading;
use crate::queries::Queries;
use crate::refusal::CreateError;
use crate::register::{Planned, admit, drop_at};
use crate::taking::apply_to_all;
use crate::verdict::{Verdict, judge};
use crate::writing::write_all;
use exec_answer_lines::AnswerLines;
use exec_pool::{Pool, Steps};
use exec_query::Executor;
use exec_query_index::Concerns;
use io_streams::{Sink, WriteFault};
use sem_query::{Plan, Query, Row, Tuple};
use sql_text::Name;
use std::alloc::{AllocError, Global};
use std::marker::Model;
use std::sync::ledger::Ledger;

/// The live queries by name, in order of creation, at most 64, and the pool of all their cells. It cannot be dropped; `close`
/// ends it.
pub struct Registry {
    alloc: Global,
    pool: Pool,
    live: Queries,
    concerned: Concerned,
    waiting: u64,
    lines: AnswerLines,
}

impl Model for Registry {
    ghost use Rattle.exec_registry.specs.Registry.{RegistryValue, IsSound};
    ghost use Rattle.exec_registry.specs.Waiting.{AreQuiet};
    ghost use Rattle.exec_registry.specs.Concerned.{IsTold};

    ghost Value = { RegistryValue };

    ghost view = { λ r. record { pool = r.pool; live = r.live } };

    ghost invariant = { λ r. IsSound r.pool r.live × AreQuiet r.waiting r.live × IsTold r.concerned r.live };
}

// Gives back the pages of all live queries.
fn close_all(pool: Pool, live: Queries)
    requires { IsSound pool live }
{
    let mut pool = pool;
    let mut live = live;
    'closing: while live.len() > 0 {
        drop_at(&mut pool, &mut live, 0);
    }
    live.destroy_empty();
}

impl Registry {
    ghost use Rattle.exec_registry.specs.Registry.{StandsFor, KeepsToEach, IsQuiet, KeepWithin, GivenUpto, Wait};
    ghost use Rattle.exec_registry.specs.Judged.{TellsVerdict, CarriesWhy, Creates};

    /// The most live queries.
    pub const MOST_QUERIES: usize = 64;

    /// Returns a registry with no live query and a pool of so many pages, at most 16,384, all of them free.
    pub fn new(alloc: Global, pages: u16) -> Result<Registry, AllocError>
        requires { pages ≤ 16384 }
        ensures stands { IfOk result (λ r. StandsFor r []) }
        ensures none { IfOk result (λ r. r.live ≡ []) }
        ensures free { IfOk result (λ r. r.pool.free ≡ pages) }
        ensures pages { IfOk result (λ r. r.pool.pages ≡ pages) }
    {
        let concerned = Concerned::new(alloc)?;
        let pool = Pool::new(alloc, pages)?;
        let live = Queries::with_capacity(alloc, Registry::MOST_QUERIES)?;
        Ok(Registry {
            alloc,
            pool,
            live,
            concerned,
            waiting: 0,
            lines: AnswerLines::new(),
        })
    }

    /// Returns the number of live queries. Each of them has an accepted plan, and keeps within the numbers that it announces.
    pub fn len(&self) -> usize
        ensures value { result ≡ length self.now.live }
        ensures few { result ≤ 64 }
        ensures within { KeepWithin self.now }
        ensures sound { IsSound self.now.pool self.now.live }
    {
        self.live.len()
    }

    /// Returns the number of free pages: all but those of the live queries.
    pub fn free(&self) -> u32
        ensures free { result ≡ self.now.pool.free }
        ensures queries { (queries : List LiveQuery) → StandsFor self.now queries → result ≡ free_pages self.now.pool.pages queries }
    {
        self.pool.free()
    }

    /// Returns the place of the live query of this name, in order of creation from 0.
    pub fn find(&self, name: &Name) -> Option<usize>
        ensures place { result ≡ position (λ l. bytes_eq l.name name.now) self.now.live }
    {
        self.live.place_of(name)
    }

    /// Returns whether a live query has this name.
    pub fn has(&self, name: &Name) -> bool
        ensures { result ≡ list_any (λ l. bytes_eq l.name name.now) self.now.live }
    {
        self.live.has(name)
    }

    /// Returns the name of the live query at a place.
    pub fn name(&self, place: usize) -> &Name
        requires { place < length self.now.live }
        ensures { (d : Live) → result.now ≡ (slice_index_or self.now.live place d).name }
    {
        self.live.name_of(place)
    }

    /// Returns what runs the live query at a place, which may count fewer rows than were given. Its cells are in the pool.
    pub fn executor(&self, place: usize) -> &Executor
        requires { place < length self.now.live }
        ensures value { (d : Live) → (slice_index_or self.now.live place d).executor ≡ with_given result.now (slice_index_or self.now.live place d).executor.given result.now.table.entries }
        ensures live { IsLive self.now.pool result.now.extent }
        ensures sound { (d : Live) → running.IsSound (slice_index_or self.now.live place d).executor }
    {
        self.live.executor_at(place)
    }

    /// Returns how many rows were given to the live query at a place.
    pub fn given(&self, place: usize) -> u64
        requires { place < length self.now.live }
        ensures { (d : Live) → result ≡ (slice_index_or self.now.live place d).executor.given }
    {
        self.live.given_at(place)
    }

    /// Returns the pool of all cells.
    pub fn pool(&self) -> &Pool
        ensures { result.now ≡ self.now.pool }
    {
        &self.pool
    }

    /// Returns the live query at a place.
    pub fn query(&self, place: usize) -> &Query
        requires { place < length self.now.live }
        ensures { (d : Live) → result.now ≡ (slice_index_or self.now.live place d).executor.query }
    {
        self.live.executor_at(place).query()
    }

    /// Returns the plan of the live query at a place.
    pub fn plan(&self, place: usize) -> &Plan
        requires { place < length self.now.live }
        ensures value { (d : Live) → result.now ≡ (slice_index_or self.now.live place d).executor.plan }
        ensures plan { (d : Live) → IsFormPlanOf (slice_index_or self.now.live place d).executor.shared (slice_index_or self.now.live place d).executor.query result.now }
    {
        self.live.executor_at(place).plan()
    }

    /// Takes a query among the live ones, under a name that none of them has, with shared cells or without, or says why it is refused:
    /// the verdict with the pages that are free. On a refusal, and for want of memory, all is as before.
    pub fn create(&mut self, name: Name, query: Query, shared: bool) -> Result<Verdict, CreateError>
        requires room { length self.old.live < 64 }
        requires new { list_any (λ l. bytes_eq l.name name) self.old.live ≡ false }
        ensures verdict { (queries : List LiveQuery) → StandsFor self.old queries → TellsVerdict shared query (free_pages self.old.pool.pages queries) result }
        ensures why { CarriesWhy shared query self.old.pool.free result }
        ensures creates { Creates self.old name query shared result self.new }
    {
        self.concerned.forget();
        match judge(self.alloc, &query, shared) {
            Ok(plan) => admit(
                self.alloc,
                &mut self.pool,
                &mut self.live,
                name,
                Planned {
                    query,
                    shared,
                    plan,
                },
            ),
            Err(why) => Err(why),
        }
    }

    /// Takes a row of a stream, whose values lie in the domains of each live query that names the stream: of each live query the
    /// answers by its own base and history wait then, and what waited before is given up. Each live query keeps within the numbers
    /// that its plan announces, whatever its history. This takes no memory.
    #[inline(always)] // each instance of the session calls it once
    pub fn row<L: Ledger>(&mut self, stream: u8, row: &Row, steps: &mut Steps<L>)
        requires few { All (λ l. l.executor.given < 2 ^ 40) self.old.live }
        requires keeps { KeepsToEach self.old.live (arrival stream row.now.items) }
        ensures stands { (queries : List LiveQuery) → StandsFor self.old queries → StandsFor self.new (map (with_row (arrival stream row.now.items)) queries) }
        ensures waits { (queries : List LiveQuery) → StandsFor self.old queries → Wait self.new.live queries (arrival stream row.now.items) }
        ensures given { (n : ℕ) → GivenUpto n self.old → GivenUpto (n + 1) self.new }
        ensures queries { KeepQueries self.old.live self.new.live }
        ensures within { KeepWithin self.new }
        ensures reads { steps.new.reads ≤ steps.old.reads + most_reads self.old.live }
        ensures writes { steps.new.writes ≤ steps.old.writes + most_writes self.old.live }
        ensures pages { self.new.pool.pages ≡ self.old.pool.pages }
    {
        let concerns = self.concerned.of(stream, row, &self.live);
        let asked = Concerns {
            word: concerns.word | self.waiting,
            within: concerns.within,
        };
        self.waiting = apply_to_all(&mut self.pool, &mut self.live, asked, stream, row, steps);
    }

    /// Returns whether each live query is known to refuse each row of a stream: one was taken since a live query last came or went.
    #[inline(always)]
    pub fn spares(&self, stream: u8) -> bool
        ensures { IsTrue result → SparesStream stream self.now.live }
    {
        matches!(
            self.concerned.listings[usize::from(stream)],
            Listing::Spared
        )
    }

    /// Counts so many rows as given to each live query, which refuses them: all else is as before.
    #[inline(always)]
    pub fn pass(&mut self, rows: u64)
        requires { All (λ l. l.executor.given + rows ≤ 2 ^ 40) self.old.live }
        ensures { self.new ≡ passed rows self.old }
    {
        self.live.pass(rows);
    }

    /// Writes what waits, query by query in order of creation. Afterwards nothing waits, on a fault too, and the registry stands
    /// for what it stood for.
    pub fn emit<O: Sink>(&mut self, out: &mut O) -> Result<(), WriteFault>
        ensures written { Writes result (O.seen out.old) (O.seen out.new) (flat_map waiting_text self.old.live) }
        ensures quiet { IsQuiet self.new }
        ensures stands { (queries : List LiveQuery) → StandsFor self.old queries → StandsFor self.new queries }
        ensures given { (n : ℕ) → GivenUpto n self.old → GivenUpto n self.new }
        ensures queries { KeepQueries self.old.live self.new.live }
        ensures pages { self.new.pool.pages ≡ self.old.pool.pages }
    {
        if self.waiting == 0 {
            return Ok(());
        }
        let waiting = self.waiting;
        self.waiting = 0;
        write_all(&mut self.live, waiting, &mut self.lines, out)
    }

    /// Takes the live query of a name out of the live ones, the first that has it. Its pages are free, and the others are as
    /// before, also what waits of them.
    pub fn drop_query(&mut self, name: &Name)
        requires { IsTrue (list_any (λ l. bytes_eq l.name name.now) self.old.live) }
        ensures left { (n : ℕ) → position (λ l. bytes_eq l.name name.now) self.old.live ≡ Some n → self.new.live ≡ remove self.old.live n }
        ensures stands { (queries : List LiveQuery) → StandsFor self.old queries → StandsFor self.new (without name.now queries) }
        ensures quiet { IsQuiet self.old → IsQuiet self.new }
        ensures given { (n : ℕ) → GivenUpto n self.old → GivenUpto n self.new }
        ensures queries { KeepQueries self.old.live self.new.live }
        ensures pages { self.new.pool.pages ≡ self.old.pool.pages }
    {
        match self.live.place_of(name) {
            Some(place) => {
                drop_at(&mut self.pool, &mut self.live, place);
                self.concerned.forget();
                self.waiting = all_of(self.live.len());
            }
            None => {}
        }
    }

    /// Sets how many rows were given to the live query at a place, and returns whether it did. One that has seen no row goes on from
    /// its base with that number, where none was given yet; else the answer is no, and all is as before. The other live queries stand
    /// for what they stood for.
    pub fn load_given(&mut self, place: usize, n: u64) -> bool
        requires there { place < length self.old.live }
        requires few { n ≤ 2 ^ 40 }
        ensures loads { LoadsAt result place (λ q. loaded_given n q.base) self.old self.new }
        ensures quiet { IsQuiet self.old → IsQuiet self.new }
        ensures given { (m : ℕ) → n ≤ m → GivenUpto m self.old → GivenUpto m self.new }
        ensures names { map (λ l. l.name) self.new.live ≡ map (λ l. l.name) self.old.live }
        ensures queries { KeepQueries self.old.live self.new.live }
        ensures pages { self.new.pool.pages ≡ self.old.pool.pages }
    {
        self.concerned.forget();
        loading::load_given(&mut self.live, place, n)
    }

    /// Sets the content of a cell of the live query at a place, and returns whether it did. One that has seen no row goes on from its
    /// base with that content, where the cell is there and empty and the content fits; else the answer is no, and all is as before.
    /// The other live queries stand for what they stood for. At most one cell is read and one is written, and none where no cells are
    /// announced.
    pub fn load_cell<L: Ledger>(
        &mut self,
        place: usize,
        i: u32,
        v: i64,
        steps: &mut Steps<L>,
    ) -> bool
        requires there { place < length self.old.live }
        ensures loads { LoadsAt result place (λ q. loaded_cell (boxes_of q) i v q.base) self.old self.new }
        ensures quiet { IsQuiet self.old → IsQuiet self.new }
        ensures given { (m : ℕ) → GivenUpto m self.old → GivenUpto m self.new }
        ensures names { map (λ l. l.name) self.new.live ≡ map (λ l. l.name) self.old.live }
        ensures queries { KeepQueries self.old.live self.new.live }
        ensures reads { steps.new.reads ≤ steps.old.reads + most_cells self.old.live }
        ensures writes { steps.new.writes ≤ steps.old.writes + most_cells self.old.live }
        ensures one { (steps.new.reads ≤ steps.old.reads + 1) × (steps.new.writes ≤ steps.old.writes + 1) }
        ensures pages { self.new.pool.pages ≡ self.old.pool.pages }
    {
        self.concerned.forget();
        loading::load_cell(&mut self.pool, &mut self.live, place, i, v, steps)
    }

    /// Puts a tuple among those that the live query at a place printed, and returns whether it did. One that has seen no row goes on
    /// from its base with that tuple, where it has DISTINCT and the tuple is new and lies in the ranges of some part; else the answer is
    /// no, and all is as before. The other live queries stand for what they stood for.
    pub fn load_tuple(&mut self, place: usize, t: &Tuple) -> bool
        requires there { place < length self.old.live }
        requires width { (d : Live) → length t.now.items ≡ length (slice_index_or self.old.live place d).executor.query.select }
        ensures loads { LoadsAt result place (λ q. loaded_tuple q.query (parts_of q.plan) t.now.items q.base) self.old self.new }
        ensures quiet { IsQuiet self.old → IsQuiet self.new }
        ensures given { (m : ℕ) → GivenUpto m self.old → GivenUpto m self.new }
        ensures names { map (λ l. l.name) self.new.live ≡ map (λ l. l.name) self.old.live }
        ensures queries { KeepQueries self.old.live self.new.live }
        ensures pages { self.new.pool.pages ≡ self.old.pool.pages }
    {
        self.concerned.forget();
        loading::load_tuple(&mut self.live, place, t)
    }

    /// Gives all pages back and ends the registry.
    pub fn close(self) {
        let Registry {
            alloc: _,
            pool,
            live,
            concerned: _concerned,
            waiting: _,
            lines: _lines,
        } = self;
        close_all(pool, live);
    }
}
