//! The session.
ghost use Rattle.std.specs.Prelude.{◌≡◌, ℕ, ◌+◌, ◌-◌, ◌<◌, ◌≤◌, ◌^◌, All, List, None, Some, true, false, IfOk, IfSome, IsTrue, IsFalse, length, nat_lt, if◌then◌else◌};
ghost use Rattle.std.specs.List.{list_any, position};
ghost use Rattle.std.specs.Str.{bytes_eq};
ghost use Rattle.sql_parser.specs.Grammar.{IsWhole};
ghost use Rattle.sql_parser.specs.Limits.{limit_of};
ghost use Rattle.sql_printer.specs.Printed.{create_line};
ghost use Rattle.sql_parser.specs.declared.tree.Statement.TheVariants.{CreateQuery};
ghost use Rattle.sql_parser.specs.Resolution.{IsTaken, HasNamed};
ghost use Rattle.std.specs.declared.result.Result.TheVariants as results;
ghost use Rattle.sql_catalog.specs.Rows.{entry, is_row_line};
ghost use Rattle.sql_catalog.specs.Streams.{HasEnds, KeepsDomains, added, stream_number};
ghost use Rattle.sql_parser.specs.LineKind.{stripped, kind_of_line};
ghost use Rattle.exec_registry.specs.Registry.{KeepWithin, most_reads, most_writes, most_cells};
ghost use Rattle.exec_registry.specs.Live.{announced_reads, announced_writes};
ghost use Rattle.cmd_session.specs.Checkpoint.{create_again};
ghost use Rattle.io_row_reader.specs.Plain.{IsPlainRow};
ghost use Rattle.cmd_session.specs.State.{State, empty, initial, one_line_more};
ghost use Rattle.sql_replies.specs.declared.refusal.Refusal.TheVariants.{Value};
ghost use Rattle.cmd_session.specs.Request.{Request, asked, explained, saved, unlocked, refused};
ghost use Rattle.cmd_session.specs.Requests.{entry_request, row_request, stream_request, query_request, explain_request, drop_request, rows_request, given_request, cell_request, tuple_request, lock_request, unlock_request, opened_by, statement_request};
ghost use Rattle.cmd_session.specs.Lock.{open_in};
ghost use Rattle.io_row_reader.specs.Open.{is_open};
ghost use Rattle.cmd_session.specs.Session.{IsSound, line_reads, line_writes, announced_line_reads, announced_line_writes};

mod ahead;
mod statements;

use crate::announced::{Announced, announced_in};
use crate::checkpoint::write_checkpoint;
use crate::create_query::{find_query, is_live, streams_of};
use crate::lock::{Lock, is_let, open_in, opened_by};
use crate::outcome::{LineOutcome, outcome_of};
use crate::resuming::{rows_to_resume, set_cell, set_given, set_tuple};
use exec_pool::Steps;
use exec_registry::{CreateError, Registry, Verdict};
use io_row_reader::IndexedCatalog;
use io_streams::Sink;
use sem_query::{Query, Row, Tuple};
use sql_catalog::ColumnDef;
use sql_explain::explain;
use sql_parser::{LineKind, SelectAst, Statement, classify};
use sql_printer::column_named;
use sql_replies::{
    Refusal, row_refusal, stream_refusal, write_created, write_dropped, write_filter, write_limit,
    write_locked, write_no_pages, write_numbers, write_refused, write_unlocked, write_violation,
};
use sql_text::Name;
use std::alloc::{AllocError, Global};
use std::marker::Model;
use std::sync::ledger::Ledger;

/// A session: its streams, its live queries, how many rows and lines it has read, whether a row line was taken, and its lock, where one
/// stands. No row is kept.
pub struct Session {
    limit: u64,
    catalog: IndexedCatalog,
    registry: Registry,
    taken: u64,
    lines: u64,
    began: bool,
    lock: Option<Lock>,
}

impl Model for Session {
    ghost use Rattle.std.specs.Prelude.{◌≡◌};
    ghost use Rattle.cmd_session.specs.Lock.{open_in};
    ghost use Rattle.cmd_session.specs.Session.{SessionValue, IsSound};

    ghost Value = { SessionValue };

    ghost view = { λ s. record { limit = s.limit; streams = s.catalog.streams; registry = s.registry; taken = s.taken; lines = s.lines; began = s.began; lock = s.lock } };

    ghost invariant = { λ s. IsSound (record { limit = s.limit; streams = s.catalog.streams; registry = s.registry; taken = s.taken; lines = s.lines; began = s.began; lock = s.lock })
        × (s.catalog.opened ≡ open_in s.lock) };
}

impl Session {
    ghost use Rattle.cmd_session.specs.Session.{StandsFor, Does, Answered, names_in};
    ghost use Rattle.cmd_session.specs.Resuming.{IsSettled};
    ghost use Rattle.cmd_session.specs.Announced.{announced_by};

    /// The most rows of a session.
    pub const MOST_ROWS: u64 = 1 << 40;

    /// The most pages of a session, and those that it has where no number is given.
    pub const MOST_PAGES: u16 = 16_384;

    /// Returns a session with no streams, no queries and no rows, which may take so many rows. Its live queries have at most 16,384 pages
    /// together.
    pub fn new(alloc: Global, row_limit: u64) -> Result<Session, AllocError>
        requires some { 0 < row_limit }
        requires few { row_limit ≤ 2 ^ 40 }
        ensures { IfOk result (λ session. StandsFor session (empty row_limit)) }
    {
        Session::with_pages(alloc, row_limit, Session::MOST_PAGES)
    }

    /// Returns a session with no streams, no queries and no rows, which may take so many rows. Its live queries have at most so many pages
    /// together. Memory for a page is touched when it is first needed.
    pub fn with_pages(alloc: Global, row_limit: u64, pages: u16) -> Result<Session, AllocError>
        requires some { 0 < row_limit }
        requires few { row_limit ≤ 2 ^ 40 }
        requires small { pages ≤ 16384 }
        ensures { IfOk result (λ session. StandsFor session (initial row_limit pages)) }
    {
        Ok(Session {
            limit: row_limit,
            catalog: IndexedCatalog::new(alloc)?,
            registry: Registry::new(alloc, pages)?,
            taken: 0,
            lines: 0,
            began: false,
            lock: None,
        })
    }

    /// Answers a line of at most 1,024 bytes: writes the reply and takes the next state, for every state that the session stands for. A row, a
    /// line that a word refuses, and the lines of checkpoints take no memory. A row reads at most three cells for each unit of work that the
    /// live queries announce and one for each of their parts, and writes at most one for each part. A statement reads and writes at most the
    /// cells that they announce. After the line each live query keeps within the numbers that it announced.
    #[inline(always)] // each loop over lines calls it once, and is faster with the taking of rows inside
    pub fn line<O: Sink, L: Ledger>(
        &mut self,
        line: &[u8],
        out: &mut O,
        steps: &mut Steps<L>,
    ) -> LineOutcome
        requires short { length line.now ≤ 1024 }
        requires lines { self.old.lines + 1 < 2 ^ 64 }
        ensures reply { (s : State) → StandsFor self.old s → Answered result s line.now self.new (O.seen out.old) (O.seen out.new) }
        ensures reads { steps.new.reads ≤ steps.old.reads + line_reads (kind_of_line (stripped line.now)) self.old.registry.live }
        ensures writes { steps.new.writes ≤ steps.old.writes + line_writes (kind_of_line (stripped line.now)) self.old.registry.live }
        ensures within { KeepWithin self.new.registry }
        ensures announced { (s : State) → StandsFor self.old s
            → (steps.new.reads ≤ steps.old.reads + announced_line_reads (kind_of_line (stripped line.now)) s.queries)
            × (steps.new.writes ≤ steps.old.writes + announced_line_writes (kind_of_line (stripped line.now)) s.queries) }
    {
        let mut row = Row::new();
        match self.lone_row(line, &mut row) {
            Some(stream) => self.plain_row(stream, &row, out, steps),
            None => {
                self.lines += 1;
                let outcome = self.answer_line(line, out, steps);
                // No effect at run time. The proof reads from this call that each live query keeps within its numbers.
                let _within = self.registry.len();
                outcome
            }
        }
    }

    /// Answers a line of at most 1,024 bytes that is this row of an open stream, whose values lie in the domains of its columns.
    #[inline(always)]
    pub fn plain_row<O: Sink, L: Ledger>(
        &mut self,
        stream: u8,
        row: &Row,
        out: &mut O,
        steps: &mut Steps<L>,
    ) -> LineOutcome
        requires domains { KeepsDomains self.old.streams stream row.now.items }
        requires opens { IsTrue (is_open (open_in self.old.lock) stream) }
        requires lines { self.old.lines + 1 < 2 ^ 64 }
        ensures reply { (s : State) → (line : List ℕ) → length line ≤ 1024 → IsPlainRow self.old.streams line stream row.now.items → StandsFor self.old s
            → Answered result s line self.new (O.seen out.old) (O.seen out.new) }
        ensures reads { steps.new.reads ≤ steps.old.reads + most_reads self.old.registry.live }
        ensures writes { steps.new.writes ≤ steps.old.writes + most_writes self.old.registry.live }
        ensures within { KeepWithin self.new.registry }
        ensures announced { (s : State) → StandsFor self.old s
            → (steps.new.reads ≤ steps.old.reads + announced_reads s.queries) × (steps.new.writes ≤ steps.old.writes + announced_writes s.queries) }
    {
        self.lines += 1;
        let outcome = self.ask_row(stream, row, out, steps);
        // No effect at run time. The proof reads from this call that each live query keeps within its numbers.
        let _within = self.registry.len();
        outcome
    }

    /// Answers a line of more than 1,024 bytes, whatever it is.
    pub fn long_line<O: Sink>(&mut self, out: &mut O) -> LineOutcome
        requires lines { self.old.lines + 1 < 2 ^ 64 }
        ensures reply { (s : State) → (line : List ℕ) → 1024 < length line → StandsFor self.old s
            → Answered result s line self.new (O.seen out.old) (O.seen out.new) }
    {
        self.lines += 1;
        self.refuse(Refusal::LineTooLong, out)
    }

    /// Returns the sums of the cells and of the answers that the live queries announce, for every state that the session stands for.
    pub fn announced(&self) -> Announced
        ensures { (s : State) → StandsFor self.now s → result ≡ announced_by s.queries }
    {
        announced_in(&self.registry)
    }

    /// Returns whether so many lines were read that no line more is answered.
    pub(crate) fn is_full(&self) -> bool
        ensures full { IsTrue result → 2 ^ 64 - 2 ≤ self.now.lines }
        ensures room { IsFalse result → self.now.lines + 1 < 2 ^ 64 }
    {
        u64::MAX - 1 <= self.lines
    }

    /// Returns how many lines the session has read.
    pub fn lines(&self) -> u64
        ensures { result ≡ self.now.lines }
    {
        self.lines
    }

    /// Returns the lock, where one stands.
    pub fn lock(&self) -> Option<Lock>
        ensures { result ≡ self.now.lock }
    {
        match &self.lock {
            None => None,
            Some(lock) => Some(lock.copied()),
        }
    }

    /// Puts a lock, or none, in the place of the one that stands. Nothing else is changed.
    pub fn set_lock(&mut self, lock: Option<Lock>)
        ensures kept { self.new ≡ record self.old { lock = lock } }
        ensures stands { (s : State) → StandsFor self.old s → StandsFor self.new (record s { lock = lock }) }
    {
        self.catalog.set_open(open_in(&lock));
        self.lock = lock;
    }

    /// Returns the number of the stream of this name.
    pub fn stream_named(&self, name: &[u8]) -> Option<u8>
        ensures number { result ≡ stream_number self.now.streams name.now }
        ensures inside { IfSome result (λ number. number < length self.now.streams) }
    {
        self.catalog.all().find_bytes(name)
    }

    /// Ends the session.
    pub fn close(self) {
        let Session {
            limit: _,
            catalog: _catalog,
            registry,
            taken: _,
            lines: _,
            began: _,
            lock: _lock,
        } = self;
        registry.close();
    }

    // Refuses the line that was counted last.
    fn refuse<O: Sink>(&self, word: Refusal, out: &mut O) -> LineOutcome
        ensures { (s : State) → StandsFor self.now (one_line_more s) → Does result s (refused word) self.now (O.seen out.old) (O.seen out.new) }
    {
        outcome_of(write_refused(out, self.lines, word))
    }

    // Answers a line that was counted, whatever it is. It is not inlined, since its frame would then be made for each row too.
    #[inline(never)]
    fn answer_line<O: Sink, L: Ledger>(
        &mut self,
        line: &[u8],
        out: &mut O,
        steps: &mut Steps<L>,
    ) -> LineOutcome
        requires { length line.now ≤ 1024 }
        ensures reply { (s : State) → StandsFor self.old (one_line_more s) → Answered result s line.now self.new (O.seen out.old) (O.seen out.new) }
        ensures reads { steps.new.reads ≤ steps.old.reads + line_reads (kind_of_line (stripped line.now)) self.old.registry.live }
        ensures writes { steps.new.writes ≤ steps.old.writes + line_writes (kind_of_line (stripped line.now)) self.old.registry.live }
    {
        let (kind, text) = classify(line);
        if !is_let(&self.lock, self.catalog.all(), kind, text) {
            return self.refuse(Refusal::Locked, out);
        }
        match kind {
            LineKind::Nothing => LineOutcome::Done,
            LineKind::RowLine => self.answer_row(text, out, steps),
            LineKind::StatementLine => self.answer_text(text, out, steps),
        }
    }

    // Takes a row, whose values lie in the domains of its columns, where one more may be taken. It is inlined into the loop over rows, which then
    // makes its frame once.
    #[inline(always)]
    fn ask_row<O: Sink, L: Ledger>(
        &mut self,
        stream: u8,
        row: &Row,
        out: &mut O,
        steps: &mut Steps<L>,
    ) -> LineOutcome
        requires { KeepsDomains self.old.streams stream row.now.items }
        ensures reply { (s : State) → StandsFor self.old (one_line_more s)
            → Does result s (entry_request (nat_lt self.old.taken self.old.limit) (results.Ok (entry stream row.now.items))) self.new (O.seen out.old) (O.seen out.new) }
        ensures reads { steps.new.reads ≤ steps.old.reads + most_reads self.old.registry.live }
        ensures writes { steps.new.writes ≤ steps.old.writes + most_writes self.old.registry.live }
    {
        if self.limit <= self.taken {
            return self.refuse(Refusal::RowLimit, out);
        }
        self.taken += 1;
        self.began = true;
        self.registry.row(stream, row, steps);
        outcome_of(self.registry.emit(out))
    }

    // Answers a row line that was counted.
    fn answer_row<O: Sink, L: Ledger>(
        &mut self,
        text: &[u8],
        out: &mut O,
        steps: &mut Steps<L>,
    ) -> LineOutcome
        requires { IsTrue (is_row_line text.now) }
        ensures reply { (s : State) → StandsFor self.old (one_line_more s)
            → Does result s (row_request self.old.streams (nat_lt self.old.taken self.old.limit) text.now) self.new (O.seen out.old) (O.seen out.new) }
        ensures reads { steps.new.reads ≤ steps.old.reads + most_reads self.old.registry.live }
        ensures writes { steps.new.writes ≤ steps.old.writes + most_writes self.old.registry.live }
    {
        let mut row = Row::new();
        match self.catalog.all().read_row(text, &mut row) {
            Ok(stream) => self.ask_row(stream, &row, out, steps),
            Err(error) => self.refuse(row_refusal(error), out),
        }
    }

    // Answers a statement, in a line that was counted, of a text of at most 1,024 bytes.
    fn answer_statement<O: Sink, L: Ledger>(
        &mut self,
        statement: Statement,
        out: &mut O,
        steps: &mut Steps<L>,
    ) -> LineOutcome
        requires whole { IsWhole statement }
        requires limits { limit_of statement ≡ None }
        requires short { length (create_line statement) ≤ 1024 }
        ensures reply { (s : State) → StandsFor self.old (one_line_more s) → Does result s (statement_request s statement) self.new (O.seen out.old) (O.seen out.new) }
        ensures reads { steps.new.reads ≤ steps.old.reads + most_cells self.old.registry.live }
        ensures writes { steps.new.writes ≤ steps.old.writes + most_cells self.old.registry.live }
    {
        match statement {
            Statement::CreateStream { name, columns } => self.create_stream(
                name,
                columns.as_slice(),
                out,
            ),
            Statement::CreateQuery {
                name,
                select,
                shared,
            } => self.create_query(name, &select, shared, out),
            Statement::Explain { name } => self.explain(&name, out),
            Statement::DropQuery { name } => self.drop_query(&name, out),
            Statement::Checkpoint => self.write_checkpoint(out, steps),
            Statement::ResumeRows { rows } => self.resume_rows(rows, out),
            Statement::ResumeGiven { name, rows } => self.resume_given(&name, rows, out),
            Statement::ResumeCell {
                name,
                index,
                content,
            } => self.resume_cell(&name, index, content, out, steps),
            Statement::ResumeTuple { name, values } => self.resume_tuple(&name, &values, out),
            Statement::Lock { key, streams } => self.lock_to(key, streams.as_slice(), out),
            Statement::Unlock { key: _ } => self.unlock(out),
        }
    }

    // Sets a lock under which rows of the streams of these names are let, or of all where there are none, in a line that was counted.
    fn lock_to<O: Sink>(&mut self, key: Option<i64>, names: &[Name], out: &mut O) -> LineOutcome
        requires { length names.now ≤ 16 }
        ensures { (s : State) → StandsFor self.old (one_line_more s) → Does result s (lock_request key (opened_by self.old.streams names.now)) self.new (O.seen out.old) (O.seen out.new) }
    {
        match opened_by(self.catalog.all(), names) {
            Ok(opened) => {
                self.set_lock(Some(Lock { key, opened }));
                outcome_of(write_locked(out))
            }
            Err(word) => self.refuse(word, out),
        }
    }

    // Whether a lock stands.
    fn is_locked(&self) -> bool
        ensures { unlock_request self.now.lock ≡ (if result then unlocked else refused Value) }
    {
        match &self.lock {
            None => false,
            Some(_lock) => true,
        }
    }

    // Takes the lock away, where one stands, in a line that was counted and is let.
    fn unlock<O: Sink>(&mut self, out: &mut O) -> LineOutcome
        ensures { (s : State) → StandsFor self.old (one_line_more s) → Does result s (unlock_request self.old.lock) self.new (O.seen out.old) (O.seen out.new) }
    {
        if !self.is_locked() {
            return self.refuse(Refusal::Value, out);
        }
        self.set_lock(None);
        outcome_of(write_unlocked(out))
    }

    // Writes a checkpoint, in a line that was counted.
    fn write_checkpoint<O: Sink, L: Ledger>(&self, out: &mut O, steps: &mut Steps<L>) -> LineOutcome
        ensures reply { (s : State) → StandsFor self.now (one_line_more s) → Does result s saved self.now (O.seen out.old) (O.seen out.new) }
        ensures reads { steps.new.reads ≤ steps.old.reads + most_cells self.now.registry.live }
        ensures writes { steps.new.writes ≡ steps.old.writes }
    {
        let written = write_checkpoint(self.catalog.all(), &self.registry, self.taken, out, steps);
        outcome_of(written)
    }

    // Takes so many rows as taken, in a line that was counted.
    fn resume_rows<O: Sink>(&mut self, rows: i64, out: &mut O) -> LineOutcome
        ensures { (s : State) → StandsFor self.old (one_line_more s) → Does result s (rows_request s rows) self.new (O.seen out.old) (O.seen out.new) }
    {
        match rows_to_resume(self.began, self.taken, self.limit, rows) {
            Ok(taken) => {
                self.taken = taken;
                LineOutcome::Done
            }
            Err(word) => self.refuse(word, out),
        }
    }

    // Says how many rows were given to a live query, in a line that was counted.
    fn resume_given<O: Sink>(&mut self, name: &Name, rows: i64, out: &mut O) -> LineOutcome
        ensures { (s : State) → StandsFor self.old (one_line_more s) → Does result s (given_request s name.now rows) self.new (O.seen out.old) (O.seen out.new) }
    {
        let set = set_given(&mut self.registry, self.began, self.taken, name, rows);
        self.settle(set, out)
    }

    // Sets the content of a cell of a live query, in a line that was counted.
    fn resume_cell<O: Sink, L: Ledger>(
        &mut self,
        name: &Name,
        index: i64,
        content: i64,
        out: &mut O,
        steps: &mut Steps<L>,
    ) -> LineOutcome
        ensures reply { (s : State) → StandsFor self.old (one_line_more s) → Does result s (cell_request s name.now index content) self.new (O.seen out.old) (O.seen out.new) }
        ensures reads { steps.new.reads ≤ steps.old.reads + most_cells self.old.registry.live }
        ensures writes { steps.new.writes ≤ steps.old.writes + most_cells self.old.registry.live }
    {
        let set = set_cell(&mut self.registry, self.began, name, index, content, steps);
        self.settle(set, out)
    }

    // Puts a tuple among those that a live query has printed, in a line that was counted.
    fn resume_tuple<O: Sink>(&mut self, name: &Name, values: &Tuple, out: &mut O) -> LineOutcome
        ensures { (s : State) → StandsFor self.old (one_line_more s) → Does result s (tuple_request s name.now values.now.items) self.new (O.seen out.old) (O.seen out.new) }
    {
        let set = set_tuple(&mut self.registry, self.began, name, values);
        self.settle(set, out)
    }

    // Ends a line that was counted and that asked to set what a live query goes on from.
    fn settle<O: Sink>(&self, set: Result<(), Refusal>, out: &mut O) -> LineOutcome
        ensures { (s : State) → (request : Request) → IsSettled set s request self.now → Does result s request self.now (O.seen out.old) (O.seen out.new) }
    {
        match set {
            Ok(()) => LineOutcome::Done,
            Err(word) => self.refuse(word, out),
        }
    }

    // Creates a stream, in a line that was counted.
    fn create_stream<O: Sink>(
        &mut self,
        name: Name,
        columns: &[ColumnDef],
        out: &mut O,
    ) -> LineOutcome
        requires some { 0 < length columns.now }
        requires few { length columns.now ≤ 8 }
        requires domains { All (λ c. HasEnds c.domain) columns.now }
        ensures { (s : State) → StandsFor self.old (one_line_more s)
            → Does result s (stream_request name columns.now (added self.old.streams (record { name = name; columns = columns.now }))) self.new (O.seen out.old) (O.seen out.new) }
    {
        match self.catalog.add_stream(name, columns) {
            Ok(_number) => outcome_of(write_created(out, &name)),
            Err(error) => self.refuse(stream_refusal(error), out),
        }
    }

    // Decides on a query, with shared cells or without, in a line that was counted.
    fn create_query<O: Sink>(
        &mut self,
        name: Name,
        select: &SelectAst,
        shared: bool,
        out: &mut O,
    ) -> LineOutcome
        requires taken { IsTaken select.now }
        requires short { length (create_line (CreateQuery name select.now shared)) ≤ 1024 }
        ensures { (s : State) → StandsFor self.old (one_line_more s)
            → Does result s (query_request self.old.streams (names_in self.old.registry) name select.now shared) self.new (O.seen out.old) (O.seen out.new) }
    {
        match find_query(self.catalog.all(), &self.registry, &name, select) {
            Ok(query) => self.decide(name, query, shared, out),
            Err(word) => self.refuse(word, out),
        }
    }

    // Explains the live query of a name, in a line that was counted.
    fn explain<O: Sink>(&self, name: &Name, out: &mut O) -> LineOutcome
        ensures { (s : State) → StandsFor self.now (one_line_more s) → Does result s (explain_request (names_in self.now.registry) name.now) self.now (O.seen out.old) (O.seen out.new) }
    {
        match self.registry.find(name) {
            Some(place) => self.explain_at(place, name, out),
            None => self.refuse(Refusal::UnknownQuery, out),
        }
    }

    // Explains the live query at a place, which has this name.
    fn explain_at<O: Sink>(&self, place: usize, name: &Name, out: &mut O) -> LineOutcome
        requires found { position (λ l. bytes_eq l.name name.now) self.now.registry.live ≡ Some place }
        requires there { place < length self.now.registry.live }
        ensures { (s : State) → StandsFor self.now (one_line_more s) → Does result s (explained name.now) self.now (O.seen out.old) (O.seen out.new) }
    {
        let query = self.registry.query(place);
        let plan = self.registry.plan(place);
        outcome_of(explain(name, query, plan, self.catalog.all(), out))
    }

    // Drops the live query of a name, in a line that was counted.
    fn drop_query<O: Sink>(&mut self, name: &Name, out: &mut O) -> LineOutcome
        ensures { (s : State) → StandsFor self.old (one_line_more s) → Does result s (drop_request (names_in self.old.registry) name.now) self.new (O.seen out.old) (O.seen out.new) }
    {
        if !is_live(&self.registry, name) {
            return self.refuse(Refusal::UnknownQuery, out);
        }
        self.registry.drop_query(name);
        outcome_of(write_dropped(out, name))
    }

    // Decides on a query that no word refuses, with shared cells or without, in a line that was counted.
    fn decide<O: Sink>(
        &mut self,
        name: Name,
        query: Query,
        shared: bool,
        out: &mut O,
    ) -> LineOutcome
        requires named { HasNamed self.old.streams query }
        requires short { length (create_again self.old.streams name query shared) ≤ 1024 }
        requires room { length self.old.registry.live < 64 }
        requires new { list_any (λ l. bytes_eq l.name name) self.old.registry.live ≡ false }
        ensures { (s : State) → StandsFor self.old (one_line_more s) → Does result s (asked name query shared) self.new (O.seen out.old) (O.seen out.new) }
    {
        let from = streams_of(&query);
        match self.registry.create(name, query, shared) {
            Ok(Verdict::Filter) => outcome_of(write_filter(out, &name)),
            Ok(Verdict::Accepted(numbers)) => outcome_of(write_numbers(out, &name, numbers)),
            Err(CreateError::Memory) => LineOutcome::Memory,
            Err(CreateError::Pool { .. }) => outcome_of(write_no_pages(out, &name)),
            Err(CreateError::Limit { which, .. }) => outcome_of(write_limit(out, &name, which)),
            Err(
                CreateError::Violation {
                    part,
                    condition,
                    attr,
                },
            ) => {
                let column = column_named(attr, from.as_slice(), self.catalog.all());
                outcome_of(write_violation(out, &name, part, condition, &column))
            }
        }
    }
}
