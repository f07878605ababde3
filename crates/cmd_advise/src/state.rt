//! What the lines of a script have made.
ghost use Rattle.std.specs.Prelude.{◌≡◌, ◌+◌, ◌<◌, ◌≤◌, ◌-◌, ◌^◌, if◌then◌else◌, nat_eq, IfOk, OnOk, length, sum};
ghost use Rattle.std.specs.List.{All, position};
ghost use Rattle.std.specs.Str.{bytes_eq};
ghost use Rattle.io_streams.specs.Sink.{Writes};
ghost use Rattle.sem_query.specs.Numbers.{page_count};
ghost use Rattle.sql_catalog.specs.Streams.{HasEnds};
ghost use Rattle.cmd_advise.specs.State as state;
ghost use Rattle.cmd_advise.specs.State.{empty, free_pages, status_for, one_line_more, one_fault_more, one_stream_more, one_query_less, one_query_more};
ghost use Rattle.cmd_advise.specs.Summary.{summary_text};

use adv_diagnosis::Known;
use adv_mends::Judgement;
use adv_templates::{Filling, Written, write_filled};
use arrayvec::ArrayVec;
use io_streams::{Sink, Status};
use sql_catalog::{Catalog, ColumnDef};
use sql_text::Name;
use std::alloc::{AllocError, Global};
use std::marker::Model;

/// The pages of the pool.
const PAGES: u32 = 16_384;

/// The line of what all lines came to.
const SUMMARY: &[u8] = b"_ _ read, _ _ accepted (_ of 16384 pages), _ refused, _ _ at fault\n";

/// A lock.
#[derive(Drop)]
pub struct StandingLock {
    /// The number of the line that set it, from 1.
    pub line: u64,
    /// The integer of the UNLOCK that opens it; without one nothing does.
    pub key: Option<i64>,
    /// The streams whose rows it lets; where there are none, those of all streams.
    pub streams: ArrayVec<Name, 16>,
}

/// The streams, the live queries and the lock that the lines so far have made, and how many lines came to what.
#[derive(Drop)]
pub struct Advising {
    catalog: Catalog,
    live: Vec<Name>,
    // The pages of each live query, and of all of them.
    pages: Vec<u32>,
    taken: u32,
    lines: u64,
    accepted: u64,
    refused: u64,
    at_fault: u64,
    rows: u64,
    lock: Option<StandingLock>,
}

impl Model for Advising {
    ghost use Rattle.std.specs.Prelude.{◌≡◌, ◌≤◌, ◌+◌, length, sum};
    ghost use Rattle.cmd_advise.specs.State.{State};

    ghost Value = { State };

    ghost view = { λ a. record { streams = a.catalog; live = a.live.items; pages = a.pages.items; lines = a.lines; accepted = a.accepted; refused = a.refused; at_fault = a.at_fault; rows = a.rows; lock = a.lock } };

    ghost invariant = { λ a. (length a.live.items ≡ length a.pages.items) × (a.taken ≡ sum a.pages.items) × (a.taken ≤ 16384) × (a.accepted + a.refused + a.at_fault ≤ a.lines) × (a.rows ≤ a.at_fault) };
}

// The place of the first name that is this one.
fn place_of(live: &[Name], name: &Name) -> Option<usize>
    ensures { result ≡ position (λ other. bytes_eq other name.now) live.now }
{
    live.iter().position(|other| *other == *name)
}

// The word for one, or that for any other number.
fn word_for(count: u64, one: &'static [u8], more: &'static [u8]) -> &'static [u8]
    ensures { result.now ≡ (if nat_eq count 1 then one.now else more.now) }
{
    if count == 1 { one } else { more }
}

/// Returns how many pages so many cells take.
pub fn page_count(cells: u32) -> u32
    ensures { result ≡ page_count cells }
{
    cells.div_ceil(64)
}

// The pages of a query that comes to this: a filter has none.
fn pages_for(judgement: Judgement) -> u32
    ensures { result ≡ state.pages_for judgement }
{
    match judgement {
        Judgement::Accepted(numbers) => page_count(numbers.cells),
        _ => 0,
    }
}

// Whether a query that comes to this is accepted where so many pages are free.
fn is_accepted(free: u32, judgement: Judgement) -> bool
    ensures { result ≡ state.is_accepted free judgement }
{
    match judgement {
        Judgement::Filter => true,
        Judgement::Accepted(numbers) => free >= page_count(numbers.cells),
        _ => false,
    }
}

impl Advising {
    /// Returns what no line has made.
    pub fn new(alloc: Global) -> Result<Advising, AllocError>
        ensures { IfOk result (λ a. a ≡ empty) }
    {
        Ok(Advising {
            catalog: Catalog::new(alloc)?,
            live: Vec::new(alloc),
            pages: Vec::new(alloc),
            taken: 0,
            lines: 0,
            accepted: 0,
            refused: 0,
            at_fault: 0,
            rows: 0,
            lock: None,
        })
    }

    /// Returns the streams, and the names of the live queries.
    pub fn known(&self) -> Known<'_>
        ensures streams { result.catalog.now ≡ self.now.streams }
        ensures live { result.live.now ≡ self.now.live }
    {
        Known {
            catalog: &self.catalog,
            live: self.live.as_slice(),
        }
    }

    /// Returns how many lines were read.
    pub fn lines(&self) -> u64
        ensures { result ≡ self.now.lines }
    {
        self.lines
    }

    /// Returns how many rows are at fault.
    pub fn rows(&self) -> u64
        ensures { result ≡ self.now.rows }
    {
        self.rows
    }

    /// Returns the lock that stands, if one does.
    pub fn lock(&self) -> &Option<StandingLock>
        ensures { result.now ≡ self.now.lock }
    {
        &self.lock
    }

    /// Returns how many pages are free.
    pub fn free(&self) -> u32
        ensures value { result ≡ free_pages self.now }
        ensures few { result ≤ 16384 }
    {
        PAGES - self.taken
    }

    /// Returns the status behind all lines.
    pub fn status(&self) -> Status
        ensures { result ≡ status_for self.now }
    {
        if self.refused == 0 && self.at_fault == 0 {
            Status::Done
        } else {
            Status::Invalid
        }
    }

    /// Counts a line.
    pub fn count_line(&mut self)
        requires { self.old.lines < 2 ^ 64 - 1 }
        ensures { self.new ≡ one_line_more self.old }
    {
        self.lines += 1;
    }

    /// Lets this lock stand, or none, and counts the line.
    pub fn set_lock(&mut self, lock: Option<StandingLock>)
        requires { self.old.lines < 2 ^ 64 - 1 }
        ensures { self.new ≡ record self.old { lines = self.old.lines + 1; lock = lock } }
    {
        self.lock = lock;
        self.lines += 1;
    }

    /// Counts a line that is at fault, and may be a row.
    pub fn count_fault(&mut self, row: bool)
        requires { self.old.lines < 2 ^ 64 - 1 }
        ensures { self.new ≡ one_fault_more self.old row }
    {
        self.lines += 1;
        self.at_fault += 1;
        if row {
            self.rows += 1;
        }
    }

    /// Adds a stream with 1 to 8 columns behind the others, where it can be added, and counts its line.
    pub fn add_stream(&mut self, name: Name, columns: &[ColumnDef])
        requires lines { self.old.lines < 2 ^ 64 - 1 }
        requires some { 0 < length columns.now }
        requires few { length columns.now ≤ 8 }
        requires domains { All (λ c. HasEnds c.domain) columns.now }
        ensures { self.new ≡ one_stream_more self.old (record { name = name; columns = columns.now }) }
    {
        // Where it cannot be added the catalog stays as it is, which is what the state says too.
        let _number = self.catalog.add_stream(name, columns);
        self.lines += 1;
    }

    /// Takes a query that comes to this among the live ones, behind the others, where it is accepted, and counts its line.
    pub fn add_query(&mut self, name: Name, judgement: Judgement) -> Result<(), AllocError>
        requires { self.old.lines < 2 ^ 64 - 1 }
        ensures { OnOk result (self.new ≡ one_query_more self.old name judgement) }
    {
        if !is_accepted(self.free(), judgement) {
            self.lines += 1;
            self.refused += 1;
            return Ok(());
        }
        let pages = pages_for(judgement);
        if self.live.push(name).is_err() {
            return Err(AllocError);
        }
        if self.pages.push(pages).is_err() {
            // The two lists stay as long as each other.
            self.live.pop();
            return Err(AllocError);
        }
        self.taken += pages;
        self.lines += 1;
        self.accepted += 1;
        Ok(())
    }

    /// Takes the first live query of a name out of the live ones, where there is one, and counts the line.
    pub fn drop_query(&mut self, name: &Name)
        requires { self.old.lines < 2 ^ 64 - 1 }
        ensures { self.new ≡ one_query_less self.old name.now }
    {
        if let Some(place) = place_of(self.live.as_slice(), name) {
            self.live.remove(place);
            self.taken -= self.pages.remove(place);
        }
        self.lines += 1;
    }

    /// Writes what all lines came to, in one line: how many were read, how many queries were accepted and what pages they take, how many were refused, and
    /// how many lines are at fault.
    #[tactic(auto, unfolding(crate::specs::Summary::summary_text))]
    pub fn write_summary<O: Sink>(&self, out: &mut O) -> Written
        ensures { Writes result (O.seen out.old) (O.seen out.new) (summary_text self.now) }
    {
        let fillings = [
            Filling::Number(self.lines),
            Filling::Fixed(word_for(self.lines, b"line", b"lines")),
            Filling::Number(self.accepted),
            Filling::Fixed(word_for(self.accepted, b"query", b"queries")),
            Filling::Count(PAGES - self.free()),
            Filling::Number(self.refused),
            Filling::Number(self.at_fault),
            Filling::Fixed(word_for(self.at_fault, b"line", b"lines")),
        ];
        write_filled(out, SUMMARY, &fillings)
    }
}
