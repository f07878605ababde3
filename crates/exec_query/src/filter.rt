//! What a filter answers to a row, by that row alone.
ghost use Rattle.std.specs.Prelude.{◌≡◌, ◌&&◌, ◌==◌, [], ◌∷◌, ◌<◌, length, map, slice_index_or, if◌then◌else◌};
ghost use Rattle.sem_query.specs.Assignment.{holds};
ghost use Rattle.sem_query.specs.Meaning.{assignment_of, by_column};
ghost use Rattle.exec_filter.specs.PlainFilter.{plain_filter_meets};
ghost use Rattle.exec_answer_table.specs.Entries.{entry_of, with_entries};
ghost use Rattle.exec_query.specs.Executor.{arrival};
ghost use Rattle.exec_query.specs.FoundTable.{with_all, HaveRoom};
ghost use Rattle.exec_query.specs.CellSteps.{own_found};

use crate::executor::clear;
use crate::part::record_found;
use exec_answer_table::Answers;
use exec_filter::{PlainFilter, Prefilter, filter_all_meet, filter_project, stream_of};
use sem_query::{Query, Row, Tuple};

// Whether a row is of the first stream of FROM, and the condition holds of it.
fn is_answered(q: &Query, stream: u8, row: &Row) -> bool
    ensures { result ≡ ((stream == slice_index_or q.now.from 0 0) && holds q.now (assignment_of (row.now.items ∷ []))) }
{
    stream == stream_of(q.from(), 0) && filter_all_meet(row.as_slice(), q.atoms())
}

// Leaves in a table what a filter without DISTINCT answers to a row, and returns whether it answers it.
#[inline(always)]
fn put_answer(
    prefilter: &Prefilter,
    plain_filter: &PlainFilter,
    stream: u8,
    row: &Row,
    table: &mut Answers,
) -> bool
    requires width { length plain_filter.now.selected.items ≡ table.old.width }
    requires room { 0 < table.old.capacity }
    requires single { prefilter.now.others.items ≡ [] }
    ensures meets { result ≡ plain_filter_meets prefilter.now plain_filter.now (arrival stream row.now.items) }
    ensures table { table.new ≡ with_entries table.old (if result then entry_of (map (by_column row.now.items) plain_filter.now.selected.items) 1 ∷ [] else []) }
{
    // Most often nothing is asked of rows that pass, and this is seen at less cost than asking has.
    let (asked, values) = (plain_filter.unimplied.as_slice(), row.as_slice());
    if prefilter.passes_alone(stream, row) && (asked.is_empty() || filter_all_meet(values, asked)) {
        table.set_only(plain_filter.selected.as_slice(), values);
        return true;
    }
    clear(false, table);
    false
}

// The same. It is not inlined, so that rows of joins pay nothing for it.
#[inline(never)]
fn put_answer_apart(
    prefilter: &Prefilter,
    plain_filter: &PlainFilter,
    stream: u8,
    row: &Row,
    table: &mut Answers,
) -> bool
    requires width { length plain_filter.now.selected.items ≡ table.old.width }
    requires room { 0 < table.old.capacity }
    requires single { prefilter.now.others.items ≡ [] }
    ensures meets { result ≡ plain_filter_meets prefilter.now plain_filter.now (arrival stream row.now.items) }
    ensures table { table.new ≡ with_entries table.old (if result then entry_of (map (by_column row.now.items) plain_filter.now.selected.items) 1 ∷ [] else []) }
{
    put_answer(prefilter, plain_filter, stream, row, table)
}

/// Leaves in a table what a filter without DISTINCT answers to a row, and returns whether it answers it. Whether the row concerns no other
/// query decides on the time alone.
#[inline(always)]
pub fn plain_filter_row(
    is_alone: bool,
    prefilter: &Prefilter,
    plain_filter: &PlainFilter,
    stream: u8,
    row: &Row,
    table: &mut Answers,
) -> bool
    requires width { length plain_filter.now.selected.items ≡ table.old.width }
    requires room { 0 < table.old.capacity }
    requires single { prefilter.now.others.items ≡ [] }
    ensures meets { result ≡ plain_filter_meets prefilter.now plain_filter.now (arrival stream row.now.items) }
    ensures table { table.new ≡ with_entries table.old (if result then entry_of (map (by_column row.now.items) plain_filter.now.selected.items) 1 ∷ [] else []) }
{
    if is_alone {
        return put_answer_apart(prefilter, plain_filter, stream, row, table);
    }
    put_answer(prefilter, plain_filter, stream, row, table)
}

/// Takes up what a filter answers to a row. It is not inlined, so that rows of joins pay nothing for it.
#[inline(never)]
pub fn filter_row(q: &Query, stream: u8, row: &Row, tuple: &mut Tuple, table: &mut Answers)
    requires { HaveRoom q.now.distinct (own_found q.now (arrival stream row.now.items)) table.old }
    ensures { table.new ≡ with_entries table.old (with_all q.now.distinct (own_found q.now (arrival stream row.now.items)) table.old.entries) }
{
    if !is_answered(q, stream, row) {
        return;
    }
    filter_project(row, q.select(), tuple);
    record_found(q.distinct(), tuple, 1, table);
}
