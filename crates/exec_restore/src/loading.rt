//! What a checkpoint tells of a live query, one number at a time: what a cell keeps, and which tuples were printed.
ghost use Rattle.std.specs.Prelude.{◌≡◌, ◌<◌, ◌≤◌, ◌+◌, ◌*◌, ◌&&◌, ℤ, pos, true, not, length, map, nat_abs, int_le, option_and_then, slice_index_or, slice_set, if◌then◌else◌, Option, Some, None, IfSome};
ghost use Rattle.std.specs.List.{flat_map, list_any};
ghost use Rattle.sem_query.specs.declared.cell.Cell.TheVariants.{Empty as empty};
ghost use Rattle.sem_query.specs.Query.{QueryValue};
ghost use Rattle.sem_query.specs.Parts.{pairs};
ghost use Rattle.sem_query.specs.Tuples.{is_same};
ghost use Rattle.sem_query.specs.Ranges.{range_of, at_column, all_tuples};
ghost use Rattle.sem_query.specs.Numbers.{parts_of};
ghost use Rattle.sem_query.specs.Sharing.{kept_boxes, sizes_in};
ghost use Rattle.exec_pool.specs.Extents.{cells_of, with_cells, IsLive};
ghost use Rattle.exec_answer_table.specs.Entries.{with_entries, added, settled, tuples_of, Fits};
ghost use Rattle.exec_synopsis.specs.Preparing.{IsPrepared};
ghost use Rattle.exec_restore.specs.Loadable.{IsBasedPlan, is_empty, kind_at, filled_cell, has_cell, kind_in, are_inside};
ghost use Rattle.exec_part_index.specs.Prepared.{IsPreparedPlan};

use crate::ranges::{different, put_values, range};
use exec_answer_table::Answers;
use exec_part_index::PreparedPlan;
use exec_pool::{Extent, Pool, Steps};
use exec_synopsis::Prepared;
use sem_query::{Attr, Cell, Dim, Kind, PartPlan, PartPlans, Plan, Query, StreamPlan, Tuple};
use std::sync::ledger::Ledger;

// Whether the box of a stream has the cell of a number.
fn has_cell(i: u32, stream: &StreamPlan) -> bool
    ensures { result ≡ has_cell i stream.now }
{
    stream.base <= i && i - stream.base < stream.size
}

// The kind of the first of these boxes that has the cell of a number.
fn kind_in(streams: &[StreamPlan], i: u32) -> Option<Kind>
    ensures { result ≡ kind_in streams.now i }
{
    match streams {
        [] => None,
        [stream, others @ ..] => {
            if has_cell(i, stream) {
                Some(stream.kind)
            } else {
                kind_in(others, i)
            }
        }
    }
}

// The same over the boxes of all parts.
fn kind_among(parts: &PartPlans, i: u32) -> Option<Kind>
    ensures { result ≡ kind_in (flat_map (λ part. part.streams.items) parts.now) i }
{
    'parts: for k in 0..parts.len() {
        match kind_in(parts.get(k).streams.as_slice(), i) {
            Some(kind) => return Some(kind),
            None => {}
        }
    }
    None
}

// The kind of the cell of a number, where the query keeps that cell. The boxes that have a cell are the same, so the first of them tells it.
fn kind_of(q: &Query, shared: bool, plan: &Plan, i: u32) -> Option<Kind>
    requires { IsBasedPlan shared q.now plan.now }
    ensures { result ≡ kind_at (kept_boxes shared q.now (parts_of plan.now)) i }
{
    // Named for the proof alone: the contract speaks of them.
    let (_query, _shared) = (q.distinct(), shared);
    match plan {
        Plan::Filter => None,
        Plan::Parts { parts, .. } => kind_among(parts, i),
    }
}

// A count of this many rows, where it is 1 at least and no more were given.
fn count_of(given: u64, v: i64) -> Option<u64>
    ensures { result ≡ (if int_le (pos 1) v && int_le v (pos given) then Some (nat_abs v) else None) }
{
    if v < 1 {
        return None;
    }
    let rows = v as u64;
    if rows <= given { Some(rows) } else { None }
}

// The cell of this content, by its kind.
fn filled_cell(given: u64, kind: Kind, v: i64) -> Option<Cell>
    ensures { result ≡ filled_cell given kind v }
{
    match kind {
        Kind::Count => match count_of(given, v) {
            Some(rows) => Some(Cell::Count(rows)),
            None => None,
        },
        Kind::Present => { if v == 1 { Some(Cell::Present) } else { None } }
        Kind::Least(_) => Some(Cell::Extreme(v)),
        Kind::Greatest(_) => Some(Cell::Extreme(v)),
    }
}

/// Returns what the cell of a number comes to by its content, where the query keeps that cell and the content fits its kind.
pub fn cell_to_load(
    q: &Query,
    shared: bool,
    plan: &Plan,
    given: u64,
    i: u32,
    v: i64,
) -> Option<Cell>
    requires { IsBasedPlan shared q.now plan.now }
    ensures { result ≡ option_and_then (λ kind. filled_cell given kind v) (kind_at (kept_boxes shared q.now (parts_of plan.now)) i) }
{
    match kind_of(q, shared, plan, i) {
        Some(kind) => filled_cell(given, kind, v),
        None => None,
    }
}

// Whether no row is in a cell.
fn is_empty(cell: Cell) -> bool
    ensures { result ≡ is_empty cell }
{
    match cell {
        Cell::Empty => true,
        Cell::Count(_) => false,
        Cell::Present => false,
        Cell::Extreme(_) => false,
    }
}

/// Puts a cell in the place of an empty one. Returns false, and changes nothing, where the cell of this number is not empty. This is one
/// read and at most one write.
pub fn fill<L: Ledger>(
    pool: &mut Pool,
    e: &Extent,
    i: u32,
    cell: Cell,
    steps: &mut Steps<L>,
) -> bool
    requires live { IsLive pool.old e.now }
    requires within { i < 64 * e.now.pages }
    ensures value { result ≡ is_empty (slice_index_or (cells_of pool.old e.now) i empty) }
    ensures pool { pool.new ≡ (if result then with_cells pool.old e.now (slice_set (cells_of pool.old e.now) i cell) else pool.old) }
    ensures reads { steps.new.reads ≡ steps.old.reads + 1 }
    ensures writes { steps.new.writes ≤ steps.old.writes + 1 }
{
    if !is_empty(pool.read(e, i, steps)) {
        return false;
    }
    pool.write(e, i, cell, steps);
    true
}

// Whether a value lies in the range of a dim.
fn is_between(dim: Dim, x: &i64) -> bool
    ensures { result ≡ (int_le dim.lo x.now && int_le x.now dim.hi) }
{
    dim.lo <= *x && *x <= dim.hi
}

// Whether the values of some columns lie in the ranges of these columns in a part.
fn lie_inside(
    q: &Query,
    part: &PartPlan,
    prepared: &Prepared,
    columns: &[Attr],
    values: &[i64],
) -> bool
    requires { IsPrepared (pairs q.now) part.now prepared.now }
    ensures { result ≡ are_inside (map (range_of q.now part.now) columns.now) values.now }
{
    match columns {
        [] => values.is_empty(),
        [a, others @ ..] => match values {
            [] => false,
            [x, later @ ..] => {
                is_between(range(q, part, prepared, *a), x)
                    && lie_inside(q, part, prepared, others, later)
            }
        },
    }
}

// Whether they do in some part.
fn lie_somewhere(
    q: &Query,
    parts: &PartPlans,
    prepared: &PreparedPlan,
    columns: &[Attr],
    values: &[i64],
) -> bool
    requires { IsPreparedPlan q.now parts.now prepared.now }
    ensures { result ≡ list_any (λ part. are_inside (map (range_of q.now part) columns.now) values.now) parts.now }
{
    'parts: for k in 0..parts.len() {
        let part = parts.get(k);
        if lie_inside(q, part, prepared.part(q, parts, k), columns, values) {
            return true;
        }
    }
    false
}

// Whether two tuples are the same.
fn is_same(t: &Tuple, other: &Tuple) -> bool
    ensures { result ≡ is_same t.now.items other.now.items }
{
    t.as_slice() == other.as_slice()
}

// Whether a tuple is that of the selected columns where these columns have these values.
fn is_spelled(q: &Query, columns: &[Attr], values: &[i64], t: &Tuple) -> bool
    ensures { result ≡ is_same t.now.items (map (at_column columns.now values.now) q.now.select) }
{
    let mut spelled = Tuple::new();
    put_values(columns, values, q.select(), &mut spelled);
    is_same(t, &spelled)
}

// Whether a tuple lies in the ranges of some part.
fn is_among(q: &Query, parts: &PartPlans, prepared: &PreparedPlan, t: &Tuple) -> bool
    requires { IsPreparedPlan q.now parts.now prepared.now }
    ensures { result ≡ list_any (is_same t.now.items) (all_tuples q.now parts.now) }
{
    let listed = different(q.select());
    let columns = listed.as_slice();
    let mut tuple = Tuple::new();
    put_values(q.select(), t.as_slice(), columns, &mut tuple);
    let values = tuple.as_slice();
    if !is_spelled(q, columns, values, t) {
        return false;
    }
    lie_somewhere(q, parts, prepared, columns, values)
}

// Whether a tuple lies in the ranges of some part of a plan; a filter has no parts.
fn is_in_plan(q: &Query, plan: &Plan, prepared: &PreparedPlan, t: &Tuple) -> bool
    requires { IsPreparedPlan q.now (parts_of plan.now) prepared.now }
    ensures { result ≡ list_any (is_same t.now.items) (all_tuples q.now (parts_of plan.now)) }
{
    match plan {
        Plan::Filter => false,
        Plan::Parts { parts, .. } => is_among(q, parts, prepared, t),
    }
}

// Gives a tuple an entry where it has none, and then nothing waits. Where it has one, nothing changes.
fn add_settled(t: &Tuple, table: &mut Answers) -> bool
    requires width { length t.now.items ≡ table.old.width }
    requires room { Fits t.now.items table.old }
    ensures value { result ≡ not (list_any (is_same t.now.items) (tuples_of table.old.entries)) }
    ensures table { table.new ≡ (if result then with_entries table.old (settled (added t.now.items 1 table.old.entries)) else table.old) }
{
    let fresh = table.add_new(t);
    if fresh {
        table.settle();
    }
    fresh
}

/// Puts a tuple into the table with DISTINCT, where it lies in the ranges of some part and is not there; then nothing waits. Returns whether
/// it did, and changes nothing where it did not.
pub fn put_printed(
    q: &Query,
    plan: &Plan,
    prepared: &PreparedPlan,
    t: &Tuple,
    table: &mut Answers,
) -> bool
    requires prepared { IsPreparedPlan q.now (parts_of plan.now) prepared.now }
    requires width { length t.now.items ≡ table.old.width }
    requires room { q.now.distinct ≡ true → list_any (is_same t.now.items) (all_tuples q.now (parts_of plan.now)) ≡ true → Fits t.now.items table.old }
    ensures value { result ≡ (q.now.distinct && (list_any (is_same t.now.items) (all_tuples q.now (parts_of plan.now)) && not (list_any (is_same t.now.items) (tuples_of table.old.entries)))) }
    ensures table { table.new ≡ (if result then with_entries table.old (settled (added t.now.items 1 table.old.entries)) else table.old) }
{
    if !q.distinct() {
        return false;
    }
    if !is_in_plan(q, plan, prepared, t) {
        return false;
    }
    add_settled(t, table)
}
