//! Rows over two streams of which their own columns tell the one cell that can answer: one look-up tells all.
ghost use Rattle.std.specs.Prelude.{◌≡◌, ◌+◌, ◌*◌, ◌<◌, ◌≤◌, length, true, []};
ghost use Rattle.sem_query.specs.Combinations.{read_from};
ghost use Rattle.sem_query.specs.Meaning.{by_column};
ghost use Rattle.sem_query.specs.Numbers.{share};
ghost use Rattle.sem_query.specs.Parts.{pairs};
ghost use Rattle.sem_query.specs.Probing.{found_beside};
ghost use Rattle.exec_pool.specs.Extents.{cells_of};
ghost use Rattle.exec_synopsis.specs.Premises.{IsReady};
ghost use Rattle.exec_synopsis.specs.Preparing.{IsPrepared};
ghost use Rattle.exec_join.specs.Joining.{is_some, value_of, are_told, told_values, Tells};
ghost use Rattle.exec_join.specs.declared.join.FirstLook.TheVariants as look;

use exec_pool::{Extent, Pool, Steps};
use exec_ranges::{RowAt, is_empty, rows_in};
use exec_synopsis::JoinLookup;
use sem_query::{Attr, Tuple, value_at};
use std::sync::ledger::Ledger;

/// What one look-up tells of the answers to a row: there is none, there is one tuple so many times, or a walk must tell.
#[derive(Clone, Copy, Debug, PartialEq, Eq)]
pub enum FirstLook {
    Nothing,
    One(u64),
    Unknown,
}

// The value of a column in a row, where one is told.
fn value_of(row: &[i64], column: Option<u8>) -> i64
    ensures { result ≡ value_of row.now column }
{
    match column {
        Some(column) => value_at(row, column),
        None => 0,
    }
}

// Whether a column of the row is told for each of these columns.
fn are_told(listed: &JoinLookup, arriving: u8, select: &[Attr]) -> bool
    ensures { result ≡ are_told listed.now arriving select.now }
{
    select
        .iter()
        .all(|a| listed.column_of(arriving, *a).is_some())
}

// Puts the values of the selected columns into a tuple, by the columns of the row that are told for them.
fn put_values(listed: &JoinLookup, arriving: u8, row: &[i64], select: &[Attr], tuple: &mut Tuple)
    requires { length select.now ≤ 8 }
    ensures { tuple.new.items ≡ told_values listed.now arriving row.now select.now }
{
    *tuple = Tuple::new();
    'selected: for a in select {
        tuple.push(value_of(row, listed.column_of(arriving, *a)));
    }
}

/// Returns what one look-up tells of the answers to a row, and puts the tuple where there is one. Where nothing is told no cell is read, else
/// this is at most one read. Most cells are empty, and then no tuple is put.
#[inline(always)]
pub fn first_look<L: Ledger>(
    pool: &Pool,
    e: &Extent,
    at: &RowAt<'_>,
    tuple: &mut Tuple,
    steps: &mut Steps<L>,
) -> FirstLook
    requires here { at.now.arriving < length at.now.q.now.from }
    requires ready { IsReady at.now.q.now at.now.part.now pool.now e.now }
    requires prepared { IsPrepared (pairs at.now.q.now) at.now.part.now at.now.prepared.now }
    ensures found { Tells result tuple.new.items (found_beside at.now.q.now at.now.part.now (read_from (cells_of pool.now e.now)) at.now.arriving (by_column at.now.row.now.items)) }
    ensures unknown { result ≡ look.Unknown → steps.new ≡ steps.old }
    ensures reads { steps.new.reads ≤ steps.old.reads + share at.now.part.now }
    ensures writes { steps.new.writes ≡ steps.old.writes }
{
    let Some(listed) = at.prepared.join_lookup(at.arriving) else {
        return FirstLook::Unknown;
    };
    let select = at.q.select();
    if !are_told(listed, at.arriving, select) {
        return FirstLook::Unknown;
    }
    let row = at.row.as_slice();
    let Some(number) = listed.cell_of(row) else {
        return FirstLook::Nothing;
    };
    let cell = pool.read(e, number, steps);
    if is_empty(cell) {
        FirstLook::Nothing
    } else {
        put_values(listed, at.arriving, row, select, tuple);
        FirstLook::One(rows_in(cell))
    }
}
