//! The columns of a stream.
ghost use Rattle.std.specs.Prelude.{◌≡◌, ◌≤◌, ◌<◌, ◌+◌, ◌++◌, length, map, IfSome};
ghost use Rattle.std.specs.List.{All, list_all, list_any};
ghost use Rattle.std.specs.Str.{bytes_eq};
ghost use Rattle.sql_catalog.specs.Streams.{IsName, AreEnds, HasEnds, column_names, lie_within};
ghost use Rattle.sql_catalog.specs.Streams as streams;
ghost use Rattle.sql_catalog.specs.Ends.{ends_at, ends_from, greatest, is_between};
ghost use Rattle.sem_query.specs.Meaning.{by_column};

use crate::column::ColumnDef;
use arrayvec::ArrayVec;
use sql_text::Name;
use std::marker::Model;

/// The domain of a column, which is given by its place: the least value, and how far the greatest one is above it.
#[derive(Clone, Copy, Default)]
pub struct ColumnEnds {
    column: u8,
    lo: i64,
    width: u64,
}

/// The columns of a stream, at most 8, in order. The ends of their domains stand beside them, so that a row is asked only for the
/// columns that have one.
#[derive(Drop)]
pub struct Columns {
    columns: ArrayVec<ColumnDef, 8>,
    ends: ArrayVec<ColumnEnds, 8>,
}

impl Model for Columns {
    ghost use Rattle.std.specs.Prelude.{◌≡◌, List};
    ghost use Rattle.std.specs.List.{All};
    ghost use Rattle.sql_catalog.specs.declared.column.ColumnDef.{ColumnDef};
    ghost use Rattle.sql_catalog.specs.Streams.{HasEnds};
    ghost use Rattle.sql_catalog.specs.Ends.{ends_from};

    ghost Value = { List ColumnDef };

    ghost view = { λ c. c.columns.items };

    ghost invariant = { λ c. (c.ends.items ≡ ends_from 0 c.columns.items) × All (λ d. HasEnds d.domain) c.columns.items };
}

impl Columns {
    /// Keeps these columns, at most 8. Each domain has ends of at most 15 digits, the first at most the second.
    pub fn new(columns: &[ColumnDef]) -> Columns
        requires few { length columns.now ≤ 8 }
        requires domains { All (λ c. HasEnds c.domain) columns.now }
        ensures columns { result ≡ columns.now }
        ensures names { All (λ c. IsName c.name) columns.now }
    {
        Columns {
            columns: copied(columns),
            ends: ends_of(columns),
        }
    }

    /// Returns the columns.
    pub fn as_slice(&self) -> &[ColumnDef]
        ensures { result.now ≡ self.now }
    {
        self.columns.as_slice()
    }

    /// Returns whether each of as many values lies in the domain of its column.
    pub fn keep(&self, values: &[i64]) -> bool
        requires { length values.now ≡ length self.now }
        ensures { result ≡ lie_within self.now values.now }
    {
        are_between(self.ends.as_slice(), values)
    }
}

/// Returns the same name, with what holds of every name.
pub fn checked(name: &Name) -> Name
    ensures same { result ≡ name.now }
    ensures name { IsName name.now }
{
    // Read for the proof alone: the call tells what holds of every name.
    let _bytes = name.bytes();
    *name
}

// The same column, with what holds of every name.
fn checked_column(column: &ColumnDef) -> ColumnDef
    ensures same { result ≡ column.now }
    ensures name { IsName column.now.name }
{
    // Read for the proof alone: the call tells what holds of every name.
    let _name = checked(&column.name);
    *column
}

// The same columns, at most 8, with what holds of every name.
fn copied(columns: &[ColumnDef]) -> ArrayVec<ColumnDef, 8>
    requires { length columns.now ≤ 8 }
    ensures same { result.items ≡ columns.now }
    ensures names { All (λ c. IsName c.name) columns.now }
{
    let mut copies = ArrayVec::new();
    for column in columns {
        copies.push(checked_column(column));
    }
    copies
}

// Adds the ends of the domain of a column, where it has one.
fn put_ends(ends: &mut ArrayVec<ColumnEnds, 8>, column: u8, domain: Option<(i64, i64)>)
    requires { length ends.old.items < 8 }
    ensures items { ends.new.items ≡ ends.old.items ++ ends_at column domain }
    ensures short { length ends.new.items ≤ length ends.old.items + 1 }
{
    match domain {
        Some((lo, hi)) => ends.push(ColumnEnds {
            column,
            lo,
            width: hi.abs_diff(lo),
        }),
        None => {}
    }
}

// The ends of the domains of at most 8 columns.
fn ends_of(columns: &[ColumnDef]) -> ArrayVec<ColumnEnds, 8>
    requires { length columns.now ≤ 8 }
    ensures { result.items ≡ ends_from 0 columns.now }
{
    let mut ends = ArrayVec::new();
    for place in 0..columns.len() {
        put_ends(&mut ends, place as u8, columns[place].domain);
    }
    ends
}

// The value of a column.
fn value_at(values: &[i64], column: u8) -> i64
    requires { column < length values.now }
    ensures { result ≡ by_column values.now column }
{
    values[usize::from(column)]
}

// Whether the value of a column lies between its ends. One comparison tells both: without sign, the difference of a value below the
// least one is above each width.
fn is_within(values: &[i64], ends: &ColumnEnds) -> bool
    requires here { ends.now.column < length values.now }
    requires ends { AreEnds ends.now.lo (greatest ends.now) }
    ensures { result ≡ is_between values.now ends.now }
{
    let value = value_at(values, ends.column);
    value.wrapping_sub(ends.lo).cast_unsigned() <= ends.width
}

// Whether each value with ends lies between them.
fn are_between(ends: &[ColumnEnds], values: &[i64]) -> bool
    requires here { All (λ e. e.column < length values.now) ends.now }
    requires ends { All (λ e. AreEnds e.lo (greatest e)) ends.now }
    ensures { result ≡ list_all (is_between values.now) ends.now }
{
    for ends in ends {
        if !is_within(values, ends) {
            return false;
        }
    }
    true
}

// Whether the name is among these.
fn is_among(name: &Name, names: &[Name]) -> bool
    ensures { result ≡ list_any (bytes_eq name.now) names.now }
{
    names.iter().any(|other| *name == *other)
}

/// Returns whether all names differ.
pub fn all_differ(names: &[Name]) -> bool
    ensures { result ≡ streams.all_differ names.now }
{
    match names {
        [] => true,
        [first, others @ ..] => !is_among(first, others) && all_differ(others),
    }
}

// Whether the name is that of one of these columns.
fn is_column(name: &Name, columns: &[ColumnDef]) -> bool
    ensures { result ≡ list_any (λ c. bytes_eq name.now c.name) columns.now }
{
    columns.iter().any(|other| *name == other.name)
}

/// Returns whether the names of all columns differ.
pub fn columns_differ(columns: &[ColumnDef]) -> bool
    ensures { result ≡ streams.all_differ (column_names columns.now) }
{
    match columns {
        [] => true,
        [first, others @ ..] => !is_column(&first.name, others) && columns_differ(others),
    }
}

/// Returns the place of the column of this name.
pub fn place_of_column(columns: &[ColumnDef], name: &Name) -> Option<usize>
    ensures place { result ≡ streams.column_place columns.now name.now }
    ensures inside { IfSome result (λ place. place < length columns.now) }
{
    columns.iter().position(|c| c.name == *name)
}
