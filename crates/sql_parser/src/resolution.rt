//! The names of a query, looked up in a catalog.
ghost use Rattle.std.specs.Prelude.{◌≡◌, ◌≤◌, ◌<◌, ◌+◌, ◌++◌, length, map, is_some, IfOk, IfSome};
ghost use Rattle.std.specs.List.{list_all};
ghost use Rattle.sem_query.specs.Query.{IsWithinLimits};
ghost use Rattle.sql_catalog.specs.Streams.{stream_number};
ghost use Rattle.sql_parser.specs.Resolution as names;
ghost use Rattle.sql_parser.specs.Resolution.{IsTaken, HasNamed, resolved};

use crate::domains::{domains_for, named_attrs};
use crate::limits::columns_named;
use crate::tree::{AtomAst, ColumnAst, OperandAst, SelectAst};
use arrayvec::ArrayVec;
use sem_query::{Atom, Attr, Element, Query};
use sql_catalog::{Catalog, all_differ};
use sql_text::Name;
use thiserror::Error;

/// Why the names of a query stand for no query. Where several apply, it is the first of these.
#[derive(Clone, Copy, Debug, PartialEq, Eq, Error)]
pub enum ResolveError {
    /// A name in FROM is no stream, or the stream of a column is not in FROM.
    #[error("there is no stream of this name")]
    UnknownStream,
    /// A column is none of its stream.
    #[error("there is no column of this name")]
    UnknownColumn,
    /// FROM names a stream twice.
    #[error("a stream is joined with itself")]
    SelfJoin,
}

// The place of FROM at which the stream of a column stands.
fn place_in(from: &[Name], column: &ColumnAst) -> Option<usize>
    ensures place { result ≡ names.place_in from.now column.now }
    ensures inside { IfSome result (λ place. place < length from.now) }
{
    from.iter().position(|name| *name == column.stream)
}

// The place of a column in its stream, where both are there.
fn place_under(column: &ColumnAst, catalog: &Catalog) -> Option<u8>
    ensures { result ≡ names.place_under catalog.now column.now }
{
    let stream = catalog.find(&column.stream)?;
    catalog.column(stream, &column.column)
}

// Whether each name is that of a stream.
fn are_streams(streams: &[Name], catalog: &Catalog) -> bool
    ensures { result ≡ list_all (λ name. is_some (stream_number catalog.now name)) streams.now }
{
    streams.iter().all(|name| catalog.find(name).is_some())
}

// Whether the stream of each column is in FROM.
fn are_from(columns: &[ColumnAst], from: &[Name]) -> bool
    ensures { result ≡ list_all (λ c. is_some (names.place_in from.now c)) columns.now }
{
    columns
        .iter()
        .all(|column| place_in(from, column).is_some())
}

// Whether each column is one of its stream.
fn are_columns(columns: &[ColumnAst], catalog: &Catalog) -> bool
    ensures { result ≡ list_all (λ c. is_some (names.place_under catalog.now c)) columns.now }
{
    columns
        .iter()
        .all(|column| place_under(column, catalog).is_some())
}

// Adds columns.
fn put_columns(columns: &mut ArrayVec<ColumnAst, 40>, more: &[ColumnAst])
    requires { length columns.old.items + length more.now ≤ 40 }
    ensures { columns.new.items ≡ columns.old.items ++ more.now }
{
    for column in more {
        columns.push(*column);
    }
}

// The columns that are named: those that are selected, and those of the atoms.
fn named_columns(select: &SelectAst) -> ArrayVec<ColumnAst, 40>
    ensures { result.items ≡ names.named_columns select.now }
{
    let mut columns = ArrayVec::new();
    put_columns(&mut columns, select.select.as_slice());
    put_columns(
        &mut columns,
        columns_named(select.atoms.as_slice()).as_slice(),
    );
    columns
}

// Whether each name in FROM is a stream, and each column's stream is in FROM.
fn has_streams(select: &SelectAst, catalog: &Catalog) -> bool
    ensures { result ≡ names.has_streams catalog.now select.now }
{
    let from = select.from.as_slice();
    are_streams(from, catalog) && are_from(named_columns(select).as_slice(), from)
}

// Whether each column is one of its stream.
fn has_columns(select: &SelectAst, catalog: &Catalog) -> bool
    ensures { result ≡ names.has_columns catalog.now select.now }
{
    are_columns(named_columns(select).as_slice(), catalog)
}

// The number of the stream of this name, 0 where there is none.
fn number_for(name: &Name, catalog: &Catalog) -> u8
    ensures { result ≡ names.number_for catalog.now name.now }
{
    catalog.find(name).unwrap_or(0)
}

// The numbers of the streams of these names.
fn numbers_for(from: &[Name], catalog: &Catalog) -> ArrayVec<u8, 4>
    requires { length from.now ≤ 4 }
    ensures { result.items ≡ map (names.number_for catalog.now) from.now }
{
    let mut numbers = ArrayVec::new();
    for name in from {
        numbers.push(number_for(name, catalog));
    }
    numbers
}

// A column by its places, each 0 where it has none.
fn attr_for(column: &ColumnAst, from: &[Name], catalog: &Catalog) -> Attr
    requires { length from.now ≤ 4 }
    ensures { result ≡ names.attr_for catalog.now from.now column.now }
{
    Attr {
        stream: place_in(from, column).unwrap_or(0) as u8,
        column: place_under(column, catalog).unwrap_or(0),
    }
}

// Columns by their places.
fn attrs_for(columns: &[ColumnAst], from: &[Name], catalog: &Catalog) -> ArrayVec<Attr, 8>
    requires from { length from.now ≤ 4 }
    requires columns { length columns.now ≤ 8 }
    ensures { result.items ≡ map (names.attr_for catalog.now from.now) columns.now }
{
    let mut attrs = ArrayVec::new();
    for column in columns {
        attrs.push(attr_for(column, from, catalog));
    }
    attrs
}

// A side of a comparison.
fn element_for(operand: &OperandAst, from: &[Name], catalog: &Catalog) -> Element
    requires { length from.now ≤ 4 }
    ensures { result ≡ names.element_for catalog.now from.now operand.now }
{
    match operand {
        OperandAst::Column(column) => Element::Attr(attr_for(column, from, catalog)),
        OperandAst::Integer(integer) => Element::Const(*integer),
    }
}

// A comparison.
fn atom_for(atom: &AtomAst, from: &[Name], catalog: &Catalog) -> Atom
    requires { length from.now ≤ 4 }
    ensures { result ≡ names.atom_for catalog.now from.now atom.now }
{
    Atom {
        left: element_for(&atom.left, from, catalog),
        op: atom.op,
        right: element_for(&atom.right, from, catalog),
    }
}

// Comparisons.
fn atoms_for(atoms: &[AtomAst], from: &[Name], catalog: &Catalog) -> ArrayVec<Atom, 16>
    requires from { length from.now ≤ 4 }
    requires atoms { length atoms.now ≤ 16 }
    ensures { result.items ≡ map (names.atom_for catalog.now from.now) atoms.now }
{
    let mut comparisons = ArrayVec::new();
    for atom in atoms {
        comparisons.push(atom_for(atom, from, catalog));
    }
    comparisons
}

// The query whose names are all there.
fn query_for(select: &SelectAst, catalog: &Catalog) -> Query
    requires within { IsWithinLimits (names.query_for catalog.now select.now) }
    requires named { HasNamed catalog.now (names.query_for catalog.now select.now) }
    ensures { result ≡ names.query_for catalog.now select.now }
{
    let from = select.from.as_slice();
    let numbers = numbers_for(from, catalog);
    let attrs = attrs_for(select.select.as_slice(), from, catalog);
    let atoms = atoms_for(select.atoms.as_slice(), from, catalog);
    let named = named_attrs(attrs.as_slice(), atoms.as_slice());
    let domains = domains_for(named.as_slice(), numbers.as_slice(), catalog);
    Query::new(
        select.distinct,
        numbers.as_slice(),
        attrs.as_slice(),
        atoms.as_slice(),
        domains.as_slice(),
        select.compact,
    )
}

/// Returns the query over the streams of a catalog that is asked for, or the first of `ResolveError` that applies. Its streams and
/// columns are those of the catalog.
#[tactic(auto, unfolding(crate::specs::Resolution::resolved))]
pub fn resolve(select: &SelectAst, catalog: &Catalog) -> Result<Query, ResolveError>
    requires { IsTaken select.now }
    ensures query { result ≡ resolved catalog.now select.now }
    ensures named { IfOk result (λ query. HasNamed catalog.now query) }
{
    let from = select.from.as_slice();
    if !has_streams(select, catalog) {
        return Err(ResolveError::UnknownStream);
    }
    if !has_columns(select, catalog) {
        return Err(ResolveError::UnknownColumn);
    }
    if !all_differ(from) {
        return Err(ResolveError::SelfJoin);
    }
    // It is known of each catalog that its streams have at most 8 columns.
    let _streams = catalog.len();
    Ok(query_for(select, catalog))
}
