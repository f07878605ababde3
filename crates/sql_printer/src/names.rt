//! The names of a query, out of the catalog that has its streams and columns.
ghost use Rattle.std.specs.Prelude.{◌≡◌, ◌≤◌, ◌<◌, length, map};
ghost use Rattle.std.specs.List.{All};
ghost use Rattle.sql_parser.specs.Resolution as names;
ghost use Rattle.sql_parser.specs.Resolution.{IsColumnOf, HasSide, HasSides, HasNamed};

use arrayvec::ArrayVec;
use sem_query::{Atom, Attr, Element, Query};
use sql_catalog::Catalog;
use sql_parser::{AtomAst, ColumnAst, OperandAst, SelectAst};
use sql_text::Name;

// The names of streams, by their numbers.
fn streams_named(from: &[u8], catalog: &Catalog) -> ArrayVec<Name, 4>
    requires few { length from.now ≤ 4 }
    requires there { All (λ n. n < length catalog.now) from.now }
    ensures { result.items ≡ map (names.stream_named catalog.now) from.now }
{
    let mut streams = ArrayVec::new();
    for number in from {
        streams.push(*catalog.stream_name(*number));
    }
    streams
}

/// Returns a column of a query by its names, where the catalog has the streams of FROM, given by their numbers, and the column.
pub fn column_named(attr: Attr, from: &[u8], catalog: &Catalog) -> ColumnAst
    requires from { All (λ n. n < length catalog.now) from.now }
    requires column { IsColumnOf catalog.now from.now attr }
    ensures { result ≡ names.column_named catalog.now from.now attr }
{
    let number = from[usize::from(attr.stream)];
    ColumnAst {
        stream: *catalog.stream_name(number),
        column: *catalog.column_name(number, attr.column),
    }
}

// Columns by their names.
fn columns_named(attrs: &[Attr], from: &[u8], catalog: &Catalog) -> ArrayVec<ColumnAst, 8>
    requires few { length attrs.now ≤ 8 }
    requires from { All (λ n. n < length catalog.now) from.now }
    requires columns { All (IsColumnOf catalog.now from.now) attrs.now }
    ensures { result.items ≡ map (names.column_named catalog.now from.now) attrs.now }
{
    let mut columns = ArrayVec::new();
    for attr in attrs {
        columns.push(column_named(*attr, from, catalog));
    }
    columns
}

// A side of a comparison, by its names.
fn operand_named(element: Element, from: &[u8], catalog: &Catalog) -> OperandAst
    requires from { All (λ n. n < length catalog.now) from.now }
    requires side { HasSide catalog.now from.now element }
    ensures { result ≡ names.operand_named catalog.now from.now element }
{
    match element {
        Element::Attr(attr) => OperandAst::Column(column_named(attr, from, catalog)),
        Element::Const(integer) => OperandAst::Integer(integer),
    }
}

// Comparisons by their names.
fn atoms_named(atoms: &[Atom], from: &[u8], catalog: &Catalog) -> ArrayVec<AtomAst, 16>
    requires few { length atoms.now ≤ 16 }
    requires from { All (λ n. n < length catalog.now) from.now }
    requires sides { All (HasSides catalog.now from.now) atoms.now }
    ensures { result.items ≡ map (names.atom_named catalog.now from.now) atoms.now }
{
    let mut named = ArrayVec::new();
    for atom in atoms {
        let left = operand_named(atom.left, from, catalog);
        let right = operand_named(atom.right, from, catalog);
        named.push(AtomAst {
            left,
            op: atom.op,
            right,
        });
    }
    named
}

/// Returns a query by its names, where the catalog has its streams and columns.
pub fn named_select(query: &Query, catalog: &Catalog) -> SelectAst
    requires { HasNamed catalog.now query.now }
    ensures { result ≡ names.named_select catalog.now query.now }
{
    let from = query.from();
    SelectAst {
        compact: query.compact(),
        distinct: query.distinct(),
        select: columns_named(query.select(), from, catalog),
        from: streams_named(from, catalog),
        atoms: atoms_named(query.atoms(), from, catalog),
    }
}
