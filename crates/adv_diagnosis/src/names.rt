//! Names that are there already, those that stand twice, and those of a query that stand for no stream and for no column.
ghost use Rattle.std.specs.Prelude.{◌≡◌, ◌≤◌, ◌<◌, ◌+◌, ◌++◌, length, option_copied};
ghost use Rattle.std.specs.List.{find, list_any};
ghost use Rattle.std.specs.Str.{bytes_eq};
ghost use Rattle.sql_catalog.specs.Streams.{column_names};
ghost use Rattle.sql_parser.specs.Limits.{column_in, columns_in};
ghost use Rattle.sql_parser.specs.Resolution as resolution;
ghost use Rattle.adv_diagnosis.specs.Faults as faults;
ghost use Rattle.adv_diagnosis.specs.Faults.{first_repeated, IsNameFault};

use crate::fault::Fault;
use arrayvec::ArrayVec;
use sql_catalog::{Catalog, ColumnDef};
use sql_parser::{AtomAst, ColumnAst, OperandAst, SelectAst};
use sql_text::Name;

/// Returns whether a stream has the name.
pub fn has_stream(name: &Name, catalog: &Catalog) -> bool
    ensures { result ≡ list_any (λ s. bytes_eq s.name name.now) catalog.now }
{
    catalog.find(name).is_some()
}

// Whether the name is among these.
fn is_among(name: &Name, names: &[Name]) -> bool
    ensures { result ≡ list_any (bytes_eq name.now) names.now }
{
    names.iter().any(|other| *name == *other)
}

/// Returns the first name that stands among those behind it.
pub fn repeated_name(names: &[Name]) -> Option<Name>
    ensures { result ≡ first_repeated names.now }
{
    match names {
        [] => None,
        [first, others @ ..] => {
            if is_among(first, others) {
                Some(*first)
            } else {
                repeated_name(others)
            }
        }
    }
}

/// Returns the names of at most 8 columns, in order.
pub fn names_of_columns(columns: &[ColumnDef]) -> ArrayVec<Name, 8>
    requires { length columns.now ≤ 8 }
    ensures { result.items ≡ column_names columns.now }
{
    let mut names = ArrayVec::new();
    for column in columns {
        names.push(column.name);
    }
    names
}

// The place of FROM at which the stream of a column stands.
fn place_in(from: &[Name], column: &ColumnAst) -> Option<usize>
    ensures { result ≡ resolution.place_in from.now column.now }
{
    from.iter().position(|name| *name == column.stream)
}

// The place of a column in its stream, where both are there.
fn place_under(column: &ColumnAst, catalog: &Catalog) -> Option<u8>
    ensures { result ≡ resolution.place_under catalog.now column.now }
{
    let stream = catalog.find(&column.stream)?;
    catalog.column(stream, &column.column)
}

/// Returns the first name that is that of no stream.
pub fn unknown_stream<'a>(names: &'a [Name], catalog: &Catalog) -> Option<&'a Name>
    ensures { option_copied result ≡ find (faults.is_no_stream catalog.now) names.now }
{
    names.iter().find(|name| catalog.find(name).is_none())
}

// The first column whose stream is not in FROM.
fn column_outside<'a>(columns: &'a [ColumnAst], from: &[Name]) -> Option<&'a ColumnAst>
    ensures { option_copied result ≡ find (faults.is_not_from from.now) columns.now }
{
    columns
        .iter()
        .find(|column| place_in(from, column).is_none())
}

// The first column that is none of its stream.
fn unknown_column<'a>(columns: &'a [ColumnAst], catalog: &Catalog) -> Option<&'a ColumnAst>
    ensures { option_copied result ≡ find (faults.is_no_column catalog.now) columns.now }
{
    columns
        .iter()
        .find(|column| place_under(column, catalog).is_none())
}

// Adds the column that a side of an atom is.
fn put_column(columns: &mut ArrayVec<ColumnAst, 40>, operand: OperandAst)
    requires { length columns.old.items < 40 }
    ensures items { columns.new.items ≡ columns.old.items ++ column_in operand }
    ensures short { length columns.new.items ≤ length columns.old.items + 1 }
{
    match operand {
        OperandAst::Column(column) => columns.push(column),
        OperandAst::Integer(_) => {}
    }
}

// Adds the columns that atoms name.
fn put_compared(columns: &mut ArrayVec<ColumnAst, 40>, atoms: &[AtomAst])
    requires few { length atoms.now ≤ 16 }
    requires room { length columns.old.items ≤ 8 }
    ensures { columns.new.items ≡ columns.old.items ++ columns_in atoms.now }
{
    for atom in atoms {
        put_column(columns, atom.left);
        put_column(columns, atom.right);
    }
}

// The columns that are named: those that are selected, and those of the atoms.
fn named_columns(select: &SelectAst) -> ArrayVec<ColumnAst, 40>
    ensures { result.items ≡ resolution.named_columns select.now }
{
    let mut columns = ArrayVec::new();
    for column in select.select.as_slice() {
        columns.push(*column);
    }
    put_compared(&mut columns, select.atoms.as_slice());
    columns
}

/// Returns the first cause why the names of a query stand for none, where there is one.
#[tactic(auto, using(crate::proofs::NamesThere::no_stream, crate::proofs::NamesThere::not_in_from, crate::proofs::NamesThere::no_column, crate::proofs::NamesThere::self_join, crate::proofs::NamesThere::all_there))]
pub fn query_fault(select: &SelectAst, catalog: &Catalog) -> Option<Fault>
    ensures { IsNameFault catalog.now select.now result }
{
    let from = select.from.as_slice();
    let named = named_columns(select);
    let columns = named.as_slice();
    if let Some(name) = unknown_stream(from, catalog) {
        return Some(Fault::NoStream { name: *name });
    }
    if let Some(column) = column_outside(columns, from) {
        return Some(Fault::NotInFrom { column: *column });
    }
    if let Some(column) = unknown_column(columns, catalog) {
        return Some(Fault::NoColumn { column: *column });
    }
    if let Some(name) = repeated_name(from) {
        return Some(Fault::SelfJoin { name });
    }
    None
}
