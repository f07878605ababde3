//! Scripts as text.
ghost use Rattle.std.specs.Prelude.{◌≡◌, ◌<◌, length};
ghost use Rattle.std.specs.List.{slice_index_or};
ghost use Rattle.io_streams.specs.Sink.{Writes};
ghost use Rattle.sql_catalog.specs.Streams.{no_column, shape_at};
ghost use Rattle.sql_script.specs.Texts.{line_text, stream_statement, streams_text, script_text};

use crate::script::Script;
use arrayvec::ArrayVec;
use io_streams::{Sink, WriteFault, write_all};
use sql_catalog::{Catalog, ColumnDef};
use sql_parser::Statement;
use sql_printer::print;

// A column of the stream of this number, by its place.
fn column_of(catalog: &Catalog, number: u8, column: u8) -> ColumnDef
    requires stream { number < length catalog.now }
    requires column { column < length (shape_at catalog.now number).columns }
    ensures { result ≡ slice_index_or (shape_at catalog.now number).columns column no_column }
{
    ColumnDef {
        name: *catalog.column_name(number, column),
        domain: catalog.domain(number, column),
    }
}

// The columns of the stream of this number.
fn columns_of(catalog: &Catalog, number: u8) -> ArrayVec<ColumnDef, 8>
    requires { number < length catalog.now }
    ensures { result.items ≡ (shape_at catalog.now number).columns }
{
    let mut columns = ArrayVec::new();
    for column in 0..catalog.width(number) {
        columns.push(column_of(catalog, number, column));
    }
    columns
}

// Writes a statement in printed form, in a line.
fn print_line<O: Sink>(statement: &Statement, out: &mut O) -> Result<(), WriteFault>
    ensures { Writes result (O.seen out.old) (O.seen out.new) (line_text statement.now) }
{
    match print(statement, out) {
        Ok(()) => write_all(out, b"\n"),
        Err(fault) => Err(fault),
    }
}

// Writes the statement that creates the stream of this number.
fn print_stream<O: Sink>(catalog: &Catalog, number: u8, out: &mut O) -> Result<(), WriteFault>
    requires { number < length catalog.now }
    ensures { Writes result (O.seen out.old) (O.seen out.new) (line_text (stream_statement (shape_at catalog.now number))) }
{
    let statement = Statement::CreateStream {
        name: *catalog.stream_name(number),
        columns: columns_of(catalog, number),
    };
    print_line(&statement, out)
}

// Writes the statements that create the streams of a catalog, in order.
fn print_streams<O: Sink>(catalog: &Catalog, out: &mut O) -> Result<(), WriteFault>
    ensures { Writes result (O.seen out.old) (O.seen out.new) (streams_text catalog.now) }
{
    for number in 0..catalog.len() {
        match print_stream(catalog, number, out) {
            Ok(()) => {}
            Err(fault) => return Err(fault),
        }
    }
    Ok(())
}

/// Writes the statements of a script in printed form: those that create its streams, in order, and that of its query, each in a
/// line. Where the sink fails, a front of this was written.
pub fn print_script<O: Sink>(script: &Script, out: &mut O) -> Result<(), WriteFault>
    ensures { Writes result (O.seen out.old) (O.seen out.new) (script_text script.now.catalog script.now.statement) }
{
    match print_streams(&script.catalog, out) {
        Ok(()) => print_line(&script.statement, out),
        Err(fault) => Err(fault),
    }
}
