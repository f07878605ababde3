//! The lines of a checkpoint that tell of one query.
ghost use Rattle.std.specs.Prelude.{◌≡◌, ◌≤◌, ◌<◌, ◌+◌, ◌++◌, ◌∷◌, [], pos, length, codes, decimal};
ghost use Rattle.std.specs.Fmt.{signed_decimal};
ghost use Rattle.io_streams.specs.Sink.{Writes};
ghost use Rattle.sem_query.specs.Sharing.{sizes_in};
ghost use Rattle.exec_pool.specs.Extents.{IsLive};
ghost use Rattle.exec_query.specs.Executor.{list_in, cells_in, tuples_in};
ghost use Rattle.sql_printer.specs.Printed.{printed_form, create_line};
ghost use Rattle.sql_parser.specs.Resolution.{HasNamed, named_select};
ghost use Rattle.sql_parser.specs.declared.tree.Statement.TheVariants.{CreateQuery, ResumeGiven};
ghost use Rattle.exec_snapshot.specs.Lines.{content_in, cell_statement, cell_statements, printed_statements, kept_statements, statements_text, text_of_lines};

use exec_pool::{Pool, Steps};
use exec_query::Executor;
use io_streams::{Sink, WriteFault, write_all, write_pieces};
use itoa::Buffer;
use sem_query::{Cell, Plan, Query};
use sql_catalog::Catalog;
use sql_parser::Statement;
use sql_printer::{print, put_create_line};
use sql_text::Name;
use std::sync::ledger::Ledger;

/// Writes the line that creates a query again, and its end, with the names of a catalog that has its streams and columns. Where the sink
/// fails, a front of it was written.
pub fn write_query_line<O: Sink>(
    name: &Name,
    query: &Query,
    shared: bool,
    catalog: &Catalog,
    out: &mut O,
) -> Result<(), WriteFault>
    requires { HasNamed catalog.now query.now }
    ensures { Writes result (O.seen out.old) (O.seen out.new) (text_of_lines (create_line (CreateQuery name.now (named_select catalog.now query.now) shared) ∷ [])) }
{
    match put_create_line(name, query, shared, catalog, out) {
        Ok(()) => write_all(out, b"\n"),
        Err(fault) => Err(fault),
    }
}

/// Writes the lines that tell what a query keeps, whose cells lie in this pool, after so many rows were given. Where the sink fails, a
/// front of them was written. It reads each cell of the query once.
pub fn write_state<O: Sink, L: Ledger>(
    name: &Name,
    given: u64,
    kept: &Executor,
    pool: &Pool,
    out: &mut O,
    steps: &mut Steps<L>,
) -> Result<(), WriteFault>
    requires { IsLive pool.now kept.now.extent }
    ensures lines { Writes result (O.seen out.old) (O.seen out.new)
        (statements_text (kept_statements name.now kept.now.query.distinct (record { cells = cells_in kept.now pool.now; table = tuples_in kept.now; given = given }))) }
    ensures reads { steps.new.reads ≤ steps.old.reads + sizes_in (list_in kept.now) }
    ensures writes { steps.new.writes ≡ steps.old.writes }
{
    match write_given(name, given, out) {
        Ok(()) => match write_cells(name, kept, pool, out, steps) {
            Ok(()) => write_tuples(name, kept, out),
            Err(fault) => Err(fault),
        },
        Err(fault) => Err(fault),
    }
}

// `RESUME q AS 5`, by its parts.
fn write_given_text<'a, O: Sink>(
    out: &mut O,
    name: &'a [u8],
    rows: &'a [u8],
) -> Result<(), WriteFault>
    ensures { Writes result (O.seen out.old) (O.seen out.new) (codes "RESUME " ++ name.now ++ codes " AS " ++ rows.now ++ 10 ∷ []) }
{
    let pieces: [&[u8]; 5] = [b"RESUME ", name, b" AS ", rows, b"\n"];
    write_pieces(out, &pieces)
}

// The line that says how many rows were given.
fn write_given<O: Sink>(name: &Name, rows: u64, out: &mut O) -> Result<(), WriteFault>
    ensures { Writes result (O.seen out.old) (O.seen out.new) (statements_text (ResumeGiven name.now (pos rows) ∷ [])) }
{
    let mut buffer = Buffer::new();
    write_given_text(out, name.bytes(), buffer.format(rows).as_bytes())
}

// `RESUME q FROM 2 1`, by its parts.
fn write_content_text<'a, O: Sink>(
    out: &mut O,
    name: &'a [u8],
    index: &'a [u8],
    content: &'a [u8],
) -> Result<(), WriteFault>
    ensures { Writes result (O.seen out.old) (O.seen out.new)
        (codes "RESUME " ++ name.now ++ codes " FROM " ++ index.now ++ codes " " ++ content.now ++ 10 ∷ []) }
{
    let pieces: [&[u8]; 7] = [b"RESUME ", name, b" FROM ", index, b" ", content, b"\n"];
    write_pieces(out, &pieces)
}

// The line for a cell whose content is written so.
fn write_content<O: Sink>(
    name: &Name,
    index: u32,
    content: &[u8],
    out: &mut O,
) -> Result<(), WriteFault>
    ensures { Writes result (O.seen out.old) (O.seen out.new)
        (codes "RESUME " ++ name.now ++ codes " FROM " ++ decimal index ++ codes " " ++ content.now ++ 10 ∷ []) }
{
    let mut buffer = Buffer::new();
    write_content_text(out, name.bytes(), buffer.format(index).as_bytes(), content)
}

// The line for a cell; there is none for an empty one.
fn write_cell<O: Sink>(name: &Name, index: u32, cell: &Cell, out: &mut O) -> Result<(), WriteFault>
    ensures { Writes result (O.seen out.old) (O.seen out.new) (statements_text (cell_statement name.now index (content_in cell.now))) }
{
    let mut buffer = Buffer::new();
    match cell {
        Cell::Empty => Ok(()),
        Cell::Count(rows) => write_content(name, index, buffer.format(*rows).as_bytes(), out),
        Cell::Present => write_content(name, index, buffer.format(1u64).as_bytes(), out),
        Cell::Extreme(value) => write_content(name, index, buffer.format(*value).as_bytes(), out),
    }
}

// How many cells a query keeps: those that its plan announces, and a filter none.
fn cells_kept(kept: &Executor) -> u32
    ensures { result ≡ sizes_in (list_in kept.now) }
{
    match kept.plan() {
        Plan::Filter => 0,
        Plan::Parts { parts: _, numbers } => numbers.cells,
    }
}

// The lines for the cells.
fn write_cells<O: Sink, L: Ledger>(
    name: &Name,
    kept: &Executor,
    pool: &Pool,
    out: &mut O,
    steps: &mut Steps<L>,
) -> Result<(), WriteFault>
    requires { IsLive pool.now kept.now.extent }
    ensures lines { Writes result (O.seen out.old) (O.seen out.new) (statements_text (cell_statements name.now 0 (cells_in kept.now pool.now))) }
    ensures reads { steps.new.reads ≤ steps.old.reads + sizes_in (list_in kept.now) }
    ensures writes { steps.new.writes ≡ steps.old.writes }
{
    for index in 0..cells_kept(kept) {
        let cell = kept.cell(pool, index, steps);
        match write_cell(name, index, &cell, out) {
            Ok(()) => {}
            Err(fault) => return Err(fault),
        }
    }
    Ok(())
}

// A statement on a line of its own.
fn write_statement<O: Sink>(statement: &Statement, out: &mut O) -> Result<(), WriteFault>
    ensures { Writes result (O.seen out.old) (O.seen out.new) (printed_form statement.now ++ 10 ∷ []) }
{
    match print(statement, out) {
        Ok(()) => write_all(out, b"\n"),
        Err(fault) => Err(fault),
    }
}

// The lines for the printed tuples.
fn write_tuples<O: Sink>(name: &Name, kept: &Executor, out: &mut O) -> Result<(), WriteFault>
    ensures { Writes result (O.seen out.old) (O.seen out.new) (statements_text (printed_statements name.now kept.now.query.distinct (tuples_in kept.now))) }
{
    for number in 0..kept.printed() {
        let statement = Statement::ResumeTuple {
            name: *name,
            values: kept.tuple(number),
        };
        match write_statement(&statement, out) {
            Ok(()) => {}
            Err(fault) => return Err(fault),
        }
    }
    Ok(())
}
