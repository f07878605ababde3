//! The reply to CHECKPOINT: the lines from which a fresh session goes on.
ghost use Rattle.std.specs.Prelude.{◌≡◌, ◌≤◌, ◌<◌, ◌+◌, ◌++◌, ◌∷◌, [], All, List, pos, map, length, slice_index_or};
ghost use Rattle.std.specs.List.{flat_map};
ghost use Rattle.io_streams.specs.Sink.{Writes};
ghost use Rattle.sql_catalog.specs.Streams.{shape_at};
ghost use Rattle.sql_parser.specs.declared.tree.Statement.TheVariants.{CreateStream, ResumeRows};
ghost use Rattle.sql_printer.specs.Printed.{printed_form};
ghost use Rattle.sql_parser.specs.Resolution.{HasNamed};
ghost use Rattle.exec_registry.specs.Live.{Live, plan_cells};
ghost use Rattle.exec_registry.specs.Registry.{most_cells};
ghost use Rattle.exec_snapshot.specs.Lines.{text_of_lines};
ghost use Rattle.cmd_session.specs.Checkpoint.{stream_line};
ghost use Rattle.cmd_session.specs.CheckpointLines.{live_line, live_lines, lines_kept};

use arrayvec::ArrayVec;
use exec_pool::Steps;
use exec_registry::Registry;
use exec_snapshot::{write_query_line, write_state};
use io_streams::{Sink, WriteFault, write_all, write_pieces};
use itoa::Buffer;
use sql_catalog::{Catalog, ColumnDef};
use sql_parser::Statement;
use sql_printer::print;
use std::sync::ledger::Ledger;

/// Writes the lines of a checkpoint, each with its end. It reads each cell that the live queries announce once.
pub fn write_checkpoint<O: Sink, L: Ledger>(
    catalog: &Catalog,
    registry: &Registry,
    taken: u64,
    out: &mut O,
    steps: &mut Steps<L>,
) -> Result<(), WriteFault>
    requires { All (λ l. HasNamed catalog.now l.executor.query) registry.now.live }
    ensures lines { Writes result (O.seen out.old) (O.seen out.new) (text_of_lines (lines_kept catalog.now registry.now taken)) }
    ensures reads { steps.new.reads ≤ steps.old.reads + most_cells registry.now.live }
    ensures writes { steps.new.writes ≡ steps.old.writes }
{
    match write_created(catalog, registry, out) {
        Ok(()) => write_kept(registry, taken, out, steps),
        Err(fault) => Err(fault),
    }
}

// The lines that create the streams and the live queries again.
fn write_created<O: Sink>(
    catalog: &Catalog,
    registry: &Registry,
    out: &mut O,
) -> Result<(), WriteFault>
    requires { All (λ l. HasNamed catalog.now l.executor.query) registry.now.live }
    ensures { Writes result (O.seen out.old) (O.seen out.new)
        (flat_map (λ shape. stream_line shape ++ 10 ∷ []) catalog.now ++ flat_map (λ l. live_line catalog.now l ++ 10 ∷ []) registry.now.live) }
{
    match write_streams(catalog, out) {
        Ok(()) => write_queries(catalog, registry, out),
        Err(fault) => Err(fault),
    }
}

// The lines that tell how many rows were taken, and what each live query keeps.
fn write_kept<O: Sink, L: Ledger>(
    registry: &Registry,
    taken: u64,
    out: &mut O,
    steps: &mut Steps<L>,
) -> Result<(), WriteFault>
    ensures lines { Writes result (O.seen out.old) (O.seen out.new)
        ((printed_form (ResumeRows (pos taken)) ++ 10 ∷ []) ++ flat_map (λ l. text_of_lines (live_lines registry.now.pool l)) registry.now.live) }
    ensures reads { steps.new.reads ≤ steps.old.reads + most_cells registry.now.live }
    ensures writes { steps.new.writes ≡ steps.old.writes }
{
    match write_rows(taken, out) {
        Ok(()) => write_states(registry, out, steps),
        Err(fault) => Err(fault),
    }
}

// Columns in a list of their own.
fn copied(columns: &[ColumnDef]) -> ArrayVec<ColumnDef, 8>
    requires { length columns.now ≤ 8 }
    ensures { result.items ≡ columns.now }
{
    let mut list = ArrayVec::new();
    // There is room, so this is done.
    let _whole = list.try_extend_from_slice(columns).is_ok();
    list
}

// The statement that creates the stream of a number.
fn stream_statement(catalog: &Catalog, number: u8) -> Statement
    requires { number < length catalog.now }
    ensures { result ≡ CreateStream (shape_at catalog.now number).name (record { items = (shape_at catalog.now number).columns }) }
{
    Statement::CreateStream {
        name: *catalog.stream_name(number),
        columns: copied(catalog.columns(number).as_slice()),
    }
}

// The line that creates the stream of a number again.
fn write_stream<O: Sink>(catalog: &Catalog, number: u8, out: &mut O) -> Result<(), WriteFault>
    requires { number < length catalog.now }
    ensures { Writes result (O.seen out.old) (O.seen out.new) (stream_line (shape_at catalog.now number) ++ 10 ∷ []) }
{
    let statement = stream_statement(catalog, number);
    match print(&statement, out) {
        Ok(()) => write_all(out, b"\n"),
        Err(fault) => Err(fault),
    }
}

// The lines that create the streams again.
fn write_streams<O: Sink>(catalog: &Catalog, out: &mut O) -> Result<(), WriteFault>
    ensures { Writes result (O.seen out.old) (O.seen out.new) (flat_map (λ shape. stream_line shape ++ 10 ∷ []) catalog.now) }
{
    for number in 0..catalog.len() {
        match write_stream(catalog, number, out) {
            Ok(()) => {}
            Err(fault) => return Err(fault),
        }
    }
    Ok(())
}

// The line that creates the live query at a place again.
fn write_query<O: Sink>(
    catalog: &Catalog,
    registry: &Registry,
    place: usize,
    out: &mut O,
) -> Result<(), WriteFault>
    requires named { All (λ l. HasNamed catalog.now l.executor.query) registry.now.live }
    requires there { place < length registry.now.live }
    ensures { (d : Live) → Writes result (O.seen out.old) (O.seen out.new) (live_line catalog.now (slice_index_or registry.now.live place d) ++ 10 ∷ []) }
{
    let shared = registry.executor(place).is_shared();
    write_query_line(
        registry.name(place),
        registry.query(place),
        shared,
        catalog,
        out,
    )
}

// The lines that create the live queries again.
fn write_queries<O: Sink>(
    catalog: &Catalog,
    registry: &Registry,
    out: &mut O,
) -> Result<(), WriteFault>
    requires { All (λ l. HasNamed catalog.now l.executor.query) registry.now.live }
    ensures { Writes result (O.seen out.old) (O.seen out.new) (flat_map (λ l. live_line catalog.now l ++ 10 ∷ []) registry.now.live) }
{
    for place in 0..registry.len() {
        match write_query(catalog, registry, place, out) {
            Ok(()) => {}
            Err(fault) => return Err(fault),
        }
    }
    Ok(())
}

// The line that tells how many rows were taken.
fn write_rows<O: Sink>(taken: u64, out: &mut O) -> Result<(), WriteFault>
    ensures { Writes result (O.seen out.old) (O.seen out.new) (printed_form (ResumeRows (pos taken)) ++ 10 ∷ []) }
{
    let mut buffer = Buffer::new();
    let number = buffer.format(taken).as_bytes();
    let pieces: [&[u8]; 3] = [b"RESUME ", number, b"\n"];
    write_pieces(out, &pieces)
}

// The lines that tell what the live query at a place keeps.
fn write_state_at<O: Sink, L: Ledger>(
    registry: &Registry,
    place: usize,
    out: &mut O,
    steps: &mut Steps<L>,
) -> Result<(), WriteFault>
    requires { place < length registry.now.live }
    ensures lines { (d : Live) → Writes result (O.seen out.old) (O.seen out.new) (text_of_lines (live_lines registry.now.pool (slice_index_or registry.now.live place d))) }
    ensures reads { (d : Live) → steps.new.reads ≤ steps.old.reads + plan_cells (slice_index_or registry.now.live place d).executor.plan }
    ensures writes { steps.new.writes ≡ steps.old.writes }
{
    // No effect at run time. The proof reads from this call that the plan is that of the query.
    let _plan = registry.plan(place);
    let executor = registry.executor(place);
    write_state(
        registry.name(place),
        registry.given(place),
        executor,
        registry.pool(),
        out,
        steps,
    )
}

// The lines that tell what the live queries keep.
fn write_states<O: Sink, L: Ledger>(
    registry: &Registry,
    out: &mut O,
    steps: &mut Steps<L>,
) -> Result<(), WriteFault>
    ensures lines { Writes result (O.seen out.old) (O.seen out.new) (flat_map (λ l. text_of_lines (live_lines registry.now.pool l)) registry.now.live) }
    ensures reads { steps.new.reads ≤ steps.old.reads + most_cells registry.now.live }
    ensures writes { steps.new.writes ≡ steps.old.writes }
{
    for place in 0..registry.len() {
        match write_state_at(registry, place, out, steps) {
            Ok(()) => {}
            Err(fault) => return Err(fault),
        }
    }
    Ok(())
}
