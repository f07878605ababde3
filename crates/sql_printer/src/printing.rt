//! Statements as text.
ghost use Rattle.std.specs.Prelude.{◌≡◌, ◌++◌, [], codes};
ghost use Rattle.std.specs.Fmt.{signed_decimal};
ghost use Rattle.io_streams.specs.Sink.{Writes};
ghost use Rattle.sql_parser.specs.Naming.{column_text};
ghost use Rattle.sql_printer.specs.Printed.{printed_form};
ghost use Rattle.sql_printer.specs.PrintedParts as parts;

use io_streams::{Sink, WriteFault, write_all, write_pieces};
use itoa::Buffer;
use sem_query::Op;
use sql_catalog::ColumnDef;
use sql_parser::{AtomAst, ColumnAst, OperandAst, SelectAst, Statement};
use sql_text::Name;

/// Writes a name, and what stands before it.
pub fn put_name<O: Sink>(out: &mut O, lead: &[u8], name: &Name) -> Result<(), WriteFault>
    ensures { Writes result (O.seen out.old) (O.seen out.new) (lead.now ++ name.now) }
{
    let pieces: [&[u8]; 2] = [lead, name.bytes()];
    write_pieces(out, &pieces)
}

// Each name behind a comma and a space.
fn put_more_names<O: Sink>(out: &mut O, names: &[Name]) -> Result<(), WriteFault>
    ensures { Writes result (O.seen out.old) (O.seen out.new) (parts.each_behind (codes ", ") parts.name_text names.now) }
{
    for name in names {
        match put_name(out, b", ", name) {
            Ok(()) => {}
            Err(fault) => return Err(fault),
        }
    }
    Ok(())
}

// The names of a list, and what stands before it.
fn put_names<O: Sink>(out: &mut O, lead: &[u8], names: &[Name]) -> Result<(), WriteFault>
    ensures { Writes result (O.seen out.old) (O.seen out.new) (parts.names_text lead.now names.now) }
{
    match names {
        [] => Ok(()),
        [first, others @ ..] => match put_name(out, lead, first) {
            Ok(()) => put_more_names(out, others),
            Err(fault) => Err(fault),
        },
    }
}

// A column, and what stands before it.
fn put_column<O: Sink>(out: &mut O, lead: &[u8], column: &ColumnAst) -> Result<(), WriteFault>
    ensures { Writes result (O.seen out.old) (O.seen out.new) (lead.now ++ column_text column.now) }
{
    let pieces: [&[u8]; 4] = [lead, column.stream.bytes(), b".", column.column.bytes()];
    write_pieces(out, &pieces)
}

// Each column behind a comma and a space.
fn put_more_columns<O: Sink>(out: &mut O, columns: &[ColumnAst]) -> Result<(), WriteFault>
    ensures { Writes result (O.seen out.old) (O.seen out.new) (parts.each_behind (codes ", ") column_text columns.now) }
{
    for column in columns {
        match put_column(out, b", ", column) {
            Ok(()) => {}
            Err(fault) => return Err(fault),
        }
    }
    Ok(())
}

// The selected columns.
fn put_columns<O: Sink>(out: &mut O, columns: &[ColumnAst]) -> Result<(), WriteFault>
    ensures { Writes result (O.seen out.old) (O.seen out.new) (parts.columns_text columns.now) }
{
    match columns {
        [] => Ok(()),
        [first, others @ ..] => match put_column(out, b" ", first) {
            Ok(()) => put_more_columns(out, others),
            Err(fault) => Err(fault),
        },
    }
}

/// Writes an integer, and what stands before it.
pub fn put_integer<O: Sink>(out: &mut O, lead: &[u8], integer: &i64) -> Result<(), WriteFault>
    ensures { Writes result (O.seen out.old) (O.seen out.new) (lead.now ++ signed_decimal integer.now) }
{
    let mut buffer = Buffer::new();
    let pieces: [&[u8]; 2] = [lead, buffer.format(*integer).as_bytes()];
    write_pieces(out, &pieces)
}

// A side of an atom, and what stands before it.
fn put_operand<O: Sink>(out: &mut O, lead: &[u8], operand: &OperandAst) -> Result<(), WriteFault>
    ensures { Writes result (O.seen out.old) (O.seen out.new) (lead.now ++ parts.operand_text operand.now) }
{
    match operand {
        OperandAst::Column(column) => put_column(out, lead, column),
        OperandAst::Integer(integer) => put_integer(out, lead, integer),
    }
}

/// Returns an operator between two spaces.
pub fn op_text(op: Op) -> &'static [u8]
    ensures { result.now ≡ parts.op_text op }
{
    match op {
        Op::Lt => b" < ",
        Op::Eq => b" = ",
        Op::Gt => b" > ",
        Op::Le => b" <= ",
        Op::Ge => b" >= ",
        Op::Ne => b" <> ",
    }
}

// An atom, and what stands before it.
fn put_atom<O: Sink>(out: &mut O, lead: &[u8], atom: &AtomAst) -> Result<(), WriteFault>
    ensures { Writes result (O.seen out.old) (O.seen out.new) (lead.now ++ parts.atom_text atom.now) }
{
    match put_operand(out, lead, &atom.left) {
        Ok(()) => put_operand(out, op_text(atom.op), &atom.right),
        Err(fault) => Err(fault),
    }
}

// Each atom behind AND.
fn put_more_atoms<O: Sink>(out: &mut O, atoms: &[AtomAst]) -> Result<(), WriteFault>
    ensures { Writes result (O.seen out.old) (O.seen out.new) (parts.each_behind (codes " AND ") parts.atom_text atoms.now) }
{
    for atom in atoms {
        match put_atom(out, b" AND ", atom) {
            Ok(()) => {}
            Err(fault) => return Err(fault),
        }
    }
    Ok(())
}

// The atoms behind WHERE, where there are any.
fn put_atoms<O: Sink>(out: &mut O, atoms: &[AtomAst]) -> Result<(), WriteFault>
    ensures { Writes result (O.seen out.old) (O.seen out.new) (parts.atoms_text atoms.now) }
{
    match atoms {
        [] => Ok(()),
        [first, others @ ..] => match put_atom(out, b" WHERE ", first) {
            Ok(()) => put_more_atoms(out, others),
            Err(fault) => Err(fault),
        },
    }
}

// The streams and the atoms.
fn put_streams<O: Sink>(out: &mut O, select: &SelectAst) -> Result<(), WriteFault>
    ensures { Writes result (O.seen out.old) (O.seen out.new) (parts.streams_text select.now) }
{
    match put_names(out, b" ", select.from.as_slice()) {
        Ok(()) => put_atoms(out, select.atoms.as_slice()),
        Err(fault) => Err(fault),
    }
}

// What stands from FROM on.
fn put_sources<O: Sink>(out: &mut O, select: &SelectAst) -> Result<(), WriteFault>
    ensures { Writes result (O.seen out.old) (O.seen out.new) (parts.sources_text select.now) }
{
    match write_all(out, b" FROM") {
        Ok(()) => put_streams(out, select),
        Err(fault) => Err(fault),
    }
}

// What stands behind SELECT or DISTINCT.
fn put_selection<O: Sink>(out: &mut O, select: &SelectAst) -> Result<(), WriteFault>
    ensures { Writes result (O.seen out.old) (O.seen out.new) (parts.selection_text select.now) }
{
    match put_columns(out, select.select.as_slice()) {
        Ok(()) => put_sources(out, select),
        Err(fault) => Err(fault),
    }
}

// What stands before the selected columns.
fn put_select_head<O: Sink>(out: &mut O, distinct: bool) -> Result<(), WriteFault>
    ensures { Writes result (O.seen out.old) (O.seen out.new) (parts.select_head_text distinct) }
{
    if distinct {
        write_all(out, b"SELECT DISTINCT")
    } else {
        write_all(out, b"SELECT")
    }
}

/// Writes what stands from SELECT on.
pub fn put_select<O: Sink>(out: &mut O, select: &SelectAst) -> Result<(), WriteFault>
    ensures { Writes result (O.seen out.old) (O.seen out.new) (parts.select_text select.now) }
{
    match put_select_head(out, select.distinct) {
        Ok(()) => put_selection(out, select),
        Err(fault) => Err(fault),
    }
}

// What stands before the name of a query, which is shared or not, and compact or not.
fn create_text(shared: bool, compact: bool) -> &'static [u8]
    ensures { result.now ≡ parts.create_text shared compact }
{
    match (shared, compact) {
        (true, true) => b"CREATE SHARED COMPACT QUERY ",
        (true, false) => b"CREATE SHARED QUERY ",
        (false, true) => b"CREATE COMPACT QUERY ",
        (false, false) => b"CREATE QUERY ",
    }
}

// What stands before SELECT.
fn put_query_head<O: Sink>(
    out: &mut O,
    name: &Name,
    shared: bool,
    compact: bool,
) -> Result<(), WriteFault>
    ensures { Writes result (O.seen out.old) (O.seen out.new) (parts.query_head_text name.now shared compact) }
{
    match put_name(out, create_text(shared, compact), name) {
        Ok(()) => write_all(out, b" AS "),
        Err(fault) => Err(fault),
    }
}

// CREATE QUERY.
fn put_query<O: Sink>(
    out: &mut O,
    name: &Name,
    select: &SelectAst,
    shared: bool,
) -> Result<(), WriteFault>
    ensures { Writes result (O.seen out.old) (O.seen out.new) (parts.query_text name.now select.now shared) }
{
    match put_query_head(out, name, shared, select.compact) {
        Ok(()) => put_select(out, select),
        Err(fault) => Err(fault),
    }
}

// What stands before the columns of a stream.
fn put_stream_head<O: Sink>(out: &mut O, name: &Name) -> Result<(), WriteFault>
    ensures { Writes result (O.seen out.old) (O.seen out.new) (parts.stream_head_text name.now) }
{
    let pieces: [&[u8]; 3] = [b"CREATE STREAM ", name.bytes(), b" ("];
    write_pieces(out, &pieces)
}

// A domain behind the name of its column.
fn put_domain<O: Sink>(out: &mut O, ends: &(i64, i64)) -> Result<(), WriteFault>
    ensures { Writes result (O.seen out.old) (O.seen out.new) ((codes " IN " ++ signed_decimal ends.now.0) ++ (codes ".." ++ signed_decimal ends.now.1)) }
{
    match put_integer(out, b" IN ", &ends.0) {
        Ok(()) => put_integer(out, b"..", &ends.1),
        Err(fault) => Err(fault),
    }
}

// The domain of a column, where it has one.
fn put_some_domain<O: Sink>(out: &mut O, domain: &Option<(i64, i64)>) -> Result<(), WriteFault>
    ensures { Writes result (O.seen out.old) (O.seen out.new) (parts.domain_text domain.now) }
{
    match domain {
        Some(ends) => put_domain(out, ends),
        None => Ok(()),
    }
}

// A column of a stream, and what stands before it.
fn put_coldef<O: Sink>(out: &mut O, lead: &[u8], column: &ColumnDef) -> Result<(), WriteFault>
    ensures { Writes result (O.seen out.old) (O.seen out.new) (lead.now ++ parts.coldef_text column.now) }
{
    match put_name(out, lead, &column.name) {
        Ok(()) => put_some_domain(out, &column.domain),
        Err(fault) => Err(fault),
    }
}

// Each column of a stream behind a comma and a space.
fn put_more_coldefs<O: Sink>(out: &mut O, columns: &[ColumnDef]) -> Result<(), WriteFault>
    ensures { Writes result (O.seen out.old) (O.seen out.new) (parts.each_behind (codes ", ") parts.coldef_text columns.now) }
{
    for column in columns {
        match put_coldef(out, b", ", column) {
            Ok(()) => {}
            Err(fault) => return Err(fault),
        }
    }
    Ok(())
}

// The columns of a stream.
fn put_coldefs<O: Sink>(out: &mut O, columns: &[ColumnDef]) -> Result<(), WriteFault>
    ensures { Writes result (O.seen out.old) (O.seen out.new) (parts.coldefs_text columns.now) }
{
    match columns {
        [] => Ok(()),
        [first, others @ ..] => match put_coldef(out, b"", first) {
            Ok(()) => put_more_coldefs(out, others),
            Err(fault) => Err(fault),
        },
    }
}

// The columns of a stream and the bracket behind them.
fn put_stream_columns<O: Sink>(out: &mut O, columns: &[ColumnDef]) -> Result<(), WriteFault>
    ensures { Writes result (O.seen out.old) (O.seen out.new) (parts.coldefs_text columns.now ++ codes ")") }
{
    match put_coldefs(out, columns) {
        Ok(()) => write_all(out, b")"),
        Err(fault) => Err(fault),
    }
}

// CREATE STREAM.
fn put_stream<O: Sink>(out: &mut O, name: &Name, columns: &[ColumnDef]) -> Result<(), WriteFault>
    ensures { Writes result (O.seen out.old) (O.seen out.new) (parts.stream_text name.now columns.now) }
{
    match put_stream_head(out, name) {
        Ok(()) => put_stream_columns(out, columns),
        Err(fault) => Err(fault),
    }
}

// RESUME name AS.
fn put_given<O: Sink>(out: &mut O, name: &Name, rows: &i64) -> Result<(), WriteFault>
    ensures { Writes result (O.seen out.old) (O.seen out.new) (parts.given_text name.now rows.now) }
{
    match put_name(out, b"RESUME ", name) {
        Ok(()) => put_integer(out, b" AS ", rows),
        Err(fault) => Err(fault),
    }
}

// What a cell holds, behind RESUME and the name.
fn put_content<O: Sink>(out: &mut O, index: &i64, content: &i64) -> Result<(), WriteFault>
    ensures { Writes result (O.seen out.old) (O.seen out.new) (parts.content_text index.now content.now) }
{
    match put_integer(out, b" FROM ", index) {
        Ok(()) => put_integer(out, b" ", content),
        Err(fault) => Err(fault),
    }
}

// RESUME name FROM.
fn put_cell<O: Sink>(out: &mut O, name: &Name, index: &i64, content: &i64) -> Result<(), WriteFault>
    ensures { Writes result (O.seen out.old) (O.seen out.new) (parts.cell_text name.now index.now content.now) }
{
    match put_name(out, b"RESUME ", name) {
        Ok(()) => put_content(out, index, content),
        Err(fault) => Err(fault),
    }
}

// Each integer of a tuple behind a space.
fn put_each_value<O: Sink>(out: &mut O, values: &[i64]) -> Result<(), WriteFault>
    ensures { Writes result (O.seen out.old) (O.seen out.new) (parts.each_behind (codes " ") signed_decimal values.now) }
{
    for value in values {
        match put_integer(out, b" ", value) {
            Ok(()) => {}
            Err(fault) => return Err(fault),
        }
    }
    Ok(())
}

// The integers of a tuple, behind RESUME and the name.
fn put_values<O: Sink>(out: &mut O, values: &[i64]) -> Result<(), WriteFault>
    ensures { Writes result (O.seen out.old) (O.seen out.new) (parts.values_text values.now) }
{
    match write_all(out, b" SELECT") {
        Ok(()) => put_each_value(out, values),
        Err(fault) => Err(fault),
    }
}

// RESUME name SELECT.
fn put_tuple<O: Sink>(out: &mut O, name: &Name, values: &[i64]) -> Result<(), WriteFault>
    ensures { Writes result (O.seen out.old) (O.seen out.new) (parts.tuple_text name.now values.now) }
{
    match put_name(out, b"RESUME ", name) {
        Ok(()) => put_values(out, values),
        Err(fault) => Err(fault),
    }
}

// LOCK, and its key where it has one.
fn put_lock_head<O: Sink>(out: &mut O, key: &Option<i64>) -> Result<(), WriteFault>
    ensures { Writes result (O.seen out.old) (O.seen out.new) (parts.lock_head_text key.now) }
{
    match key {
        Some(key) => put_integer(out, b"LOCK ", key),
        None => write_all(out, b"LOCK"),
    }
}

// LOCK, and the streams behind TO where there are any.
fn put_lock<O: Sink>(out: &mut O, key: &Option<i64>, streams: &[Name]) -> Result<(), WriteFault>
    ensures { Writes result (O.seen out.old) (O.seen out.new) (parts.lock_text key.now streams.now) }
{
    match put_lock_head(out, key) {
        Ok(()) => put_names(out, b" TO ", streams),
        Err(fault) => Err(fault),
    }
}

/// Writes a statement in its printed form. Where the sink fails, a front of it was written.
pub fn print<O: Sink>(statement: &Statement, out: &mut O) -> Result<(), WriteFault>
    ensures { Writes result (O.seen out.old) (O.seen out.new) (printed_form statement.now) }
{
    match statement {
        Statement::CreateStream { name, columns } => put_stream(out, name, columns.as_slice()),
        Statement::CreateQuery {
            name,
            select,
            shared,
        } => put_query(out, name, select, *shared),
        Statement::Explain { name } => put_name(out, b"EXPLAIN ", name),
        Statement::DropQuery { name } => put_name(out, b"DROP QUERY ", name),
        Statement::Checkpoint => write_all(out, b"CHECKPOINT"),
        Statement::ResumeRows { rows } => put_integer(out, b"RESUME ", rows),
        Statement::ResumeGiven { name, rows } => put_given(out, name, rows),
        Statement::ResumeCell {
            name,
            index,
            content,
        } => put_cell(out, name, index, content),
        Statement::ResumeTuple { name, values } => put_tuple(out, name, values.as_slice()),
        Statement::Lock { key, streams } => put_lock(out, key, streams.as_slice()),
        Statement::Unlock { key } => put_integer(out, b"UNLOCK ", key),
    }
}
