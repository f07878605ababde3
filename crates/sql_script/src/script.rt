//! Scripts, read up to the line of their query.
ghost use Rattle.std.specs.Prelude.{◌≡◌, ◌+◌, ◌-◌, ◌^◌, ◌<◌, ◌≤◌, []};
ghost use Rattle.io_line_reader.specs.Reading.{fresh};
ghost use Rattle.sql_script.specs.Ends.{ReadsQuery, ReadsScript};
ghost use Rattle.sql_script.specs.Script as scripts;

use crate::creation::{Asked, Creation, take_line};
use crate::end::ScriptEnd;
use crate::texts::{TextAnswer, next_text, refused};
use io_line_reader::LineReader;
use io_streams::Source;
use sem_query::Query;
use sql_catalog::Catalog;
use sql_parser::Statement;
use sql_replies::Refusal;
use std::alloc::Global;

/// A script, up to the line of its query.
#[derive(Drop)]
pub struct Script {
    /// The streams that the lines before the query create.
    pub catalog: Catalog,
    /// The CREATE QUERY statement.
    pub statement: Statement,
    /// The query that it asks for.
    pub query: Query,
    /// The number of its line, from 1.
    pub line: u64,
}

/// Returns the name in a statement, and nothing where it has none.
pub fn name_of(statement: &Statement) -> &[u8]
    ensures { result.now ≡ scripts.name_of statement.now }
{
    match statement {
        Statement::CreateStream { name, .. } => name.bytes(),
        Statement::CreateQuery { name, .. } => name.bytes(),
        Statement::Explain { name } => name.bytes(),
        Statement::DropQuery { name } => name.bytes(),
        Statement::ResumeGiven { name, .. } => name.bytes(),
        Statement::ResumeCell { name, .. } => name.bytes(),
        Statement::ResumeTuple { name, .. } => name.bytes(),
        Statement::Checkpoint
        | Statement::ResumeRows { .. }
        | Statement::Lock { .. }
        | Statement::Unlock { .. } => b"",
    }
}

// The end of a script that ends before its query: it is refused at the number behind its last line.
fn ended(reader: &LineReader) -> ScriptEnd
    requires { reader.now.lines < 2 ^ 64 - 1 }
    ensures { result ≡ ScriptEnd.Refused (reader.now.lines + 1) Refusal.Syntax }
{
    ScriptEnd::Refused {
        line: reader.lines() + 1,
        word: Refusal::Syntax,
    }
}

// Reads the lines of a script up to that of its query, and adds the streams before it to a catalog.
fn read_query<I: Source>(
    catalog: &mut Catalog,
    reader: &mut LineReader,
    input: &mut I,
) -> Result<Asked, ScriptEnd>
    requires none { catalog.old ≡ [] }
    requires reader { reader.old ≡ fresh }
    ensures reads { ReadsQuery result catalog.new (I.seen input.old) (I.seen input.new) reader.new }
    ensures later { (I.seen input.old).faults ≤ (I.seen input.new).faults }
{
    'reading: loop {
        match next_text(reader, input) {
            TextAnswer::Text => match take_line(catalog, reader.line()) {
                Ok(Creation::Stream) => {}
                Ok(Creation::Query(asked)) => return Ok(asked),
                Err(word) => return Err(refused(reader, word)),
            },
            TextAnswer::TooLong => return Err(refused(reader, Refusal::LineTooLong)),
            TextAnswer::End => return Err(ended(reader)),
            TextAnswer::ReadFault => return Err(ScriptEnd::ReadFault),
            TextAnswer::ByteLimit => return Err(ScriptEnd::ByteLimit),
        }
    }
}

/// Reads a script up to the line of its query, with a fresh reader. Where it is whole, the reader stands behind that line.
pub fn read_script<I: Source>(
    alloc: Global,
    reader: &mut LineReader,
    input: &mut I,
) -> Result<Script, ScriptEnd>
    requires { reader.old ≡ fresh }
    ensures reads { ReadsScript result (I.seen input.old) (I.seen input.new) reader.new }
    ensures later { (I.seen input.old).faults ≤ (I.seen input.new).faults }
{
    let Ok(mut catalog) = Catalog::new(alloc) else {
        return Err(ScriptEnd::Memory);
    };
    match read_query(&mut catalog, reader, input) {
        Ok(asked) => {
            let Asked { statement, query } = asked;
            Ok(Script {
                catalog,
                statement,
                query,
                line: reader.lines(),
            })
        }
        Err(end) => Err(end),
    }
}
