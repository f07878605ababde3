//! The command that writes the choices of keys for a script.
ghost use Rattle.std.specs.Prelude.{◌≡◌, ◌≤◌, []};
ghost use Rattle.io_line_reader.specs.Reading.{fresh};
ghost use Rattle.sql_script.specs.Commands.{CommandEnds};
ghost use Rattle.sql_script.specs.Ending.{EndsWith, WritesText};
ghost use Rattle.io_streams.specs.Source.{SourceState};
ghost use Rattle.cmd_advise_split.specs.Splitting.{Splits, status_for};
ghost use Rattle.cmd_advise_split.specs.Text.{finding_text};
ghost use Rattle.cmd_advise_split.specs.Reading.{ReadAll, ReadsFound};

use crate::finding::{Finding, Found, find};
use crate::printing::print;
use crate::reading::read_all;
use crate::state::{Splitting, Stop};
use io_line_reader::LineReader;
use io_streams::{Gathered, Sink, Source, Status, WriteFault};
use sql_script::{ScriptEnd, end_early};
use std::alloc::Global;

// The end of a script of which a line is refused.
fn refused(stop: Stop) -> ScriptEnd
    ensures { result ≡ ScriptEnd.Refused stop.line stop.word }
{
    ScriptEnd::Refused {
        line: stop.line,
        word: stop.word,
    }
}

// Looks for the choices of what all lines have made, where none of them is refused.
fn found_in(alloc: Global, state: Splitting) -> Result<Found, ScriptEnd>
    ensures { (source now : SourceState) → ReadAll source now state → ReadsFound result source now }
{
    if let Some(stop) = state.stop() {
        return Err(refused(stop));
    }
    match find(alloc, &state) {
        Ok(finding) => Ok(Found { state, finding }),
        Err(_) => Err(ScriptEnd::Memory),
    }
}

// Reads all lines of a source, and looks for the choices of what they have made.
fn read_found<I: Source>(
    alloc: Global,
    reader: &mut LineReader,
    input: &mut I,
) -> Result<Found, ScriptEnd>
    requires { reader.old ≡ fresh }
    ensures reads { ReadsFound result (I.seen input.old) (I.seen input.new) }
    ensures later { (I.seen input.old).faults ≤ (I.seen input.new).faults }
{
    let Ok(mut state) = Splitting::new(alloc) else {
        return Err(ScriptEnd::Memory);
    };
    match read_all(alloc, reader, &mut state, input) {
        Ok(()) => found_in(alloc, state),
        Err(end) => Err(end),
    }
}

// Writes the whole text to a gatherer, and then what it still holds to the sink below.
fn print_flushed<O: Sink>(found: &Found, out: &mut Gathered<'_, O>) -> Result<(), WriteFault>
    requires { out.old.held.items ≡ [] }
    ensures written { WritesText result (finding_text found.now.state.streams found.now.state.names found.now.finding) (O.seen out.old.sink.now) (O.seen out.new.sink.now) }
    ensures later { (O.seen out.old.sink.now).faults ≤ (O.seen out.new.sink.now).faults }
    ensures same_reference { out.new.sink.ghost_name ≡ out.old.sink.ghost_name }
{
    match print(found, out) {
        Ok(()) => out.flush(),
        Err(fault) => Err(fault),
    }
}

// Writes the whole text, in pieces of at most 4,096 bytes.
fn print_gathered<O: Sink>(found: &Found, output: &mut O) -> Result<(), WriteFault>
    ensures written { WritesText result (finding_text found.now.state.streams found.now.state.names found.now.finding) (O.seen output.old) (O.seen output.new) }
    ensures later { (O.seen output.old).faults ≤ (O.seen output.new).faults }
{
    let mut gathered = Gathered::new(output);
    let written = print_flushed(found, &mut gathered);
    let Gathered { sink, held: _held } = gathered;
    // No effect at run time. The proof reads what the output holds from this use.
    let _ = &*sink;
    written
}

// The status that goes with what is found.
fn status_for(finding: &Finding) -> Status
    ensures { result ≡ status_for finding.now }
{
    match finding {
        Finding::Many => Status::Invalid,
        Finding::NoStream | Finding::Least { .. } => Status::Done,
    }
}

// Writes the whole text, and gives the status.
fn end_found<O: Sink>(found: &Found, output: &mut O) -> Status
    ensures ends { EndsWith (status_for found.now.finding) (finding_text found.now.state.streams found.now.state.names found.now.finding) result (O.seen output.old) (O.seen output.new) }
    ensures later { (O.seen output.old).faults ≤ (O.seen output.new).faults }
{
    match print_gathered(found, output) {
        Ok(()) => status_for(&found.finding),
        Err(_) => Status::WriteFault,
    }
}

/// Reads a script to the end of the source, and writes the least choices of keys for its streams: for each of them how it deals the rows of each
/// stream, and how the shards answer each query. What is said of a query is so for any number of shards and wherever each value of a key is put.
/// No query has two keys that are not seen to be equal under it; and of each choice of which that holds a least one leaves no query worse, and
/// broadcasts no other stream. At most 16 are told, and how many more there are.
///
/// The streams and the live queries are those that an open session would have behind the lines, were no query refused by a condition or a limit. The
/// first line that such a session refuses is refused by its word, and so is that of a query of more than 4,096 parts, by `Limit`: `Invalid`, as where
/// the streams have more than 2^20 choices of keys. Else `Done`. Nothing is written before all lines are read, so nothing is where the source fails or
/// has more bytes than can be counted, and for want of memory. Where the sink fails, a front of the text was written.
pub fn split_script<I: Source, O: Sink>(alloc: Global, input: &mut I, output: &mut O) -> Status
    ensures ends { CommandEnds Splits result (I.seen input.old) (I.seen input.new) (O.seen output.old) (O.seen output.new) }
    ensures input_later { (I.seen input.old).faults ≤ (I.seen input.new).faults }
    ensures output_later { (O.seen output.old).faults ≤ (O.seen output.new).faults }
{
    let Ok(mut reader) = LineReader::new(alloc) else {
        return Status::Memory;
    };
    match read_found(alloc, &mut reader, input) {
        Ok(found) => end_found(&found, output),
        Err(end) => end_early(end, output),
    }
}
