//! The command that advises on a script.
ghost use Rattle.std.specs.Prelude.{◌≤◌, ◌++◌};
ghost use Rattle.io_streams.specs.Sink.{Writes};
ghost use Rattle.sql_script.specs.Commands.{CommandEnds};
ghost use Rattle.sql_script.specs.Ending.{EndsWith};
ghost use Rattle.cmd_advise.specs.State.{status_for};
ghost use Rattle.cmd_advise.specs.Summary.{summary_text};
ghost use Rattle.cmd_advise.specs.Advising.{Advises};
ghost use Rattle.cmd_advise.specs.Reading.{ReadsTold};

use crate::state::Advising;
use crate::taking::take_given;
use adv_templates::Written;
use io_line_reader::LineReader;
use io_streams::{MemSink, Sink, Source, Status, write_all};
use sql_script::{NextGiven, ScriptEnd, end_early, next_given};
use std::alloc::Global;

/// What all lines have made, and what is said of them.
#[derive(Drop)]
pub struct Report {
    pub state: Advising,
    pub held: MemSink,
}

// Takes all lines of a source, one after another; what is said of them is held.
fn read_told<I: Source>(alloc: Global, input: &mut I) -> Result<Report, ScriptEnd>
    ensures reads { ReadsTold result (I.seen input.old) (I.seen input.new) }
    ensures later { (I.seen input.old).faults ≤ (I.seen input.new).faults }
{
    let Ok(mut reader) = LineReader::new(alloc) else {
        return Err(ScriptEnd::Memory);
    };
    let Ok(mut state) = Advising::new(alloc) else {
        return Err(ScriptEnd::Memory);
    };
    let Ok(mut held) = MemSink::new(alloc, usize::MAX, &[]) else {
        return Err(ScriptEnd::Memory);
    };
    'reading: loop {
        match next_given(&mut reader, input) {
            NextGiven::Given { long } => {
                match take_given(alloc, long, &mut state, reader.line(), &mut held) {
                    Ok(()) => {}
                    Err(_) => return Err(ScriptEnd::Memory),
                }
            }
            NextGiven::End => return Ok(Report { state, held }),
            NextGiven::ReadFault => return Err(ScriptEnd::ReadFault),
            NextGiven::ByteLimit => return Err(ScriptEnd::ByteLimit),
        }
    }
}

// Writes what is said of all lines, and then what they came to.
#[tactic(auto, using(crate::proofs::Texts::writes_behind, crate::proofs::Texts::broke_off, crate::proofs::Texts::stopped))]
fn write_told<O: Sink>(told: &Report, output: &mut O) -> Written
    ensures { Writes result (O.seen output.old) (O.seen output.new) (told.now.held.bytes ++ summary_text told.now.state) }
{
    write_all(output, told.held.bytes())?;
    told.state.write_summary(output)
}

// Writes the whole text, and gives the status.
fn end_told<O: Sink>(told: &Report, output: &mut O) -> Status
    ensures ends { EndsWith (status_for told.now.state) (told.now.held.bytes ++ summary_text told.now.state) result (O.seen output.old) (O.seen output.new) }
    ensures later { (O.seen output.old).faults ≤ (O.seen output.new).faults }
{
    match write_told(told, output) {
        Ok(()) => told.state.status(),
        Err(_) => Status::WriteFault,
    }
}

/// Reads a script to the end of the source, looks at each line behind those before it, and writes what is to be said of it: what is wrong with a line
/// that a session would refuse, why a query is refused and what would mend it, what an accepted one of several parts costs and what would make it cheaper;
/// and at the end one line with what all lines came to. A query that is accepted is live until its line of DROP, and takes its pages; a lock stands until its
/// UNLOCK; no row is taken into any query. `Done` where every line is taken and every query accepted, `Invalid` where one is not.
///
/// Nothing is written before all lines are read, so nothing is where the source fails or has more bytes than can be counted, and for want
/// of memory. Where the sink fails, a front of the text was written.
pub fn advise_script<I: Source, O: Sink>(alloc: Global, input: &mut I, output: &mut O) -> Status
    ensures ends { CommandEnds Advises result (I.seen input.old) (I.seen input.new) (O.seen output.old) (O.seen output.new) }
    ensures input_later { (I.seen input.old).faults ≤ (I.seen input.new).faults }
    ensures output_later { (O.seen output.old).faults ≤ (O.seen output.new).faults }
{
    match read_told(alloc, input) {
        Ok(told) => end_told(&told, output),
        Err(end) => end_early(end, output),
    }
}
