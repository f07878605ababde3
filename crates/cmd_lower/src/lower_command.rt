//! The command that writes a family.
ghost use Rattle.std.specs.Prelude.{◌≡◌, ◌<◌, ◌≤◌, []};
ghost use Rattle.io_streams.specs.declared.status.Status.TheVariants as status;
ghost use Rattle.io_streams.specs.Source.{SourceState};
ghost use Rattle.io_line_reader.specs.Reading.{fresh};
ghost use Rattle.sql_parser.specs.Resolution.{HasNamed};
ghost use Rattle.sql_script.specs.Ends.{GaveScript};
ghost use Rattle.sql_script.specs.Commands.{CommandEnds};
ghost use Rattle.sql_script.specs.Ending.{EndsWith, WritesText};
ghost use Rattle.cmd_lower.specs.Lowering.{Lowers};
ghost use Rattle.cmd_lower.specs.Found.{IsSound, ReadsLowered, text_of};

use crate::finding::{LowerFinding, find};
use crate::form::LowerForm;
use crate::printing::print;
use io_line_reader::LineReader;
use io_streams::{Gathered, Sink, Source, Status, WriteFault};
use sql_script::{Script, ScriptEnd, end_early, read_blank, read_script};
use std::alloc::Global;

/// A script, and what is found for its query.
#[derive(Drop)]
pub struct Lowered {
    pub script: Script,
    pub finding: LowerFinding,
}

// Looks for the family of a script, and reads the lines behind its query, which say nothing.
fn lower_script<I: Source>(
    alloc: Global,
    script: Script,
    form: LowerForm,
    reader: &mut LineReader,
    input: &mut I,
) -> Result<Lowered, ScriptEnd>
    requires named { HasNamed script.catalog script.query }
    ensures reads { (source : SourceState) → GaveScript script source (I.seen input.old) reader.old → ReadsLowered form result source (I.seen input.new) }
    ensures later { (I.seen input.old).faults ≤ (I.seen input.new).faults }
{
    match find(alloc, &script, form) {
        Ok(finding) => match read_blank(reader, input) {
            Ok(()) => Ok(Lowered { script, finding }),
            Err(stop) => Err(stop),
        },
        Err(end) => Err(end),
    }
}

// Reads a script to the end of the source, and looks for its family as soon as the line of its query is read.
fn read_lowered<I: Source>(
    alloc: Global,
    form: LowerForm,
    reader: &mut LineReader,
    input: &mut I,
) -> Result<Lowered, ScriptEnd>
    requires { reader.old ≡ fresh }
    ensures reads { ReadsLowered form result (I.seen input.old) (I.seen input.new) }
    ensures later { (I.seen input.old).faults ≤ (I.seen input.new).faults }
{
    match read_script(alloc, reader, input) {
        Ok(script) => lower_script(alloc, script, form, reader, input),
        Err(end) => Err(end),
    }
}

// Writes the whole text to a gatherer, and then what it still holds to the sink below.
fn print_flushed<O: Sink>(
    lowered: &Lowered,
    form: LowerForm,
    out: &mut Gathered<'_, O>,
) -> Result<(), WriteFault>
    requires sound { IsSound form lowered.now }
    requires nothing { out.old.held.items ≡ [] }
    ensures written { WritesText result (text_of lowered.now form) (O.seen out.old.sink.now) (O.seen out.new.sink.now) }
    ensures later { (O.seen out.old.sink.now).faults ≤ (O.seen out.new.sink.now).faults }
    ensures same_reference { out.new.sink.ghost_name ≡ out.old.sink.ghost_name }
{
    match print(lowered, form, out) {
        Ok(()) => out.flush(),
        Err(fault) => Err(fault),
    }
}

// Writes the whole text, in pieces of at most 4,096 bytes.
fn print_gathered<O: Sink>(
    lowered: &Lowered,
    form: LowerForm,
    output: &mut O,
) -> Result<(), WriteFault>
    requires { IsSound form lowered.now }
    ensures written { WritesText result (text_of lowered.now form) (O.seen output.old) (O.seen output.new) }
    ensures later { (O.seen output.old).faults ≤ (O.seen output.new).faults }
{
    let mut gathered = Gathered::new(output);
    let written = print_flushed(lowered, form, &mut gathered);
    let Gathered { sink, held: _held } = gathered;
    // No effect at run time. The proof reads what the output holds from this use.
    let _ = &*sink;
    written
}

// Writes the whole text, and gives the status.
fn end_done<O: Sink>(lowered: &Lowered, form: LowerForm, output: &mut O) -> Status
    requires { IsSound form lowered.now }
    ensures ends { EndsWith status.Done (text_of lowered.now form) result (O.seen output.old) (O.seen output.new) }
    ensures later { (O.seen output.old).faults ≤ (O.seen output.new).faults }
{
    match print_gathered(lowered, form, output) {
        Ok(()) => Status::Done,
        Err(_) => Status::WriteFault,
    }
}

/// Reads a script to the end of the source, and writes a family of rows of one stream for its query, as many as the form asks for, with the rows
/// that ask for each of them. Whatever set of these rows came before, the answers to the rows that ask tell the set: without
/// DISTINCT, where C2 or C3 refuses the query, it may be how many answers there are that tells any two sets apart. So whatever answers the query has to tell 2^n histories apart.
///
/// The family is for the first condition that the query breaks; of a compact one that is no filter, for the first that its split form breaks. Its rows may be of
/// another stream than the column at fault where they move in equal steps: such rows are sought of a compact query, and of each where the form asks for all three
/// conditions. One line says that there is none: where the query breaks no condition; where they are sought, and yet few states are enough; where C3 refuses it, and
/// the form asks for the first two conditions alone; or where no rows were found, though many states are needed if it is compact, or they are sought and it has
/// DISTINCT.
///
/// The script is read, and its lines are refused, as those of `certify`; the line of a query of more than 4,096 parts is refused with the word `Limit`, as
/// is that of a compact one with more split pairs or split parts than a query may have. Nothing is written before it is known what the command comes to, so nothing is where the source fails or has more bytes than can
/// be counted, and for want of memory. Where the sink fails, a front of the text was written.
pub fn lower<I: Source, O: Sink>(
    alloc: Global,
    form: LowerForm,
    input: &mut I,
    output: &mut O,
) -> Status
    ensures ends { CommandEnds (Lowers form) result (I.seen input.old) (I.seen input.new) (O.seen output.old) (O.seen output.new) }
    ensures input_later { (I.seen input.old).faults ≤ (I.seen input.new).faults }
    ensures output_later { (O.seen output.old).faults ≤ (O.seen output.new).faults }
{
    let Ok(mut reader) = LineReader::new(alloc) else {
        return Status::Memory;
    };
    match read_lowered(alloc, form, &mut reader, input) {
        Ok(lowered) => end_done(&lowered, form, output),
        Err(end) => end_early(end, output),
    }
}
