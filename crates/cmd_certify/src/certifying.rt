//! The command that certifies a script.
ghost use Rattle.std.specs.Prelude.{◌≡◌, ◌≤◌, [], IfOk};
ghost use Rattle.io_streams.specs.declared.status.Status.TheVariants as status;
ghost use Rattle.io_streams.specs.Source.{SourceState};
ghost use Rattle.io_streams.specs.Sink.{Writes};
ghost use Rattle.io_line_reader.specs.Reading.{fresh};
ghost use Rattle.sql_script.specs.Ends.{GaveScript};
ghost use Rattle.sql_script.specs.Commands.{CommandEnds};
ghost use Rattle.cmd_certify.specs.Certifying.{Certifies};
ghost use Rattle.cmd_certify.specs.Judged.{IsJudgedBy};
ghost use Rattle.sql_script.specs.Ending.{EndsWith, WritesText};
ghost use Rattle.cmd_certify.specs.Certified.{MakesFor, ReadsCertified, text_with};

use cert_checker::{Shown, goes_by_form};
use cert_format::Certificate;
use cert_maker::{MakeError, make};
use io_line_reader::LineReader;
use io_streams::{Gathered, Sink, Source, Status, WriteFault};
use plan_forms::whole_form;
use sem_query::Query;
use sql_replies::Refusal;
use sql_script::{Script, ScriptEnd, end_early, print_script, read_blank, read_script};
use std::alloc::{AllocError, Global};

/// A script, and a certificate of its query.
#[derive(Drop)]
pub struct Certified {
    pub script: Script,
    pub certificate: Certificate,
}

// The form by which a query is judged: the whole form of a compact query where that fits.
fn shown_for(alloc: Global, q: &Query) -> Result<Shown, AllocError>
    ensures { IfOk result (IsJudgedBy q.now) }
{
    if !goes_by_form(q) {
        return Ok(Shown::Plain);
    }
    match whole_form(alloc, q)? {
        Some(_plan) => Ok(Shown::Whole),
        None => Ok(Shown::Split),
    }
}

// Makes the certificate of this form for a script. A query for whose certificate that form is too large is refused at its line.
fn make_shown(alloc: Global, script: &Script, shown: Shown) -> Result<Certificate, ScriptEnd>
    requires { IsJudgedBy script.now.query shown }
    ensures { MakesFor result script.now }
{
    match make(alloc, &script.query, shown) {
        Ok(certificate) => {
            // No effect at run time. The proof reads from this call that the lines are those of a certificate.
            let _lines = certificate.lines();
            Ok(certificate)
        }
        Err(MakeError::Limit) => Err(ScriptEnd::Refused {
            line: script.line,
            word: Refusal::Limit,
        }),
        Err(MakeError::Memory) => Err(ScriptEnd::Memory),
    }
}

// Makes a certificate for a script, of the form by which its query is judged.
fn make_for(alloc: Global, script: &Script) -> Result<Certificate, ScriptEnd>
    ensures { MakesFor result script.now }
{
    match shown_for(alloc, &script.query) {
        Ok(shown) => make_shown(alloc, script, shown),
        Err(_) => Err(ScriptEnd::Memory),
    }
}

// Makes the certificate of a script, and reads the lines behind its query, which say nothing.
fn certify_script<I: Source>(
    alloc: Global,
    script: Script,
    reader: &mut LineReader,
    input: &mut I,
) -> Result<Certified, ScriptEnd>
    ensures reads { (source : SourceState) → GaveScript script source (I.seen input.old) reader.old → ReadsCertified result source (I.seen input.new) }
    ensures later { (I.seen input.old).faults ≤ (I.seen input.new).faults }
{
    match make_for(alloc, &script) {
        Ok(certificate) => match read_blank(reader, input) {
            Ok(()) => Ok(Certified {
                script,
                certificate,
            }),
            Err(stop) => Err(stop),
        },
        Err(end) => Err(end),
    }
}

// Reads a script to the end of the source, and makes its certificate as soon as the line of its query is read.
fn read_certified<I: Source>(
    alloc: Global,
    reader: &mut LineReader,
    input: &mut I,
) -> Result<Certified, ScriptEnd>
    requires { reader.old ≡ fresh }
    ensures reads { ReadsCertified result (I.seen input.old) (I.seen input.new) }
    ensures later { (I.seen input.old).faults ≤ (I.seen input.new).faults }
{
    match read_script(alloc, reader, input) {
        Ok(script) => certify_script(alloc, script, reader, input),
        Err(end) => Err(end),
    }
}

// Writes the statements of the script in printed form, and then the certificate.
#[tactic(auto, using(sql_printer::proofs::WritesBehind::writes_behind))]
fn print<O: Sink>(certified: &Certified, out: &mut O) -> Result<(), WriteFault>
    ensures { Writes result (O.seen out.old) (O.seen out.new) (text_with certified.now.script certified.now.certificate) }
{
    match print_script(&certified.script, out) {
        Ok(()) => certified.certificate.print(out),
        Err(fault) => Err(fault),
    }
}

// Writes the whole text to a gatherer, and then what it still holds to the sink below.
fn print_flushed<O: Sink>(
    certified: &Certified,
    out: &mut Gathered<'_, O>,
) -> Result<(), WriteFault>
    requires { out.old.held.items ≡ [] }
    ensures written { WritesText result (text_with certified.now.script certified.now.certificate) (O.seen out.old.sink.now) (O.seen out.new.sink.now) }
    ensures later { (O.seen out.old.sink.now).faults ≤ (O.seen out.new.sink.now).faults }
    ensures same_reference { out.new.sink.ghost_name ≡ out.old.sink.ghost_name }
{
    match print(certified, out) {
        Ok(()) => out.flush(),
        Err(fault) => Err(fault),
    }
}

// Writes the whole text, in pieces of at most 4,096 bytes.
fn print_gathered<O: Sink>(certified: &Certified, output: &mut O) -> Result<(), WriteFault>
    ensures written { WritesText result (text_with certified.now.script certified.now.certificate) (O.seen output.old) (O.seen output.new) }
    ensures later { (O.seen output.old).faults ≤ (O.seen output.new).faults }
{
    let mut gathered = Gathered::new(output);
    let written = print_flushed(certified, &mut gathered);
    let Gathered { sink, held: _held } = gathered;
    // No effect at run time. The proof reads what the output holds from this use.
    let _ = &*sink;
    written
}

// Writes the whole text, and gives the status.
fn end_done<O: Sink>(certified: &Certified, output: &mut O) -> Status
    ensures ends { EndsWith status.Done (text_with certified.now.script certified.now.certificate) result (O.seen output.old) (O.seen output.new) }
    ensures later { (O.seen output.old).faults ≤ (O.seen output.new).faults }
{
    match print_gathered(certified, output) {
        Ok(()) => Status::Done,
        Err(_) => Status::WriteFault,
    }
}

/// Reads a script to the end of the source, and writes its statements in printed form and a certificate of its query: of a compact query that is no
/// filter, one of its whole form where that fits, and else of its split form.
///
/// The script is one of CREATE STREAM lines and then one CREATE QUERY line, between blank lines and comments. The first line that is
/// not is refused with `error L Word` and `Invalid`, as is the line of a query of more than 4,096 parts, of a compact one with more than 114 split
/// pairs, or of one whose certificate has more than 262,144 nodes, with the word `Limit`. The source is read no further than the read in which such a line ends, so where it fails, or
/// has more bytes than can be counted, no line that ended before is refused. Nothing is written before it is known what the command comes
/// to, so nothing is in these two cases and for want of memory. Where the sink fails, a front of the text was written.
pub fn certify<I: Source, O: Sink>(alloc: Global, input: &mut I, output: &mut O) -> Status
    ensures ends { CommandEnds Certifies result (I.seen input.old) (I.seen input.new) (O.seen output.old) (O.seen output.new) }
    ensures input_later { (I.seen input.old).faults ≤ (I.seen input.new).faults }
    ensures output_later { (O.seen output.old).faults ≤ (O.seen output.new).faults }
{
    let Ok(mut reader) = LineReader::new(alloc) else {
        return Status::Memory;
    };
    match read_certified(alloc, &mut reader, input) {
        Ok(certified) => end_done(&certified, output),
        Err(end) => end_early(end, output),
    }
}
