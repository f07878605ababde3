//! The check of a script with a certificate.
ghost use Rattle.std.specs.Prelude.{◌≡◌, ◌≤◌};
ghost use Rattle.io_line_reader.specs.Reading.{fresh};
ghost use Rattle.sql_script.specs.Commands.{CommandEnds};
ghost use Rattle.sql_script.specs.Ending.{EndsWith};
ghost use Rattle.cmd_certify.specs.Checking.{Checks};
ghost use Rattle.cmd_certify.specs.Collecting.{IsSound, ReadsAnswer, outcome_of, status_after};

use crate::answering::{write_decision, write_no};
use crate::collecting::read_certificate;
use cert_checker::{CheckAnswer, check};
use io_line_reader::LineReader;
use io_streams::{Sink, Source, Status, WriteFault};
use sql_script::{Script, ScriptEnd, end_early, read_script};
use std::alloc::Global;

/// A script, and the answer to the certificate behind its query.
#[derive(Drop)]
pub struct Checked {
    pub script: Script,
    pub answer: CheckAnswer,
}

// Reads a script with a certificate, with a fresh reader, and checks the certificate.
fn read_answer<I: Source>(
    alloc: Global,
    reader: &mut LineReader,
    input: &mut I,
) -> Result<Checked, ScriptEnd>
    requires { reader.old ≡ fresh }
    ensures reads { ReadsAnswer result (I.seen input.old) (I.seen input.new) }
    ensures later { (I.seen input.old).faults ≤ (I.seen input.new).faults }
{
    match read_script(alloc, reader, input) {
        Ok(script) => match read_certificate(alloc, reader, input) {
            Ok(certificate) => {
                let answer = check(&script.query, &certificate);
                Ok(Checked { script, answer })
            }
            Err(end) => Err(end),
        },
        Err(end) => Err(end),
    }
}

// The status behind a write: this one, or that the sink failed.
fn status_after(written: Result<(), WriteFault>, aim: Status) -> Status
    ensures { result ≡ status_after written aim }
{
    match written {
        Ok(()) => aim,
        Err(_) => Status::WriteFault,
    }
}

// Writes the answer to a certificate, and gives the status.
fn end_answered<O: Sink>(checked: &Checked, output: &mut O) -> Status
    requires { IsSound checked.now }
    ensures ends { EndsWith (outcome_of checked.now).status (outcome_of checked.now).text result (O.seen output.old) (O.seen output.new) }
    ensures later { (O.seen output.old).faults ≤ (O.seen output.new).faults }
{
    match checked.answer {
        CheckAnswer::Yes { decision, parts } => status_after(
            write_decision(output, &checked.script, decision, parts),
            Status::Done,
        ),
        CheckAnswer::No { place, reason } => {
            status_after(write_no(output, place, reason), Status::Invalid)
        }
    }
}

/// Checks the certificate that stands behind the query of a script: reads the script to its end, and then writes what the certificate
/// says of the query, or the first node at fault, or the first line that is refused, in one line. The first node tells which form of a compact
/// query the certificate is of. The source is read no further than the read in which a refused line ends. Nothing is written where the source fails or has too many bytes, and no line that ended before is
/// refused then; nor where no memory is found.
pub fn check_script<I: Source, O: Sink>(alloc: Global, input: &mut I, output: &mut O) -> Status
    ensures ends { CommandEnds Checks result (I.seen input.old) (I.seen input.new) (O.seen output.old) (O.seen output.new) }
    ensures input_later { (I.seen input.old).faults ≤ (I.seen input.new).faults }
    ensures output_later { (O.seen output.old).faults ≤ (O.seen output.new).faults }
{
    let Ok(mut reader) = LineReader::new(alloc) else {
        return Status::Memory;
    };
    match read_answer(alloc, &mut reader, input) {
        Ok(checked) => end_answered(&checked, output),
        Err(end) => end_early(end, output),
    }
}
