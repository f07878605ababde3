//! Certificates, read from the lines behind a query.
ghost use Rattle.std.specs.Prelude.{◌≡◌, ◌≤◌, ℕ, List};
ghost use Rattle.io_streams.specs.Source.{SourceState};
ghost use Rattle.io_line_reader.specs.GivenLines.{GivenLines};
ghost use Rattle.cmd_certify.specs.Collecting as collecting;
ghost use Rattle.cmd_certify.specs.Collecting.{HasGiven, ReadsCertificate};

use cert_format::{CertError, Certificate};
use io_line_reader::LineReader;
use io_streams::Source;
use sql_replies::Refusal;
use sql_script::{ScriptEnd, TextAnswer, next_text, text};
use std::alloc::Global;

// The end of a script at the line that was given last, which this word refuses.
fn refused(reader: &LineReader, word: Refusal) -> ScriptEnd
    ensures { result ≡ ScriptEnd.Refused reader.now.lines word }
{
    ScriptEnd::Refused {
        line: reader.lines(),
        word,
    }
}

// The end of a script at the line that was given last, which is not added to the certificate.
fn end_at(reader: &LineReader, error: CertError) -> ScriptEnd
    ensures { result ≡ collecting.end_at reader.now.lines error }
{
    match error {
        CertError::Syntax => refused(reader, Refusal::Syntax),
        CertError::Limit => refused(reader, Refusal::Limit),
        CertError::Memory => ScriptEnd::Memory,
    }
}

/// Reads the lines of a certificate up to the end of the source, with a reader that stands behind a query.
pub fn read_certificate<I: Source>(
    alloc: Global,
    reader: &mut LineReader,
    input: &mut I,
) -> Result<Certificate, ScriptEnd>
    requires stands { HasGiven (I.seen input.old) reader.old }
    ensures reads { (source : SourceState) → (front : List ℕ) → (given : List (List ℕ)) → GivenLines source (I.seen input.old) reader.old front given
        → ReadsCertificate result source (I.seen input.new) given }
    ensures later { (I.seen input.old).faults ≤ (I.seen input.new).faults }
{
    let mut certificate = Certificate::new(alloc);
    'reading: loop {
        match next_text(reader, input) {
            TextAnswer::Text => match certificate.add_line(text(reader)) {
                Ok(()) => {}
                Err(error) => return Err(end_at(reader, error)),
            },
            TextAnswer::TooLong => return Err(refused(reader, Refusal::LineTooLong)),
            TextAnswer::End => return Ok(certificate),
            TextAnswer::ReadFault => return Err(ScriptEnd::ReadFault),
            TextAnswer::ByteLimit => return Err(ScriptEnd::ByteLimit),
        }
    }
}
