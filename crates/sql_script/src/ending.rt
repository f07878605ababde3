//! How a command ends that stops before it has an answer.
ghost use Rattle.std.specs.Prelude.{◌≤◌};
ghost use Rattle.io_streams.specs.declared.status.Status.TheVariants as status;
ghost use Rattle.sql_script.specs.Commands.{error_text};
ghost use Rattle.sql_script.specs.Ending.{EndsBy, EndsWith};

use crate::end::ScriptEnd;
use io_streams::{Sink, Status};
use sql_replies::{Refusal, write_refused};

// Writes the line of a refusal.
fn refuse<O: Sink>(line: u64, word: Refusal, output: &mut O) -> Status
    ensures ends { EndsWith status.Invalid (error_text line word) result (O.seen output.old) (O.seen output.new) }
    ensures later { (O.seen output.old).faults ≤ (O.seen output.new).faults }
{
    match write_refused(output, line, word) {
        Ok(()) => Status::Invalid,
        Err(_) => Status::WriteFault,
    }
}

/// Writes the line of a refusal, and else nothing; the status says why the command stops, or that the sink failed.
pub fn end_early<O: Sink>(end: ScriptEnd, output: &mut O) -> Status
    ensures ends { EndsBy end result (O.seen output.old) (O.seen output.new) }
    ensures later { (O.seen output.old).faults ≤ (O.seen output.new).faults }
{
    match end {
        ScriptEnd::Refused { line, word } => refuse(line, word, output),
        ScriptEnd::ReadFault => Status::ReadFault,
        ScriptEnd::ByteLimit => Status::ByteLimit,
        ScriptEnd::Memory => Status::Memory,
    }
}
