//! All lines of a script.
ghost use Rattle.std.specs.Prelude.{◌≡◌, ◌-◌, ◌^◌, ◌<◌, ◌≤◌};
ghost use Rattle.io_line_reader.specs.Reading.{fresh};
ghost use Rattle.cmd_advise_split.specs.State.{empty};
ghost use Rattle.cmd_advise_split.specs.Reading.{ReadsAll};

use crate::state::Splitting;
use crate::taking::take_given;
use io_line_reader::LineReader;
use io_streams::Source;
use sql_script::{NextGiven, ScriptEnd, next_given};
use std::alloc::Global;

/// Takes all lines of a source, one after another.
pub fn read_all<I: Source>(
    alloc: Global,
    reader: &mut LineReader,
    state: &mut Splitting,
    input: &mut I,
) -> Result<(), ScriptEnd>
    requires reader { reader.old ≡ fresh }
    requires state { state.old ≡ empty }
    ensures reads { ReadsAll result (I.seen input.old) (I.seen input.new) state.new }
    ensures later { (I.seen input.old).faults ≤ (I.seen input.new).faults }
{
    'reading: loop {
        match next_given(reader, input) {
            NextGiven::Given { long } => match take_given(alloc, long, state, reader.line()) {
                Ok(()) => {}
                Err(_) => return Err(ScriptEnd::Memory),
            },
            NextGiven::End => return Ok(()),
            NextGiven::ReadFault => return Err(ScriptEnd::ReadFault),
            NextGiven::ByteLimit => return Err(ScriptEnd::ByteLimit),
        }
    }
}
