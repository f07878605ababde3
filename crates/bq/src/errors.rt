//! What the program writes to standard error: where the words are no form of the command, and where the file that they name cannot be read.
ghost use Rattle.std.specs.Prelude.{◌≡◌, ◌≤◌};
ghost use Rattle.io_streams.specs.Sink.{Writes};
ghost use Rattle.bq.specs.Errors.{Tells, told_of, unread_text, usage_text};

use cmd_dispatch::Ended;
use io_streams::{Sink, Status, WriteFault, write_all, write_pieces};

/// What is written where the words are no form of the command.
const USAGE: &str = "\
bq: these words are no form of the command; nothing was read
usage: bq run [--rows N] [--each] [FILE], or bq --help for all forms
";

// Writes that the file of this name cannot be read.
fn write_unread<E: Sink>(name: &[u8], errors: &mut E) -> Result<(), WriteFault>
    ensures { Writes result (E.seen errors.old) (E.seen errors.new) (unread_text name.now) }
{
    let pieces: [&[u8]; 3] = [b"bq: ", name, b": cannot be read\n"];
    write_pieces(errors, &pieces)
}

// Writes that the words are no form of the command.
fn write_usage<E: Sink>(errors: &mut E) -> Result<(), WriteFault>
    ensures { Writes result (E.seen errors.old) (E.seen errors.new) usage_text }
{
    write_all(errors, USAGE.as_bytes())
}

/// Tells that the words are no form of the command. Where the sink fails, a front of it was told.
pub fn tell_usage<E: Sink>(errors: &mut E)
    ensures { Tells (E.seen errors.old) (E.seen errors.new) usage_text }
{
    match write_usage(errors) {
        Ok(()) => {}
        Err(_) => {}
    }
}

// Tells that the file of this name cannot be read.
fn tell_unread<E: Sink>(name: &[u8], errors: &mut E)
    ensures { Tells (E.seen errors.old) (E.seen errors.new) (unread_text name.now) }
{
    match write_unread(name, errors) {
        Ok(()) => {}
        Err(_) => {}
    }
}

/// Tells how a command ended, where that is to be told: it did not know the words, or the file of this name failed. Otherwise it writes nothing.
pub fn tell<E: Sink>(ended: Ended, name: &[u8], errors: &mut E)
    ensures { Tells (E.seen errors.old) (E.seen errors.new) (told_of ended.status ended.file_failed name.now) }
{
    match ended.status {
        Status::Usage => tell_usage(errors),
        Status::ReadFault => {
            if ended.file_failed {
                tell_unread(name, errors);
            }
        }
        Status::Done => {}
        Status::Invalid => {}
        Status::WriteFault => {}
        Status::Memory => {}
        Status::ByteLimit => {}
    }
}
