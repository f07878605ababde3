//! The lines of a source, each answered before the source is read again.
ghost use Rattle.std.specs.Prelude.{◌≡◌, [], List, ℕ};
ghost use Rattle.io_line_reader.specs.Reading.{fresh};
ghost use Rattle.cmd_session.specs.State.{State};
ghost use Rattle.cmd_session.specs.Session.{StandsFor};
ghost use Rattle.cmd_session.specs.Run.{HasState, Ran, Took, TookAll, AnsweredText};
ghost use Rattle.cmd_session.specs.Spent.{SpentOver};
ghost use Rattle.cmd_session.specs.Uncounted.{EndsUncounted};
ghost use Rattle.cmd_session.specs.declared.run.Ending.TheVariants as endings;

use crate::fetch::{Fetched, fetch};
use crate::one_turn::{Turn, next_turn};
use crate::session::Session;
use exec_pool::Steps;
use io_line_reader::LineReader;
use io_streams::{Gathered, Sink, Source};
use std::sync::ledger::Ledger;

/// How a run over the lines of a source ended.
#[derive(Clone, Copy, Debug, PartialEq, Eq)]
pub enum Ending {
    /// The source was read to its end, and all replies were written.
    Done,
    /// The source failed.
    ReadFault,
    /// The sink failed.
    WriteFault,
    /// No memory was found for what a line creates.
    Memory,
    /// The source has more bytes, or the session was given more lines, than can be counted.
    ByteLimit,
}

// How a run ends where no line more can be counted: all that is held is written, and no line is answered.
#[cold]
#[inline(never)]
fn end_uncounted<I: Source, O: Sink>(
    reader: &mut LineReader,
    input: &mut I,
    output: &mut Gathered<'_, O>,
) -> Ending
    ensures ends { EndsUncounted result reader.old reader.new (I.seen input.old) (I.seen input.new)
        (O.seen output.old.sink.now) (O.seen output.new.sink.now) output.old.held.items output.new.held.items }
    ensures same_reference { output.new.sink.ghost_name ≡ output.old.sink.ghost_name }
{
    match fetch(reader, input, output) {
        Fetched::Given(_long) => match output.flush() {
            Ok(()) => Ending::ByteLimit,
            Err(_) => Ending::WriteFault,
        },
        Fetched::Ended => Ending::Done,
        Fetched::Failed => Ending::ReadFault,
        Fetched::Full => Ending::ByteLimit,
        Fetched::Stopped => Ending::WriteFault,
    }
}

/// Answers the lines of a source, one after another, from the state that the session stands for. Behind the last line nothing is held, and the
/// session stands for the state after all lines.
pub fn run_lines<I: Source, O: Sink, L: Ledger>(
    reader: &mut LineReader,
    session: &mut Session,
    input: &mut I,
    output: &mut Gathered<'_, O>,
    steps: &mut Steps<L>,
) -> Ending
    requires reader { reader.old ≡ fresh }
    requires stands { HasState session.old }
    requires held { output.old.held.items ≡ [] }
    ensures streams { (s : State) → StandsFor session.old s
        → Ran result s (I.seen input.old) (I.seen input.new) (O.seen output.old.sink.now) (O.seen output.new.sink.now) }
    ensures done { result ≡ endings.Done → (s : State) → StandsFor session.old s
        → TookAll (I.seen input.old) (I.seen input.new) (λ (text : List ℕ). AnsweredText s text (O.seen output.old.sink.now) (O.seen output.new.sink.now) session.new) }
    ensures flushed { result ≡ endings.Done → output.new.held.items ≡ [] }

    // Each line takes no more cells than the queries announce that are live before it.
    ensures steps { (s : State) → StandsFor session.old s → Took (I.seen input.old) (I.seen input.new) (λ (text : List ℕ). SpentOver s text steps.old steps.new) }
    ensures same_reference { output.new.sink.ghost_name ≡ output.old.sink.ghost_name }
{
    'answering: loop {
        if session.is_full() {
            return end_uncounted(reader, input, output);
        }
        match next_turn(reader, session, input, output, steps) {
            Turn::Answered => {}
            Turn::Ended => return Ending::Done,
            Turn::Failed => return Ending::ReadFault,
            Turn::Full => return Ending::ByteLimit,
            Turn::Stopped => return Ending::WriteFault,
            Turn::Memory => return Ending::Memory,
        }
    }
}
