//! The lines of a source, each answered by one line before the source is read again.
ghost use Rattle.std.specs.Prelude.{◌≡◌, ◌+◌, ◌-◌, ◌<◌, ◌≤◌, ◌^◌, [], false, length, List, ℕ, IsTrue, IsFalse};
ghost use Rattle.io_streams.specs.Sink.{SinkState};
ghost use Rattle.io_line_reader.specs.Reading.{IsBegun, fresh};
ghost use Rattle.cmd_session.specs.State.{State};
ghost use Rattle.cmd_session.specs.Session.{Answered, SessionValue, StandsFor};
ghost use Rattle.cmd_session.specs.Run.{HasState, TookAll};
ghost use Rattle.cmd_session.specs.declared.run.Ending.TheVariants as endings;
ghost use Rattle.cmd_each.specs.Answered.{FormedAnswered};
ghost use Rattle.cmd_each.specs.Fetching.{Comes, EndsFlushed, HasNoRow, HasRow, ToldRow};
ghost use Rattle.cmd_each.specs.declared.one_line.Last.TheVariants.{Nothing};
ghost use Rattle.cmd_each.specs.OneLine.{closed, joined, one_line_seen};
ghost use Rattle.cmd_each.specs.Run.{AnsweredFormed, FormedRan};

use crate::base::Base;
use crate::exchange::Exchange;
use crate::one_line::OneLine;
use cmd_session::{Ending, LineOutcome, Session};
use exec_pool::Steps;
use io_line_reader::{LineAnswer, LineReader};
use io_streams::{Gathered, Sink, Source};
use sem_query::Row;
use std::marker::Brand;
use std::sync::ledger::Ledger;

/// How the next line came, or why there is none.
#[derive(Clone, Copy, Debug, PartialEq, Eq)]
pub enum Next {
    /// A line came, or one that is too long. Where it was read as a row of an open stream, this is the number of that stream.
    Given { long: bool, plain: Option<u8> },
    /// There is none, and the run ends so.
    Over(Ending),
}

// Gives the next line, whatever it is. A line that lies whole in what was read is given at once; else what is held is written first, so that no
// line waits while the source is read.
#[inline(never)]
fn any_line<I: Source, O: Sink>(
    reader: &mut LineReader,
    input: &mut I,
    output: &mut Gathered<'_, O>,
) -> Next
    ensures comes { Comes result reader.old reader.new (I.seen input.old) (I.seen input.new)
        (O.seen output.old.sink.now) (O.seen output.new.sink.now) output.old.held.items output.new.held.items }
    ensures none { HasNoRow result }
    ensures same_reference { output.new.sink.ghost_name ≡ output.old.sink.ghost_name }
{
    if reader.buffered_line() {
        return Next::Given {
            long: false,
            plain: None,
        };
    }
    match output.flush() {
        Ok(()) => match reader.next_line(input) {
            LineAnswer::Line => Next::Given {
                long: false,
                plain: None,
            },
            LineAnswer::TooLong => Next::Given {
                long: true,
                plain: None,
            },
            LineAnswer::End => Next::Over(Ending::Done),
            LineAnswer::ReadFault => Next::Over(Ending::ReadFault),
            LineAnswer::ByteLimit => Next::Over(Ending::ByteLimit),
        },
        Err(_) => Next::Over(Ending::WriteFault),
    }
}

// Gives the next line, and puts it into an empty `row` where it is a row of an open stream that lies whole in what was read.
#[inline(always)]
fn next_line<I: Source, O: Sink>(
    reader: &mut LineReader,
    session: &Session,
    row: &mut Row,
    input: &mut I,
    output: &mut Gathered<'_, O>,
) -> Next
    requires empty { row.old.items ≡ [] }
    ensures comes { Comes result reader.old reader.new (I.seen input.old) (I.seen input.new)
        (O.seen output.old.sink.now) (O.seen output.new.sink.now) output.old.held.items output.new.held.items }
    ensures row { HasRow result session.now reader.new.line row.new.items }
    ensures same_reference { output.new.sink.ghost_name ≡ output.old.sink.ghost_name }
{
    match session.row_ahead(reader.ahead_and_feed(), row) {
        Some(found) => {
            let (stream, len) = found;
            reader.give_line(len);
            Next::Given {
                long: false,
                plain: Some(stream),
            }
        }
        None => any_line(reader, input, output),
    }
}

// Answers the line that the reader gave last, or one that was too long, or the row that it was read as.
fn answer_line<O: Sink, L: Ledger>(
    session: &mut Session,
    reader: &LineReader,
    long: bool,
    plain: Option<u8>,
    row: &Row,
    output: &mut O,
    steps: &mut Steps<L>,
) -> LineOutcome
    requires few { session.old.lines + 1 < 2 ^ 64 }
    requires short { long ≡ false → length reader.now.line ≤ 1024 }
    requires row { ToldRow long plain session.old reader.now.line row.now.items }
    ensures { (s : State) → (line : List ℕ) → IsBegun long reader.now.line line → StandsFor session.old s → Answered result s line session.new (O.seen output.old) (O.seen output.new) }
{
    match plain {
        Some(stream) => session.plain_row(stream, row, output, steps),
        None => if long {
            session.long_line(output)
        } else {
            session.line(reader.line(), output, steps)
        },
    }
}

// Ends a reply that went so, unless it broke off.
fn end_reply<O: Sink, B: Base>(one: &mut OneLine<'_, O, B>, outcome: LineOutcome) -> LineOutcome
    ensures ends { (s : State) → (line : List ℕ) → (new : SessionValue) → (first : SinkState) → (name : ℕ) → first.written ≡ B.bytes → first.below ≡ B.low
        → Answered outcome s line new (one_line_seen B.bytes B.low Nothing first name) (one_line_seen B.bytes B.low one.old.last (O.seen one.old.sink.now) one.old.sink.ghost_name)
        → FormedAnswered closed result s line new first (O.seen one.new.sink.now) }
    ensures same_reference { one.new.sink.ghost_name ≡ one.old.sink.ghost_name }
{
    match outcome {
        LineOutcome::Done => match one.close() {
            Ok(()) => LineOutcome::Done,
            Err(_) => LineOutcome::WriteFault,
        },
        LineOutcome::WriteFault => LineOutcome::WriteFault,
        LineOutcome::Memory => LineOutcome::Memory,
    }
}

// Answers the line that the reader gave last, or one that was too long, by one line that ends in `;`.
fn answer_closed<O: Sink, L: Ledger, B: Base>(
    session: &mut Session,
    reader: &LineReader,
    long: bool,
    plain: Option<u8>,
    row: &Row,
    output: &mut O,
    steps: &mut Steps<L>,
) -> LineOutcome
    requires bytes { (O.seen output.old).written ≡ B.bytes }
    requires low { (O.seen output.old).below ≡ B.low }
    requires few { session.old.lines + 1 < 2 ^ 64 }
    requires short { long ≡ false → length reader.now.line ≤ 1024 }
    requires row { ToldRow long plain session.old reader.now.line row.now.items }
    ensures { (s : State) → (line : List ℕ) → IsBegun long reader.now.line line → StandsFor session.old s → FormedAnswered closed result s line session.new (O.seen output.old) (O.seen output.new) }
{
    let mut one = OneLine::<O, B>::new(output);
    let outcome = answer_line(session, reader, long, plain, row, &mut one, steps);
    let ended = end_reply(&mut one, outcome);
    let OneLine { sink, .. } = one;
    // No effect at run time. The proof reads what the output holds from this use.
    let _ = &*sink;
    ended
}

// Answers the line that the reader gave last, or one that was too long, by one line that ends in `;`, whatever stood in the output.
fn answer_any<O: Sink, L: Ledger>(
    session: &mut Session,
    reader: &LineReader,
    long: bool,
    plain: Option<u8>,
    row: &Row,
    output: &mut O,
    steps: &mut Steps<L>,
) -> LineOutcome
    requires few { session.old.lines + 1 < 2 ^ 64 }
    requires short { long ≡ false → length reader.now.line ≤ 1024 }
    requires row { ToldRow long plain session.old reader.now.line row.now.items }
    ensures { (s : State) → (line : List ℕ) → IsBegun long reader.now.line line → StandsFor session.old s → FormedAnswered closed result s line session.new (O.seen output.old) (O.seen output.new) }
{
    answer_closed::<O, L, Brand>(session, reader, long, plain, row, output, steps)
}

// Answers the line that the reader gave last, or one that was too long, by one line.
fn answer_exchanged<O: Sink, L: Ledger, B: Base>(
    session: &mut Session,
    reader: &LineReader,
    long: bool,
    plain: Option<u8>,
    row: &Row,
    output: &mut O,
    steps: &mut Steps<L>,
) -> LineOutcome
    requires low { (O.seen output.old).below ≡ B.low }
    requires few { session.old.lines + 1 < 2 ^ 64 }
    requires short { long ≡ false → length reader.now.line ≤ 1024 }
    requires row { ToldRow long plain session.old reader.now.line row.now.items }
    ensures { (s : State) → (line : List ℕ) → IsBegun long reader.now.line line → StandsFor session.old s → FormedAnswered joined result s line session.new (O.seen output.old) (O.seen output.new) }
{
    let mut exchange = Exchange::<O, B>::new(output);
    let outcome = answer_any(session, reader, long, plain, row, &mut exchange, steps);
    let Exchange { sink, .. } = exchange;
    // No effect at run time. The proof reads what the output holds from this use.
    let _ = &*sink;
    outcome
}

// Answers the line that the reader gave last, or one that was too long, by one line, whatever stood in the output.
fn answer<O: Sink, L: Ledger>(
    session: &mut Session,
    reader: &LineReader,
    long: bool,
    plain: Option<u8>,
    row: &Row,
    output: &mut O,
    steps: &mut Steps<L>,
) -> LineOutcome
    requires few { session.old.lines + 1 < 2 ^ 64 }
    requires short { long ≡ false → length reader.now.line ≤ 1024 }
    requires row { ToldRow long plain session.old reader.now.line row.now.items }
    ensures { (s : State) → (line : List ℕ) → IsBegun long reader.now.line line → StandsFor session.old s → FormedAnswered joined result s line session.new (O.seen output.old) (O.seen output.new) }
{
    answer_exchanged::<O, L, Brand>(session, reader, long, plain, row, output, steps)
}

// Whether as many lines were read as can be counted.
fn is_full(session: &Session) -> bool
    ensures full { IsTrue result → 2 ^ 64 - 2 ≤ session.now.lines }
    ensures room { IsFalse result → session.now.lines + 1 < 2 ^ 64 }
{
    u64::MAX - 1 <= session.lines()
}

// How a run ends that came to this, once what is held is written.
fn end_flushed<O: Sink>(ending: Ending, output: &mut Gathered<'_, O>) -> Ending
    ensures ends { EndsFlushed result ending (O.seen output.old.sink.now) (O.seen output.new.sink.now) output.old.held.items output.new.held.items }
    ensures same_reference { output.new.sink.ghost_name ≡ output.old.sink.ghost_name }
{
    match output.flush() {
        Ok(()) => ending,
        Err(_) => Ending::WriteFault,
    }
}

/// Answers the lines of a source, one after another, from the state that the session stands for, each by exactly one line: the lines of its reply,
/// joined by `;`, or an empty line. What is held is written before the source is read.
pub fn run_each<I: Source, O: Sink, L: Ledger>(
    reader: &mut LineReader,
    session: &mut Session,
    input: &mut I,
    output: &mut Gathered<'_, O>,
    steps: &mut Steps<L>,
) -> Ending
    requires reader { reader.old ≡ fresh }
    requires stands { HasState session.old }
    requires held { output.old.held.items ≡ [] }
    ensures streams { (s : State) → StandsFor session.old s
        → FormedRan joined result s (I.seen input.old) (I.seen input.new) (O.seen output.old.sink.now) (O.seen output.new.sink.now) }
    ensures done { result ≡ endings.Done → (s : State) → StandsFor session.old s
        → TookAll (I.seen input.old) (I.seen input.new) (λ (text : List ℕ). AnsweredFormed joined s text (O.seen output.old.sink.now) (O.seen output.new.sink.now) session.new) }
    ensures flushed { result ≡ endings.Done → output.new.held.items ≡ [] }
    ensures same_reference { output.new.sink.ghost_name ≡ output.old.sink.ghost_name }
{
    'answering: loop {
        let mut row = Row::new();
        match next_line(reader, session, &mut row, input, output) {
            Next::Over(ending) => return ending,
            Next::Given { long, plain } => {
                if is_full(session) {
                    return end_flushed(Ending::ByteLimit, output);
                }
                match answer(session, reader, long, plain, &row, output, steps) {
                    LineOutcome::Done => {}
                    LineOutcome::WriteFault => return Ending::WriteFault,
                    LineOutcome::Memory => return end_flushed(Ending::Memory, output),
                }
            }
        }
    }
}
