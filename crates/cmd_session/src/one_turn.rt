//! One turn of a source: its next line, answered before the source is read again.
ghost use Rattle.std.specs.Prelude.{◌≡◌, ◌⊎◌, ℕ, ◌+◌, ◌<◌, ◌≤◌, ◌^◌, List, length, false};
ghost use Rattle.io_streams.specs.Gathered.{gathered_seen};
ghost use Rattle.io_streams.specs.Sink.{SinkState};
ghost use Rattle.io_streams.specs.Source.{SourceState};
ghost use Rattle.io_line_reader.specs.Reading.{IsBegun, Reading};
ghost use Rattle.io_row_reader.specs.Ahead.{IsEnded};
ghost use Rattle.cmd_session.specs.declared.outcome.LineOutcome.TheVariants as outcomes;
ghost use Rattle.cmd_session.specs.State.{State};
ghost use Rattle.cmd_session.specs.Session.{StandsFor, Answered, SessionValue, most_line_reads, most_line_writes, most_announced_reads, most_announced_writes};
ghost use Rattle.cmd_session.specs.Run.{HasState};
ghost use Rattle.cmd_session.specs.AnsweredRows.{AreAnswered, TurnedBehind};
ghost use Rattle.cmd_session.specs.Turned.{AnsweredLine, Turned};

use crate::counting::CountedRows;
use crate::fetch::{Fetched, fetch};
use crate::front::Front;
use crate::outcome::LineOutcome;
use crate::session::Session;
use exec_pool::Steps;
use io_line_reader::LineReader;
use io_streams::{Gathered, Sink, Source};
use sem_query::Row;
use std::sync::ledger::Ledger;

/// How a turn of a source went.
#[derive(Clone, Copy, Debug, PartialEq, Eq)]
pub enum Turn {
    /// A line came and was answered; its reply is written or held.
    Answered,
    /// The source is at its end, and all its lines were given. What was held is written.
    Ended,
    /// The source failed. What was held is written.
    Failed,
    /// The source has more bytes than can be counted. What was held is written.
    Full,
    /// The sink failed.
    Stopped,
    /// No memory was found for what the line creates. What was held is written.
    Memory,
}

// Answers the line that the reader gave last, or one that was too long.
fn answer<O: Sink, L: Ledger>(
    session: &mut Session,
    reader: &LineReader,
    long: bool,
    output: &mut Gathered<'_, O>,
    steps: &mut Steps<L>,
) -> LineOutcome
    requires few { session.old.lines + 1 < 2 ^ 64 }
    requires short { long ≡ false → length reader.now.line ≤ 1024 }
    ensures reply { (s : State) → (line : List ℕ) → IsBegun long reader.now.line line → StandsFor session.old s → Answered result s line session.new (gathered_seen (O.seen output.old.sink.now) output.old.sink.ghost_name output.old.held.items) (gathered_seen (O.seen output.new.sink.now) output.new.sink.ghost_name output.new.held.items) }
    ensures reads { steps.new.reads ≤ steps.old.reads + most_line_reads session.old.registry.live }
    ensures writes { steps.new.writes ≤ steps.old.writes + most_line_writes session.old.registry.live }
{
    if long {
        session.long_line(output)
    } else {
        session.line(reader.line(), output, steps)
    }
}

// How a turn went in which a line came that was answered so.
#[inline(always)]
fn turn_of<O: Sink>(outcome: LineOutcome, output: &mut Gathered<'_, O>) -> Turn
    ensures turned { (s : State) → (old new : Reading) → (source now : SourceState) → (session session' : SessionValue) → (below : SinkState) → (held : List ℕ) → AnsweredLine outcome s old new source now session' below (O.seen output.old.sink.now) held output.old.held.items → Turned result s old new source now session session' below (O.seen output.new.sink.now) held output.new.held.items }
    ensures same_reference { output.new.sink.ghost_name ≡ output.old.sink.ghost_name }
{
    match outcome {
        LineOutcome::Done => Turn::Answered,
        LineOutcome::WriteFault => Turn::Stopped,
        LineOutcome::Memory => match output.flush() {
            Ok(()) => Turn::Memory,
            Err(_) => Turn::Stopped,
        },
    }
}

// What `take_turn` does, whatever line is next.
#[inline(never)]
fn any_turn<I: Source, O: Sink, L: Ledger>(
    reader: &mut LineReader,
    session: &mut Session,
    input: &mut I,
    output: &mut Gathered<'_, O>,
    steps: &mut Steps<L>,
) -> Turn
    requires stands { HasState session.old }
    requires room { (session.old.lines + 1 < 2 ^ 64) ⊎ (session.old.lines ≤ reader.old.lines) }
    ensures turned { (s : State) → StandsFor session.old s → Turned result s reader.old reader.new (I.seen input.old) (I.seen input.new) session.old session.new (O.seen output.old.sink.now) (O.seen output.new.sink.now) output.old.held.items output.new.held.items }
    ensures same_reference { output.new.sink.ghost_name ≡ output.old.sink.ghost_name }
    ensures reads { steps.new.reads ≤ steps.old.reads + most_line_reads session.old.registry.live }
    ensures writes { steps.new.writes ≤ steps.old.writes + most_line_writes session.old.registry.live }
{
    match fetch(reader, input, output) {
        Fetched::Given(long) => {
            let outcome = answer(session, reader, long, output, steps);
            turn_of(outcome, output)
        }
        Fetched::Ended => Turn::Ended,
        Fetched::Failed => Turn::Failed,
        Fetched::Full => Turn::Full,
        Fetched::Stopped => Turn::Stopped,
    }
}

/// Takes the next line of a source and answers it in the session, or says why there is none.
///
/// A line that lies whole in what the reader took is answered at once; else all that is held is written before the source is
/// read. `Turned` says of each answer what was read and written, for every state that the session stands for. The session must
/// have room for one more line, or have answered no more lines than this reader gave.
#[inline(always)]
pub fn take_turn<I: Source, O: Sink, L: Ledger>(
    reader: &mut LineReader,
    session: &mut Session,
    input: &mut I,
    output: &mut Gathered<'_, O>,
    steps: &mut Steps<L>,
) -> Turn
    requires stands { HasState session.old }
    requires room { (session.old.lines + 1 < 2 ^ 64) ⊎ (session.old.lines ≤ reader.old.lines) }
    ensures turned { (s : State) → StandsFor session.old s → Turned result s reader.old reader.new (I.seen input.old) (I.seen input.new) session.old session.new (O.seen output.old.sink.now) (O.seen output.new.sink.now) output.old.held.items output.new.held.items }
    ensures same_reference { output.new.sink.ghost_name ≡ output.old.sink.ghost_name }
    ensures reads { steps.new.reads ≤ steps.old.reads + most_line_reads session.old.registry.live }
    ensures writes { steps.new.writes ≤ steps.old.writes + most_line_writes session.old.registry.live }
    ensures announced { (s : State) → StandsFor session.old s → (steps.new.reads ≤ steps.old.reads + most_announced_reads s.queries) × (steps.new.writes ≤ steps.old.writes + most_announced_writes s.queries) }
{
    let mut row = Row::new();
    match session.row_ahead(reader.ahead_and_feed(), &mut row) {
        Some(found) => {
            let (stream, len) = found;
            reader.give_line(len);
            let outcome = session.plain_row(stream, &row, output, steps);
            turn_of(outcome, output)
        }
        None => any_turn(reader, session, input, output, steps),
    }
}

// The rows at the front of a text that were answered one after another, and how the last one was.
#[derive(Clone, Copy)]
struct AnsweredRows {
    rows: CountedRows,
    outcome: LineOutcome,
}

// Answers the rows at the front of a text, up to one of which the reply breaks off.
#[inline(always)]
fn answer_rows<O: Sink, L: Ledger>(
    session: &mut Session,
    text: &[u8],
    output: &mut Gathered<'_, O>,
    steps: &mut Steps<L>,
) -> AnsweredRows
    requires stands { HasState session.old }
    requires ended { IsEnded text.now }
    requires room { session.old.lines + length text.now < 2 ^ 64 }
    ensures rows { AreAnswered text.now session.old (O.seen output.old.sink.now) output.old.held.items steps.old result.outcome result.rows.count result.rows.begin result.rows.end session.new (O.seen output.new.sink.now) output.new.held.items steps.new }
    ensures room { result.outcome ≡ outcomes.Done → session.new.lines + 1 < 2 ^ 64 }
    ensures same_reference { output.new.sink.ghost_name ≡ output.old.sink.ghost_name }
{
    let mut rows = CountedRows::NONE;
    'rows: loop {
        let mut row = Row::new();
        match session.front_ahead(text.split_at(rows.end).1, &mut row) {
            Front::Counted(more) => {
                rows = CountedRows {
                    count: rows.count + more.count,
                    begin: rows.end + more.begin,
                    end: rows.end + more.end,
                };
            }
            Front::Row { stream, len } => {
                rows = CountedRows {
                    count: rows.count + 1,
                    begin: rows.end,
                    end: rows.end + len + 1,
                };
                let outcome = session.plain_row(stream, &row, output, steps);
                match outcome {
                    LineOutcome::Done => {}
                    LineOutcome::WriteFault | LineOutcome::Memory => {
                        return AnsweredRows { rows, outcome };
                    }
                }
            }
            Front::Other => {
                return AnsweredRows {
                    rows,
                    outcome: LineOutcome::Done,
                };
            }
        }
    }
}

/// Answers the rows at the front of what the reader has ahead, gives their lines behind them, and then does what `take_turn` does.
#[inline(always)]
pub(crate) fn next_turn<I: Source, O: Sink, L: Ledger>(
    reader: &mut LineReader,
    session: &mut Session,
    input: &mut I,
    output: &mut Gathered<'_, O>,
    steps: &mut Steps<L>,
) -> Turn
    requires stands { HasState session.old }
    requires room { session.old.lines + 1 < 2 ^ 64 }
    ensures turned { TurnedBehind result reader.old reader.new (I.seen input.old) (I.seen input.new) session.old session.new (O.seen output.old.sink.now) (O.seen output.new.sink.now) output.old.held.items output.new.held.items steps.old steps.new }
    ensures same_reference { output.new.sink.ghost_name ≡ output.old.sink.ghost_name }
{
    // So many lines may have been counted that one more for each byte ahead can be.
    let most = u64::MAX - reader.ahead_and_feed().len() as u64;
    if most < session.lines() {
        return any_turn(reader, session, input, output, steps);
    }
    let AnsweredRows { rows, outcome } = answer_rows(
        session,
        reader.ahead_and_feed(),
        output,
        steps,
    );
    if rows.count != 0 {
        reader.give_lines(rows.count, rows.begin, rows.end);
    }
    match outcome {
        LineOutcome::Done => any_turn(reader, session, input, output, steps),
        LineOutcome::WriteFault => Turn::Stopped,
        LineOutcome::Memory => turn_of(LineOutcome::Memory, output),
    }
}
