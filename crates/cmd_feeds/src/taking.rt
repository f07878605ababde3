//! The turns of feeds, each answered before the next one.
ghost use Rattle.std.specs.Prelude.{◌≡◌, ◌≢◌, ℕ, suc, ◌+◌, ◌<◌, ◌≤◌, ◌-◌, ◌^◌, [], true, false, length, map, nat_lt, replicate};
ghost use Rattle.std.specs.List.{list_any};
ghost use Rattle.io_streams.specs.Sink.{Writes};
ghost use Rattle.io_streams.specs.Source.{SourceState};
ghost use Rattle.cmd_session.specs.State.{State};
ghost use Rattle.cmd_session.specs.Session.{StandsFor};
ghost use Rattle.cmd_session.specs.Events.{fault_text};
ghost use Rattle.cmd_session.specs.declared.one_turn.Turn.TheVariants as turns;
ghost use Rattle.cmd_session.specs.Run.{HasState};
ghost use Rattle.cmd_feeds.specs.Lanes.{is_open, is_failed, Looked, TurnedWith, LaneTurned};
ghost use Rattle.cmd_feeds.specs.Visited.{new_lane, status_after, lines_after, slot, FeedTurned, Visited, Finished};
ghost use Rattle.cmd_feeds.specs.FeedsEnd.{RanLater};
ghost use Rattle.cmd_feeds.specs.Gates.{gate, under};

use crate::stage::{Lane, Stage};
use cmd_session::{Lock, OpenStreams, Session, Turn, take_turn};
use exec_pool::Steps;
use io_line_reader::{LineAnswer, LineReader};
use io_streams::{Gathered, Sink, Source, Status, WriteFault, write_pieces};
use itoa::Buffer;
use std::sync::ledger::Ledger;

/// The most lines that a session over feeds takes.
const MOST_LINES: u64 = u64::MAX - 1;

// `feed 1 fault`
fn write_fault<O: Sink>(out: &mut O, number: u64) -> Result<(), WriteFault>
    ensures { Writes result (O.seen out.old) (O.seen out.new) (fault_text number) }
{
    let mut buffer = Buffer::new();
    let digits = buffer.format(number).as_bytes();
    let pieces: [&[u8]; 4] = [b"feed ", digits, b" fault", b"\n"];
    write_pieces(out, &pieces)
}

// Asks a source for its next line, which the session does not take any more. What is held is written first.
fn look<I: Source, O: Sink>(
    reader: &mut LineReader,
    feed: &mut I,
    output: &mut Gathered<'_, O>,
) -> Turn
    ensures looked { Looked result reader.old reader.new (I.seen feed.old) (I.seen feed.new)
        (O.seen output.old.sink.now) (O.seen output.new.sink.now) output.old.held.items output.new.held.items }
    ensures same_reference { output.new.sink.ghost_name ≡ output.old.sink.ghost_name }
{
    match output.flush() {
        Ok(()) => match reader.next_line(feed) {
            LineAnswer::Line => Turn::Full,
            LineAnswer::TooLong => Turn::Full,
            LineAnswer::End => Turn::Ended,
            LineAnswer::ReadFault => Turn::Failed,
            LineAnswer::ByteLimit => Turn::Full,
        },
        Err(_) => Turn::Stopped,
    }
}

// One turn of a source in a session that takes one more line, or no more.
fn turn_with<I: Source, O: Sink, L: Ledger>(
    more: bool,
    reader: &mut LineReader,
    feed: &mut I,
    session: &mut Session,
    output: &mut Gathered<'_, O>,
    steps: &mut Steps<L>,
) -> Turn
    requires stands { HasState session.old }
    requires room { more ≡ true → session.old.lines + 1 < 2 ^ 64 }
    ensures turned { (s : State) → StandsFor session.old s
        → TurnedWith result more s reader.old reader.new (I.seen feed.old) (I.seen feed.new) session.old session.new
        (O.seen output.old.sink.now) (O.seen output.new.sink.now) output.old.held.items output.new.held.items }
    ensures same_reference { output.new.sink.ghost_name ≡ output.old.sink.ghost_name }
    ensures taken { result ≡ turns.Answered → more ≡ true }
{
    if !more {
        return look(reader, feed, output);
    }
    take_turn(reader, session, feed, output, steps)
}

// One turn of the feed of this number, which has not ended, in a session that takes one more line, or no more. Where its source
// fails, that is written.
fn turn_lane<I: Source, O: Sink, L: Ledger>(
    number: u64,
    more: bool,
    lane: &mut Lane,
    feed: &mut I,
    session: &mut Session,
    output: &mut Gathered<'_, O>,
    steps: &mut Steps<L>,
) -> Turn
    requires yet { is_open lane.old.stage ≡ true }
    requires stands { HasState session.old }
    requires room { more ≡ true → session.old.lines + 1 < 2 ^ 64 }
    ensures turned { (s : State) → StandsFor session.old s
        → LaneTurned result more s number lane.old lane.new (I.seen feed.old) (I.seen feed.new) session.old session.new
        (O.seen output.old.sink.now) (O.seen output.new.sink.now) output.old.held.items output.new.held.items }
    ensures same_reference { output.new.sink.ghost_name ≡ output.old.sink.ghost_name }
    ensures taken { result ≡ turns.Answered → more ≡ true }
{
    match turn_with(more, &mut lane.reader, feed, session, output, steps) {
        Turn::Answered => Turn::Answered,
        Turn::Ended => {
            lane.stage = Stage::Ended;
            Turn::Ended
        }
        Turn::Failed => {
            lane.stage = Stage::Failed;
            match write_fault(output, number) {
                Ok(()) => Turn::Failed,
                Err(_) => Turn::Stopped,
            }
        }
        Turn::Full => Turn::Full,
        Turn::Stopped => Turn::Stopped,
        Turn::Memory => Turn::Memory,
    }
}

// The status to which a turn leads; none where the session goes on.
fn status_after(turn: Turn) -> Option<Status>
    ensures { result ≡ status_after turn }
{
    match turn {
        Turn::Answered => None,
        Turn::Ended => None,
        Turn::Failed => None,
        Turn::Full => Some(Status::ByteLimit),
        Turn::Stopped => Some(Status::WriteFault),
        Turn::Memory => Some(Status::Memory),
    }
}

// How many lines were given after a turn.
fn lines_after(turn: Turn, lines: u64) -> u64
    requires { lines ≤ 2 ^ 64 - 2 }
    ensures { result ≡ lines_after turn lines }
{
    match turn {
        Turn::Answered => lines + 1,
        Turn::Ended => lines,
        Turn::Failed => lines,
        Turn::Full => lines,
        Turn::Stopped => lines,
        Turn::Memory => lines,
    }
}

// Whether the feed of a place has not ended.
fn is_open_at(lanes: &[Lane], place: usize) -> bool
    requires { place < length lanes.now }
    ensures { result ≡ is_open (slot lanes.now place new_lane).stage }
{
    lanes[place].stage.is_open()
}

// One turn of the feed of a place, from 0, which has not ended, in a session that takes one more line, or no more.
fn turn_at<I: Source, O: Sink, L: Ledger>(
    place: usize,
    more: bool,
    lanes: &mut [Lane],
    feeds: &mut [I],
    session: &mut Session,
    output: &mut Gathered<'_, O>,
    steps: &mut Steps<L>,
) -> Turn
    requires lane { place < length lanes.old }
    requires feed { place < length feeds.old }
    requires few { length lanes.old ≤ 8 }
    requires yet { is_open (slot lanes.old place new_lane).stage ≡ true }
    requires stands { HasState session.old }
    requires room { more ≡ true → session.old.lines + 1 < 2 ^ 64 }
    ensures turned { (s : State) → StandsFor session.old s
        → FeedTurned result more s place lanes.old lanes.new (map I.seen feeds.old) (map I.seen feeds.new) session.old session.new
        (O.seen output.old.sink.now) (O.seen output.new.sink.now) output.old.held.items output.new.held.items }
    ensures same_reference { output.new.sink.ghost_name ≡ output.old.sink.ghost_name }
    ensures taken { result ≡ turns.Answered → more ≡ true }
{
    turn_lane(
        place as u64 + 1,
        more,
        &mut lanes[place],
        &mut feeds[place],
        session,
        output,
        steps,
    )
}

// Visits the feed of a place: it takes its turn, where it has not ended. Gives the status with which the session ends, if it does.
// Where as many lines were given as a session takes, the session ends at the next one, and goes on while there is none.
fn visit<I: Source, O: Sink, L: Ledger>(
    place: usize,
    lanes: &mut [Lane],
    feeds: &mut [I],
    session: &mut Session,
    output: &mut Gathered<'_, O>,
    steps: &mut Steps<L>,
    lines: &mut u64,
) -> Option<Status>
    requires lane { place < length lanes.old }
    requires feed { place < length feeds.old }
    requires few { length lanes.old ≤ 8 }
    requires stands { HasState session.old }
    requires counted { session.old.lines ≡ lines.old }
    requires room { lines.old ≤ 2 ^ 64 - 2 }
    ensures visited { (s : State) → StandsFor session.old s
        → Visited result s place lanes.old lanes.new (map I.seen feeds.old) (map I.seen feeds.new) session.old session.new
        (O.seen output.old.sink.now) (O.seen output.new.sink.now) output.old.held.items output.new.held.items lines.old lines.new }
    ensures same_reference { output.new.sink.ghost_name ≡ output.old.sink.ghost_name }
    ensures room { lines.new ≤ 2 ^ 64 - 2 }
{
    if !is_open_at(lanes, place) {
        return None;
    }
    let more = *lines < MOST_LINES;
    let turn = turn_at(place, more, lanes, feeds, session, output, steps);
    *lines = lines_after(turn, *lines);
    status_after(turn)
}

// The same lock, or none.
fn copied(lock: &Option<Lock>) -> Option<Lock>
    ensures { result ≡ lock.now }
{
    match lock {
        Some(lock) => Some(lock.copied()),
        None => None,
    }
}

// The lock of the feed of a place, from 0; where there is none, one that lets no row.
fn gate_at(gates: &[Option<Lock>], place: usize) -> Option<Lock>
    ensures { result ≡ gate gates.now (suc place) }
{
    match gates.get(place) {
        Some(lock) => copied(lock),
        None => Some(Lock::narrowed(&None, &OpenStreams::none())),
    }
}

// Puts the lock of the feed of a place, from 0, into the session, where feeds have locks.
fn set_gate(gates: &[Option<Lock>], place: usize, session: &mut Session)
    ensures { (s : State) → StandsFor session.old s → StandsFor session.new (under gates.now (place + 1) s) }
{
    if gates.is_empty() {
        return;
    }
    session.set_lock(gate_at(gates, place));
}

// Whether some feed has not ended.
fn any_open(lanes: &[Lane]) -> bool
    ensures { result ≡ list_any (λ lane. is_open lane.stage) lanes.now }
{
    lanes.iter().any(|lane| lane.stage.is_open())
}

// Whether some feed has ended by a fault.
fn any_failed(lanes: &[Lane]) -> bool
    ensures { result ≡ list_any (λ lane. is_failed lane.stage) lanes.now }
{
    lanes.iter().any(|lane| lane.stage.is_failed())
}

// Ends the session where all feeds have ended.
fn finish<O: Sink>(lanes: &[Lane], output: &mut Gathered<'_, O>) -> Status
    ensures finished { Finished result lanes.now (O.seen output.old.sink.now) (O.seen output.new.sink.now) output.old.held.items output.new.held.items }
    ensures same_reference { output.new.sink.ghost_name ≡ output.old.sink.ghost_name }
{
    match output.flush() {
        Ok(()) => {
            if any_failed(lanes) {
                Status::ReadFault
            } else {
                Status::Done
            }
        }
        Err(_) => Status::WriteFault,
    }
}

/// Lets feeds take turns in a session until all of them have ended, or the session can not go on, each line under the lock of its feed, where
/// feeds have locks. A session takes fewer lines than there are rounds.
pub fn take_turns<I: Source, O: Sink, L: Ledger>(
    lanes: &mut [Lane],
    feeds: &mut [I],
    gates: &[Option<Lock>],
    session: &mut Session,
    output: &mut Gathered<'_, O>,
    steps: &mut Steps<L>,
) -> Status
    requires new { lanes.old ≡ replicate (length feeds.old) new_lane }
    requires few { length feeds.old ≤ 8 }
    requires stands { HasState session.old }
    requires room { session.old.lines ≤ 2 ^ 64 - 2 }
    requires held { output.old.held.items ≡ [] }
    ensures ran { (s : State) → StandsFor session.old s
        → RanLater result gates.now s (map I.seen feeds.old) (map I.seen feeds.new) (O.seen output.old.sink.now) (O.seen output.new.sink.now) }
    ensures same_reference { output.new.sink.ghost_name ≡ output.old.sink.ghost_name }
{
    let mut lines = session.lines();
    'rounds: for round in 0..u64::MAX {
        if !any_open(lanes) {
            return finish(lanes, output);
        }
        'visits: for place in 0..lanes.len() {
            set_gate(gates, place, session);
            match visit(place, lanes, feeds, session, output, steps, &mut lines) {
                None => {}
                Some(status) => return status,
            }
        }
    }
    finish(lanes, output)
}
