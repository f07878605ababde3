//! The lines of a text, answered one after another.
ghost use Rattle.std.specs.Prelude.{◌≡◌, ◌+◌, ◌<◌, ◌≤◌, ◌^◌, ◌++◌, length, take, drop, IsTrue, IsFalse};
ghost use Rattle.io_line_reader.specs.Reading.{IsFirstFeed};
ghost use Rattle.io_row_reader.specs.Ahead.{IsEnded};
ghost use Rattle.cmd_session.specs.State.{State};
ghost use Rattle.cmd_session.specs.Session.{StandsFor, Answered};
ghost use Rattle.cmd_session.specs.Run.{HasState};
ghost use Rattle.lib_session.specs.Fed.{AnswersFront, AreWholeLines, Feeds};

use crate::outcome::{Fed, FeedOutcome};
use crate::replies::Replies;
use cmd_session::{Front, LineOutcome, Session};
use exec_pool::Steps;
use io_streams::Sink;
use memchr::memchr_iter;
use sem_query::Row;
use std::sync::ledger::Ledger;

// The bytes of replies for which room is made before a line is answered: no shorter reply breaks off.
const ROOM: usize = 8192;

// A text that is not longer is mostly one line, as a caller feeds it that sends row by row. Nothing is read ahead of such a line.
const ONE_LINE: usize = 100;

// The room in which such a line is read, with bytes behind it.
const ROOM_FOR_LINE: usize = 128;

// How long the first line of a text is, and how it was answered.
#[derive(Clone, Copy)]
struct FirstLine {
    len: usize,
    outcome: LineOutcome,
}

// Whether fewer bytes of replies are held than may be.
fn are_few(replies: &Replies, most: usize) -> bool
    ensures few { IsTrue result → length replies.now.bytes.items < most }
    ensures many { IsFalse result → most ≤ length replies.now.bytes.items }
{
    replies.bytes.len() < most
}

// The place of the first LF of a text that ends with one.
fn first_feed(text: &[u8]) -> usize
    requires { IsEnded text.now }
    ensures { IsFirstFeed text.now result }
{
    match memchr_iter(b'\n', text).next() {
        Some(place) => place,
        None => text.len() - 1,
    }
}

// Answers a line, whatever its length is.
fn answer_line<O: Sink, L: Ledger>(
    session: &mut Session,
    line: &[u8],
    out: &mut O,
    steps: &mut Steps<L>,
) -> LineOutcome
    requires { session.old.lines + 1 < 2 ^ 64 }
    ensures { (s : State) → StandsFor session.old s → Answered result s line.now session.new (O.seen out.old) (O.seen out.new) }
{
    if line.len() <= 1024 {
        session.line(line, out, steps)
    } else {
        session.long_line(out)
    }
}

// Puts a text at the front of the room for it.
fn put_front(text: &[u8], room: &mut [u8])
    requires { length text.now ≤ length room.old }
    ensures { room.new ≡ text.now ++ drop (length text.now) room.old }
{
    room[..text.len()].copy_from_slice(text);
}

// Answers the first line of a text that ends with LF, whatever the line is.
#[inline(always)]
fn answer_any<O: Sink, L: Ledger>(
    session: &mut Session,
    text: &[u8],
    out: &mut O,
    steps: &mut Steps<L>,
) -> FirstLine
    requires ended { IsEnded text.now }
    requires few { session.old.lines + 1 < 2 ^ 64 }
    ensures feed { IsFirstFeed text.now result.len }
    ensures reply { (s : State) → StandsFor session.old s → Answered result.outcome s (take result.len text.now) session.new (O.seen out.old) (O.seen out.new) }
{
    let len = first_feed(text);
    let outcome = answer_line(session, text.split_at(len).0, out, steps);
    FirstLine { len, outcome }
}

// Answers the first line of a text that ends with LF, behind rows that were counted. A row is read ahead of more text, and its LF is not looked for
// first. It is not inlined, so that the loop over lines has the reading of fields once.
#[inline(never)]
fn answer_behind<O: Sink, L: Ledger>(
    session: &mut Session,
    text: &[u8],
    out: &mut O,
    steps: &mut Steps<L>,
) -> FirstLine
    requires ended { IsEnded text.now }
    requires few { session.old.lines + 1 < 2 ^ 64 }
    ensures feed { IsFirstFeed text.now result.len }
    ensures reply { (s : State) → StandsFor session.old s → Answered result.outcome s (take result.len text.now) session.new (O.seen out.old) (O.seen out.new) }
{
    let mut row = Row::new();
    match session.row_ahead(text, &mut row) {
        Some(found) => {
            let (stream, len) = found;
            let outcome = session.plain_row(stream, &row, out, steps);
            FirstLine { len, outcome }
        }
        None => answer_any(session, text, out, steps),
    }
}

// Answers the first line of a text that mostly is one line. A row is read from a copy with LFs behind it, since its name and digits are read many
// bytes at a time where more bytes follow. It is not inlined, so that a batch pays nothing for the copy.
#[inline(never)]
fn answer_alone<O: Sink, L: Ledger>(
    session: &mut Session,
    text: &[u8],
    out: &mut O,
    steps: &mut Steps<L>,
) -> FirstLine
    requires short { length text.now ≤ 100 }
    requires ended { IsEnded text.now }
    requires few { session.old.lines + 1 < 2 ^ 64 }
    ensures feed { IsFirstFeed text.now result.len }
    ensures reply { (s : State) → StandsFor session.old s → Answered result.outcome s (take result.len text.now) session.new (O.seen out.old) (O.seen out.new) }
{
    let mut room = [b'\n'; ROOM_FOR_LINE];
    put_front(text, &mut room);
    let mut row = Row::new();
    match session.row_ahead(&room, &mut row) {
        Some(found) => {
            let (stream, len) = found;
            let outcome = session.plain_row(stream, &row, out, steps);
            FirstLine { len, outcome }
        }
        None => answer_any(session, text, out, steps),
    }
}

// Answers the first line of a text that ends with LF, and before it the rows that are only counted. It gives where the LF of that line
// stands, and how the line was answered. Nothing is read ahead of a text that mostly is one line.
fn answer_front<O: Sink, L: Ledger>(
    session: &mut Session,
    text: &[u8],
    out: &mut O,
    steps: &mut Steps<L>,
) -> FirstLine
    requires ended { IsEnded text.now }
    requires few { session.old.lines + length text.now < 2 ^ 64 }
    requires stands { HasState session.old }
    ensures { AnswersFront text.now session.old result.len result.outcome session.new (O.seen out.old) (O.seen out.new) }
{
    if text.len() <= ONE_LINE {
        return answer_alone(session, text, out, steps);
    }
    let mut row = Row::new();
    match session.front_ahead(text, &mut row) {
        Front::Counted(rows) => {
            let line = answer_behind(session, text.split_at(rows.end).1, out, steps);
            FirstLine {
                len: rows.end + line.len,
                outcome: line.outcome,
            }
        }
        Front::Row { stream, len } => {
            let outcome = session.plain_row(stream, &row, out, steps);
            FirstLine { len, outcome }
        }
        Front::Other => answer_any(session, text, out, steps),
    }
}

/// Answers the lines of a text, one after another, from the state that the session stands for, as long as fewer than `most` bytes of
/// replies are held.
pub(crate) fn answer_text<L: Ledger>(
    session: &mut Session,
    text: &[u8],
    replies: &mut Replies,
    most: usize,
    steps: &mut Steps<L>,
) -> Fed
    requires stands { HasState session.old }
    requires whole { AreWholeLines text.now }
    requires few { session.old.lines + length text.now < 2 ^ 64 }
    ensures fed { (s : State) → StandsFor session.old s → Feeds result.outcome s text.now result.taken most replies.old.bytes.items replies.new.bytes.items session.new }
    ensures known { HasState session.new }
    ensures taken { result.taken ≤ length text.now }
    ensures lines { session.new.lines ≤ session.old.lines + result.taken }
{
    let mut taken = 0;
    'answering: while taken < text.len() {
        if !are_few(replies, most) {
            return Fed {
                outcome: FeedOutcome::Full,
                taken,
            };
        }
        if replies.bytes.reserve(ROOM).is_err() {
            return Fed {
                outcome: FeedOutcome::NoRoom,
                taken,
            };
        }
        let line = answer_front(session, text.split_at(taken).1, replies, steps);
        taken += line.len + 1;
        match line.outcome {
            LineOutcome::Done => {}
            LineOutcome::WriteFault => {
                return Fed {
                    outcome: FeedOutcome::Stopped,
                    taken,
                };
            }
            LineOutcome::Memory => {
                return Fed {
                    outcome: FeedOutcome::Memory,
                    taken,
                };
            }
        }
    }
    Fed {
        outcome: FeedOutcome::Done,
        taken,
    }
}
