//! A session over feeds behind a script: the lines of the script are answered first.
ghost use Rattle.std.specs.Prelude.{◌≡◌, ◌<◌, ◌≤◌, ◌+◌, ◌-◌, ◌^◌, ℕ, List, [], length, map, replicate, Some};
ghost use Rattle.std.specs.String.{string_bytes};
ghost use Rattle.io_streams.specs.Counts.{Rose};
ghost use Rattle.io_line_reader.specs.Reading.{fresh};
ghost use Rattle.cmd_session.specs.State.{State, empty};
ghost use Rattle.cmd_session.specs.Session.{StandsFor};
ghost use Rattle.cmd_session.specs.Run.{HasState, IsNoFault};
ghost use Rattle.cmd_feeds.specs.FeedsEnd.{FeedsRan, NoneFell, RanLater, SomeRose};
ghost use Rattle.cmd_feeds.specs.Gates.{gates_in};
ghost use Rattle.cmd_feeds.specs.Visited.{new_lane};

use crate::ending::FeedsEnding;
use crate::gates::gates_in;
use crate::stage::{Lane, open_lanes};
use crate::taking::take_turns;
use cmd_session::{Ending, Session, run_lines};
use exec_pool::Steps;
use io_line_reader::LineReader;
use io_streams::{Gathered, Sink, Source, Status};
use std::alloc::Global;
use std::marker::Brand;
use std::sync::ledger::{Blank, Ledger};

// Lets the feeds that these words name take turns, each under its lock.
fn take_gated_turns<I: Source, O: Sink, L: Ledger>(
    lanes: &mut [Lane],
    words: &[String],
    feeds: &mut [I],
    session: &mut Session,
    output: &mut Gathered<'_, O>,
    steps: &mut Steps<L>,
) -> Status
    requires new { lanes.old ≡ replicate (length feeds.old) new_lane }
    requires few { length feeds.old ≤ 8 }
    requires named { length words.now ≤ 8 }
    requires stands { HasState session.old }
    requires room { session.old.lines ≤ 2 ^ 64 - 2 }
    requires held { output.old.held.items ≡ [] }
    ensures ran { (s : State) → StandsFor session.old s
        → RanLater result (gates_in s (map string_bytes words.now)) s (map I.seen feeds.old) (map I.seen feeds.new) (O.seen output.old.sink.now) (O.seen output.new.sink.now) }
    ensures same_reference { output.new.sink.ghost_name ≡ output.old.sink.ghost_name }
{
    let gates = gates_in(session, words);
    take_turns(lanes, feeds, gates.as_slice(), session, output, steps)
}

// Answers the lines of the script, which is the first source, and then lets the feeds take turns.
fn answer_behind<I: Source, O: Sink, L: Ledger>(
    reader: &mut LineReader,
    lanes: &mut [Lane],
    words: &[String],
    sources: &mut [I],
    session: &mut Session,
    output: &mut Gathered<'_, O>,
    steps: &mut Steps<L>,
) -> FeedsEnding
    requires reader { reader.old ≡ fresh }
    requires new { lanes.old ≡ replicate (length words.now) new_lane }
    requires few { length words.now ≤ 8 }
    requires many { length sources.old ≡ length words.now + 1 }
    requires stands { HasState session.old }
    requires lines { session.old.lines ≡ 0 }
    requires held { output.old.held.items ≡ [] }
    ensures ran { (limit : ℕ) → (file : List ℕ) → StandsFor session.old (empty limit)
        → FeedsRan result.status result.script_failed limit (Some file) (map string_bytes words.now) (map I.seen sources.old) (map I.seen sources.new) (O.seen output.old.sink.now) (O.seen output.new.sink.now) }
    ensures later { (O.seen output.old.sink.now).faults ≤ (O.seen output.new.sink.now).faults }
    ensures same_reference { output.new.sink.ghost_name ≡ output.old.sink.ghost_name }
{
    let (script, feeds) = sources.split_at_mut(1);
    match run_lines(reader, session, &mut script[0], output, steps) {
        Ending::Done => FeedsEnding {
            status: take_gated_turns(lanes, words, feeds, session, output, steps),
            script_failed: false,
        },
        Ending::ReadFault => FeedsEnding {
            status: Status::ReadFault,
            script_failed: true,
        },
        Ending::WriteFault => FeedsEnding {
            status: Status::WriteFault,
            script_failed: false,
        },
        Ending::Memory => FeedsEnding {
            status: Status::Memory,
            script_failed: false,
        },
        Ending::ByteLimit => FeedsEnding {
            status: Status::ByteLimit,
            script_failed: false,
        },
    }
}

// Answers the lines of the script and lets the feeds take turns, and gathers what is written before it goes to the output.
fn gather_behind<I: Source, O: Sink, L: Ledger>(
    reader: &mut LineReader,
    lanes: &mut [Lane],
    words: &[String],
    sources: &mut [I],
    session: &mut Session,
    output: &mut O,
    blank: Blank,
) -> FeedsEnding
    requires reader { reader.old ≡ fresh }
    requires new { lanes.old ≡ replicate (length words.now) new_lane }
    requires few { length words.now ≤ 8 }
    requires many { length sources.old ≡ length words.now + 1 }
    requires stands { HasState session.old }
    requires lines { session.old.lines ≡ 0 }
    requires name { blank.name ≡ L.name }
    requires parts { blank.parts ≡ L.parts }
    requires two { 2 ≤ L.parts }
    ensures ran { (limit : ℕ) → (file : List ℕ) → StandsFor session.old (empty limit)
        → FeedsRan result.status result.script_failed limit (Some file) (map string_bytes words.now) (map I.seen sources.old) (map I.seen sources.new) (O.seen output.old) (O.seen output.new) }
    ensures later { (O.seen output.old).faults ≤ (O.seen output.new).faults }
{
    let mut steps = Steps::<L>::new(blank);
    let mut gathered = Gathered::new(output);
    let ending = answer_behind(
        reader,
        lanes,
        words,
        sources,
        session,
        &mut gathered,
        &mut steps,
    );
    let Gathered { sink, held: _held } = gathered;
    // No effect at run time. The proof reads what the output holds from this use.
    let _ = &*sink;
    ending
}

// Answers the lines of the script and lets the feeds take turns in a fresh session, and counts no steps.
fn answer_all<I: Source, O: Sink>(
    reader: &mut LineReader,
    lanes: &mut [Lane],
    words: &[String],
    sources: &mut [I],
    session: &mut Session,
    output: &mut O,
) -> FeedsEnding
    requires reader { reader.old ≡ fresh }
    requires new { lanes.old ≡ replicate (length words.now) new_lane }
    requires few { length words.now ≤ 8 }
    requires many { length sources.old ≡ length words.now + 1 }
    requires stands { HasState session.old }
    requires lines { session.old.lines ≡ 0 }
    ensures ran { (limit : ℕ) → (file : List ℕ) → StandsFor session.old (empty limit)
        → FeedsRan result.status result.script_failed limit (Some file) (map string_bytes words.now) (map I.seen sources.old) (map I.seen sources.new) (O.seen output.old) (O.seen output.new) }
    ensures later { (O.seen output.old).faults ≤ (O.seen output.new).faults }
{
    gather_behind::<I, O, Brand>(
        reader,
        lanes,
        words,
        sources,
        session,
        output,
        Blank::new(2),
    )
}

/// Opens a session that may take so many rows, answers the lines of the script, which is the first source, and lets the feeds that these words
/// name take turns behind it, each for rows alone.
pub fn run_behind<I: Source, O: Sink>(
    alloc: Global,
    limit: u64,
    words: &[String],
    sources: &mut [I],
    output: &mut O,
) -> FeedsEnding
    requires some { 0 < limit }
    requires few { limit ≤ 2 ^ 40 }
    requires feeds { length words.now ≤ 8 }
    requires many { length sources.old ≡ length words.now + 1 }
    ensures ran { (file : List ℕ) → FeedsRan result.status result.script_failed limit (Some file) (map string_bytes words.now) (map I.seen sources.old) (map I.seen sources.new) (O.seen output.old) (O.seen output.new) }
    ensures complete { ¬ (SomeRose (map I.seen sources.old) (map I.seen sources.new)) → ¬ (Rose (O.seen output.old).faults (O.seen output.new).faults) → IsNoFault result.status }
    ensures sources_later { NoneFell (map I.seen sources.old) (map I.seen sources.new) }
    ensures later { (O.seen output.old).faults ≤ (O.seen output.new).faults }
{
    let Ok(mut lanes) = open_lanes(alloc, words.len()) else {
        return FeedsEnding {
            status: Status::Memory,
            script_failed: false,
        };
    };
    let Ok(mut reader) = LineReader::new(alloc) else {
        return FeedsEnding {
            status: Status::Memory,
            script_failed: false,
        };
    };
    let Ok(mut session) = Session::new(alloc, limit) else {
        return FeedsEnding {
            status: Status::Memory,
            script_failed: false,
        };
    };
    let ending = answer_all(
        &mut reader,
        &mut lanes,
        words,
        sources,
        &mut session,
        output,
    );
    session.close();
    ending
}
