//! A session over feeds, from the words to the status.
ghost use Rattle.std.specs.Prelude.{◌≡◌, ◌⊎◌, ◌<◌, ◌≤◌, ◌+◌, ◌^◌, ℕ, List, [], drop, length, map, replicate, IfOk, Some, false};
ghost use Rattle.std.specs.String.{string_bytes};
ghost use Rattle.io_streams.specs.Counts.{Rose};
ghost use Rattle.io_line_reader.specs.Reading.{fresh};
ghost use Rattle.cmd_session.specs.State.{State, empty};
ghost use Rattle.cmd_session.specs.Session.{StandsFor};
ghost use Rattle.cmd_session.specs.Run.{HasState, IsNoFault};
ghost use Rattle.cmd_feeds.specs.FeedsEnd.{FeedsEnd, FeedsRan, NoneFell, RanLater, SessionRan, SomeRose};
ghost use Rattle.cmd_feeds.specs.Visited.{new_lane};
ghost use Rattle.cmd_feeds.specs.Words.{AreFound, found_sources};

use crate::behind_script::run_behind;
use crate::ending::FeedsEnding;
use crate::stage::{Lane, open_lanes};
use crate::taking::take_turns;
use crate::words::{FeedWords, feeds_of};
use cmd_session::Session;
use exec_pool::Steps;
use io_line_reader::LineReader;
use io_streams::{Gathered, Sink, Source, Status};
use std::alloc::Global;
use std::marker::Brand;
use std::sync::ledger::{Blank, Ledger};

// Lets feeds take turns, and gathers what is written before it goes to the output.
fn gather<I: Source, O: Sink, L: Ledger>(
    lanes: &mut [Lane],
    feeds: &mut [I],
    session: &mut Session,
    output: &mut O,
    blank: Blank,
) -> Status
    requires new { lanes.old ≡ replicate (length feeds.old) new_lane }
    requires few { length feeds.old ≤ 8 }
    requires stands { HasState session.old }
    requires lines { session.old.lines ≡ 0 }
    requires name { blank.name ≡ L.name }
    requires parts { blank.parts ≡ L.parts }
    requires two { 2 ≤ L.parts }
    ensures { (s : State) → StandsFor session.old s → RanLater result [] s (map I.seen feeds.old) (map I.seen feeds.new) (O.seen output.old) (O.seen output.new) }
{
    let mut steps = Steps::<L>::new(blank);
    let mut gathered = Gathered::new(output);
    let status = take_turns(lanes, feeds, &[], session, &mut gathered, &mut steps);
    let Gathered { sink, held: _held } = gathered;
    // No effect at run time. The proof reads what the output holds from this use.
    let _ = &*sink;
    status
}

// Lets feeds take turns in a fresh session, and counts no steps.
fn answer_all<I: Source, O: Sink>(
    lanes: &mut [Lane],
    feeds: &mut [I],
    session: &mut Session,
    output: &mut O,
) -> Status
    requires new { lanes.old ≡ replicate (length feeds.old) new_lane }
    requires few { length feeds.old ≤ 8 }
    requires stands { HasState session.old }
    requires lines { session.old.lines ≡ 0 }
    ensures { (s : State) → StandsFor session.old s → RanLater result [] s (map I.seen feeds.old) (map I.seen feeds.new) (O.seen output.old) (O.seen output.new) }
{
    gather::<I, O, Brand>(lanes, feeds, session, output, Blank::new(2))
}

// Opens a session that may take so many rows, and lets the feeds take turns in it.
fn run_session<I: Source, O: Sink>(
    alloc: Global,
    limit: u64,
    feeds: &mut [I],
    output: &mut O,
) -> Status
    requires some { 0 < limit }
    requires few { limit ≤ 2 ^ 40 }
    requires feeds { length feeds.old ≤ 8 }
    ensures ran { SessionRan result limit (map I.seen feeds.old) (map I.seen feeds.new) (O.seen output.old) (O.seen output.new) }
    ensures complete { ¬ (SomeRose (map I.seen feeds.old) (map I.seen feeds.new)) → ¬ (Rose (O.seen output.old).faults (O.seen output.new).faults) → IsNoFault result }
    ensures feeds_later { NoneFell (map I.seen feeds.old) (map I.seen feeds.new) }
    ensures later { (O.seen output.old).faults ≤ (O.seen output.new).faults }
{
    let Ok(mut lanes) = open_lanes(alloc, feeds.len()) else {
        return Status::Memory;
    };
    let Ok(mut session) = Session::new(alloc, limit) else {
        return Status::Memory;
    };
    let status = answer_all(&mut lanes, feeds, &mut session, output);
    session.close();
    status
}

// Runs a session over the feeds that words were found to name, behind a script or without one.
fn run_found<I: Source, O: Sink>(
    alloc: Global,
    words: &[String],
    found: &FeedWords,
    feeds: &mut [I],
    output: &mut O,
) -> FeedsEnding
    requires form { AreFound words.now found.now }
    requires many { found_sources found.now ≡ length feeds.old }
    ensures ends { FeedsEnd result.status result.script_failed words.now (map I.seen feeds.old) (map I.seen feeds.new) (O.seen output.old) (O.seen output.new) }
    ensures complete { ¬ (SomeRose (map I.seen feeds.old) (map I.seen feeds.new)) → ¬ (Rose (O.seen output.old).faults (O.seen output.new).faults) → IsNoFault result.status }
    ensures feeds_later { NoneFell (map I.seen feeds.old) (map I.seen feeds.new) }
    ensures output_later { (O.seen output.old).faults ≤ (O.seen output.new).faults }
{
    match found.script {
        None => FeedsEnding {
            status: run_session(alloc, found.limit, feeds, output),
            script_failed: false,
        },
        Some(_) => run_behind(alloc, found.limit, &words[found.first..], feeds, output),
    }
}

/// Runs one session over the feeds, where the words are `feeds [--rows N] [--script FILE] W1 .. Wk` with 2 to 8 words for feeds. The sources are one
/// for each feed, and before them one for the script, where the words name one.
///
/// Behind a script the lines of the script are answered first, from the empty state on, and then each feed gives rows alone, of the streams that its
/// word names: before each of its lines its lock is set, which no number opens. Without a script feeds give all kinds of lines.
///
/// In each round every feed that has not ended gives one line, in order; it is answered before the next turn. A line that is too
/// long is a line. A feed whose source fails ends, and `feed i fault` is written in its turn; the others go on. Lines are numbered
/// as they reach the session, and a fault has no number. What is written is gathered, and written before each read of a source, at
/// the end and where 4,096 bytes are held.
///
/// `FeedsEnd` says of each status what was taken of each source and what was written: for `Done` all bytes of all feeds, and their
/// text behind that of the script; for `ReadFault` the same, where some feeds failed, each of which counted a fault in this call, or, where the ending
/// says so, the text of the script's lines that ended, of which the source counted a fault, and no feed was touched; for `WriteFault` the texts
/// of the events before one event and a front of its text, and no feed was read behind that event; for `Memory` nothing, or the texts of the
/// events before a line that creates a stream or a query; for `ByteLimit` the texts of the events before a turn of a source that has more bytes
/// than can be counted, or that has another line where 2^64 - 2 lines were given. `Usage` comes exactly where the words are none of this form or
/// ask for another number of sources, and then nothing was read or written. `Invalid` does not come.
pub fn run_feeds<I: Source, O: Sink>(
    alloc: Global,
    words: &[String],
    feeds: &mut [I],
    output: &mut O,
) -> FeedsEnding
    ensures ends { FeedsEnd result.status result.script_failed words.now (map I.seen feeds.old) (map I.seen feeds.new) (O.seen output.old) (O.seen output.new) }

    // Where no source and not the sink fails, the status is Done, Memory, ByteLimit or Usage.
    ensures complete { ¬ (SomeRose (map I.seen feeds.old) (map I.seen feeds.new)) → ¬ (Rose (O.seen output.old).faults (O.seen output.new).faults) → IsNoFault result.status }
    ensures feeds_later { NoneFell (map I.seen feeds.old) (map I.seen feeds.new) }
    ensures output_later { (O.seen output.old).faults ≤ (O.seen output.new).faults }
{
    match feeds_of(words) {
        Some(found) => {
            if found.sources() == feeds.len() {
                run_found(alloc, words, &found, feeds, output)
            } else {
                FeedsEnding {
                    status: Status::Usage,
                    script_failed: false,
                }
            }
        }
        None => FeedsEnding {
            status: Status::Usage,
            script_failed: false,
        },
    }
}
