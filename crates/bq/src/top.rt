//! The one top call of the program.
ghost use Rattle.std.specs.Prelude.{◌≡◌, ◌≤◌, map};
ghost use Rattle.std.specs.String.{string_bytes};
ghost use Rattle.io_streams.specs.Counts.{Rose};
ghost use Rattle.cmd_session.specs.Run.{IsNoFault};
ghost use Rattle.cmd_dispatch.specs.Files.{NoneFell, SomeRose};
ghost use Rattle.bq.specs.Serve.{asks_feeds, file_name, file_place, Served};

use crate::errors::tell;
use cmd_dispatch::{Ended, run};
use cmd_feeds::run_feeds;
use cmd_session::is_word;
use io_streams::{Sink, Source, Status};
use std::alloc::Global;

// Whether the first word is `feeds`.
fn asks_feeds(words: &[String]) -> bool
    ensures { result ≡ asks_feeds (map string_bytes words.now) }
{
    match words {
        [first, ..] => is_word(first, "feeds"),
        _ => false,
    }
}

// The place of the word that names the file which is read first, where the words name one: the script of feeds, or the last word.
fn file_place(words: &[String]) -> usize
    ensures { result ≡ file_place (map string_bytes words.now) }
{
    match words {
        [first, option, ..] => {
            if !is_word(first, "feeds") {
                words.len() - 1
            } else if is_word(option, "--script") {
                2
            } else {
                4
            }
        }
        [first] => { if is_word(first, "feeds") { 4 } else { 0 } }
        [] => 0,
    }
}

// The name of the file that is read first, where the words name one.
fn file_name(words: &[String]) -> &[u8]
    ensures { result.now ≡ file_name (map string_bytes words.now) }
{
    match words.get(file_place(words)) {
        Some(word) => word.as_bytes(),
        None => b"",
    }
}

/// Does all that the program does over the words after its name. Where the first word is `feeds` it runs a session over the feeds, as
/// `run_feeds`, and does not touch the input; otherwise it does what `run` does. `feeds` has the files that the words name: FILE, or the script,
/// first.
///
/// Two texts are written to `errors`, and nothing else: two lines where the words are none of the forms, and one line where FILE or the script
/// failed. Where `errors` fails, a front of them was written, and all else is the same.
pub fn serve<I: Source, F: Source, O: Sink, E: Sink>(
    alloc: Global,
    words: &[String],
    input: &mut I,
    feeds: &mut [F],
    output: &mut O,
    errors: &mut E,
) -> Status
    ensures serves { Served result words.now (I.seen input.old) (I.seen input.new) (map F.seen feeds.old) (map F.seen feeds.new)
        (O.seen output.old) (O.seen output.new) (E.seen errors.old) (E.seen errors.new) }

    // Where neither the input nor a feed nor the output fails, the status is Done, Invalid, Memory, ByteLimit or Usage.
    ensures complete { ¬ (Rose (I.seen input.old).faults (I.seen input.new).faults) → ¬ (SomeRose (map F.seen feeds.old) (map F.seen feeds.new))
        → ¬ (Rose (O.seen output.old).faults (O.seen output.new).faults) → IsNoFault result }
    ensures input_later { (I.seen input.old).faults ≤ (I.seen input.new).faults }
    ensures feeds_later { NoneFell (map F.seen feeds.old) (map F.seen feeds.new) }
    ensures output_later { (O.seen output.old).faults ≤ (O.seen output.new).faults }
{
    if asks_feeds(words) {
        let ending = run_feeds(alloc, words, feeds, output);
        let ended = Ended {
            status: ending.status,
            file_failed: ending.script_failed,
        };
        tell(ended, file_name(words), errors);
        return ended.status;
    }
    let ended = run(alloc, words, input, feeds, output);
    tell(ended, file_name(words), errors);
    ended.status
}
