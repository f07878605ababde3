//! Writing what waits of the live queries.
ghost use Rattle.std.specs.Prelude.{◌≡◌, ◌<◌, [], true, length, slice_index_or};
ghost use Rattle.std.specs.List.{flat_map};
ghost use Rattle.io_streams.specs.Sink.{Writes};
ghost use Rattle.exec_answer_lines.specs.Gathering.{Gathers};
ghost use Rattle.exec_registry.specs.Live.{Live};
ghost use Rattle.exec_registry.specs.Registry.{waiting_text};
ghost use Rattle.exec_registry.specs.Written.{GathersNext, WroteAt, WroteFirst};
ghost use Rattle.exec_registry.specs.Waiting.{AreQuiet};

use crate::queries::Queries;
use exec_answer_lines::AnswerLines;
use exec_query_index::{lowest_bit, without_bit};
use io_streams::{Sink, WriteFault};

// Gathers what waits of the live query at a place behind what is gathered, or gives it up where the sink failed before. Where it is alone and
// nothing is gathered, it is written.
#[inline(always)]
fn put_at<O: Sink>(
    gathered: Result<(), WriteFault>,
    is_alone: bool,
    live: &mut Queries,
    place: usize,
    lines: &mut AnswerLines,
    out: &mut O,
) -> Result<(), WriteFault>
    requires there { place < length live.old }
    requires alone { is_alone ≡ true → lines.old ≡ [] }
    ensures gathered { (l : Live) → GathersNext gathered result (O.seen out.old) (O.seen out.new) lines.old lines.new (waiting_text (slice_index_or live.old place l)) }
    ensures written { is_alone ≡ true → lines.new ≡ [] }
    ensures wrote { WroteAt place live.old live.new }
{
    let name = live.names.get_index(place).unwrap();
    let runner = &mut live.runners[place];
    runner.executor.pass(runner.before + live.rows);
    match gathered {
        Ok(()) => runner.executor.emit(is_alone, name, lines, out),
        Err(fault) => {
            runner.executor.give_up();
            Err(fault)
        }
    }
}

// Writes what waits of each live query as `write_all` does, of any number of them. It is not inlined: mostly one query is answered.
#[inline(never)]
fn write_each<O: Sink>(
    live: &mut Queries,
    word: u64,
    lines: &mut AnswerLines,
    out: &mut O,
) -> Result<(), WriteFault>
    requires quiet { AreQuiet word live.old }
    requires none { lines.old ≡ [] }
    ensures written { Writes result (O.seen out.old) (O.seen out.new) (flat_map waiting_text live.old) }
    ensures wrote { WroteFirst (length live.old) live.old live.new }
{
    let mut gathered = Ok(());
    let mut left = word;
    // The places before it are done.
    let mut next = 0;
    'bits: while left != 0 {
        let place = lowest_bit(left);
        left = without_bit(left, place);
        gathered = put_at(gathered, false, live, place, lines, out);
        next = place + 1;
    }
    match gathered {
        Ok(()) => lines.flush(out),
        Err(fault) => Err(fault),
    }
}

/// Writes what waits of each live query, in order of creation, where nothing waits of those that a word has not. Where the sink fails,
/// what is left is given up. The lines are room to work in. It is not inlined, so that a row of which nothing waits pays nothing for it.
#[cold]
#[inline(never)]
pub fn write_all<O: Sink>(
    live: &mut Queries,
    word: u64,
    lines: &mut AnswerLines,
    out: &mut O,
) -> Result<(), WriteFault>
    requires { AreQuiet word live.old }
    ensures written { Writes result (O.seen out.old) (O.seen out.new) (flat_map waiting_text live.old) }
    ensures wrote { WroteFirst (length live.old) live.old live.new }
{
    lines.clear();
    if word == 0 {
        return write_each(live, word, lines, out);
    }
    let place = lowest_bit(word);
    if without_bit(word, place) != 0 {
        // There are others.
        return write_each(live, word, lines, out);
    }
    put_at(Ok(()), true, live, place, lines, out)
}
