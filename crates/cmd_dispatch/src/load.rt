//! A session over a generated script, of which a summary alone is written.
ghost use Rattle.std.specs.Prelude.{◌≡◌, ℕ, ◌+◌, ◌<◌, ◌≤◌, ◌^◌, IfSome, length};
ghost use Rattle.cmd_session.specs.State.{State};
ghost use Rattle.cmd_session.specs.Session.{StandsFor};
ghost use Rattle.cmd_dispatch.specs.Load.{start, LoadEnds};
ghost use Rattle.cmd_dispatch.specs.Loading.{Counted, AnsweredScript};

use crate::summary::{line_count, summary};
use cmd_load::LoadScript;
use cmd_session::{LineOutcome, Session};
use exec_pool::Steps;
use io_streams::{MemSink, Sink, Status, write_all};
use std::alloc::Global;
use std::marker::Brand;
use std::sync::ledger::{Blank, Ledger};

// Answers a line, and counts the lines of its reply. The reply goes to a sink in memory, of which no call is to fail, so it
// fails for want of memory alone: then there is no count.
fn reply_lines<L: Ledger>(
    alloc: Global,
    session: &mut Session,
    line: &[u8],
    steps: &mut Steps<L>,
) -> Option<u64>
    requires short { length line.now ≤ 1024 }
    requires few { session.old.lines + 1 < 2 ^ 64 }
    ensures counted { IfSome result (λ n. (s : State) → StandsFor session.old s → Counted s line.now session.new n) }
    ensures few { IfSome result (λ n. n < 2 ^ 64) }
{
    let Ok(mut reply) = MemSink::new(alloc, usize::MAX, &[]) else {
        return None;
    };
    match session.line(line, &mut reply, steps) {
        LineOutcome::Done => Some(line_count(reply.bytes())),
        LineOutcome::WriteFault => None,
        LineOutcome::Memory => None,
    }
}

// Answers the lines of a script, and counts the lines of all replies.
fn answer_lines<L: Ledger>(
    alloc: Global,
    script: &mut LoadScript,
    session: &mut Session,
    steps: &mut Steps<L>,
) -> Option<u128>
    requires stands { StandsFor session.old start }
    requires few { length script.old ≤ 2 ^ 33 }
    ensures { IfSome result (λ lines. AnsweredScript script.old session.new lines) }
{
    let mut lines = 0u128;
    'answering: while let Some(line) = script.next() {
        match reply_lines(alloc, session, line.as_slice(), steps) {
            Some(more) => lines += u128::from(more),
            None => return None,
        }
    }
    Some(lines)
}

// Answers the lines of a script, and counts the lines of all replies; the steps are counted by a ledger of their own.
fn answer_script<L: Ledger>(
    alloc: Global,
    script: &mut LoadScript,
    session: &mut Session,
    blank: Blank,
) -> Option<u128>
    requires stands { StandsFor session.old start }
    requires few { length script.old ≤ 2 ^ 33 }
    requires name { blank.name ≡ L.name }
    requires parts { blank.parts ≡ L.parts }
    requires two { 2 ≤ L.parts }
    ensures { IfSome result (λ lines. AnsweredScript script.old session.new lines) }
{
    let mut steps = Steps::<L>::new(blank);
    answer_lines(alloc, script, session, &mut steps)
}

/// Answers the script of so many rows in a fresh session, and writes the summary by one call where the sink takes all. Where no
/// memory is found, nothing is written.
pub fn load<O: Sink>(alloc: Global, rows: u32, output: &mut O) -> Status
    ensures ends { LoadEnds result rows (O.seen output.old) (O.seen output.new) }
    ensures output_later { (O.seen output.old).faults ≤ (O.seen output.new).faults }
{
    let Ok(mut session) = Session::new(alloc, Session::MOST_ROWS) else {
        return Status::Memory;
    };
    let mut script = LoadScript::new(rows);
    let answered = answer_script::<Brand>(alloc, &mut script, &mut session, Blank::new(2));
    let announced = session.announced();
    session.close();
    match answered {
        None => Status::Memory,
        Some(lines) => match write_all(output, summary(rows, lines, announced).as_slice()) {
            Ok(()) => Status::Done,
            Err(_) => Status::WriteFault,
        },
    }
}
