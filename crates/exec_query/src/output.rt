//! Writing the answers that wait.
ghost use Rattle.std.specs.Prelude.{◌≡◌, []};
ghost use Rattle.io_streams.specs.Sink.{Writes};
ghost use Rattle.exec_answer_lines.specs.Gathering.{Gathers};
ghost use Rattle.exec_query.specs.Executor.{spelled};
ghost use Rattle.exec_query.specs.Written.{answer_lines};

use exec_answer_lines::AnswerLines;
use exec_answer_table::Answers;
use io_streams::{Sink, WriteFault};
use sql_text::Name;

// Writes a line for each answer that waits in a table, whatever its entries are. It is not inlined: mostly there is one entry.
#[inline(never)]
fn put_listed<O: Sink>(
    table: &Answers,
    name: &Name,
    lines: &mut AnswerLines,
    out: &mut O,
) -> Result<(), WriteFault>
    ensures written { Writes result (O.seen out.old) (O.seen out.new) (answer_lines name.now (spelled table.now.entries)) }
    ensures same { lines.new ≡ lines.old }
{
    'entries: for place in 0..table.waiting_len() {
        let found = table.waiting_entry(place);
        let (tuple, times) = found;
        match lines.write(name, tuple, &times, out) {
            Ok(()) => {}
            Err(fault) => return Err(fault),
        }
    }
    Ok(())
}

/// Gathers a line for each answer that waits in a table, in ascending order, behind what is gathered, of which some may be written. It is not
/// inlined: mostly there is one entry.
#[inline(never)]
pub fn gather_listed<O: Sink>(
    table: &Answers,
    name: &Name,
    lines: &mut AnswerLines,
    out: &mut O,
) -> Result<(), WriteFault>
    ensures gathers { Gathers result (O.seen out.old) (O.seen out.new) lines.old lines.new (answer_lines name.now (spelled table.now.entries)) }
    ensures none { lines.new ≡ [] }
{
    match lines.flush(out) {
        Ok(()) => put_listed(table, name, lines, out),
        Err(fault) => Err(fault),
    }
}
