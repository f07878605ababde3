//! What is said of a line that is at fault. Of rows that are wrong the first are told, and those behind them are counted alone: a stream that could not be created,
//! a column in another unit, or a lock makes all rows wrong.
ghost use Rattle.std.specs.Prelude.{◌≡◌, ◌+◌, ◌-◌, ◌^◌, ◌<◌};
ghost use Rattle.io_streams.specs.Sink.{Writes};
ghost use Rattle.cmd_advise.specs.Finding as finding;

use crate::state::Advising;
use adv_diagnosis::Fault;
use adv_sentences::write_fault;
use adv_templates::{Filling, Written, write_filled};
use io_streams::Sink;
use sql_parser::{LineKind, classify};

/// Of how many rows it is told what is wrong.
const MOST_ROWS: u64 = 20;

/// What is said of the first row that is counted alone.
const COUNTED: &[u8] =
    b"line _: 20 wrong rows are told above; this one is wrong too, and from here on such rows are counted alone\n";

/// Returns whether a fault of a line is one of a row. Where a lock does not let the line, that is where it is one.
pub fn is_row_fault(line: &[u8], fault: &Fault) -> bool
    ensures { result ≡ finding.is_row_fault line.now fault.now }
{
    match fault {
        Fault::Locked { .. } => matches!(classify(line).0, LineKind::RowLine),
        Fault::RowKey
        | Fault::RowName { .. }
        | Fault::RowStream
        | Fault::Arity { .. }
        | Fault::Value { .. }
        | Fault::Domain { .. } => true,
        _ => false,
    }
}

/// Writes what is said of the next line, which is at fault: what is wrong with it, but of a row behind the first ones by its number alone that such rows are
/// counted, and then nothing.
#[tactic(auto, unfolding(crate::specs::Finding::counted_text))]
pub fn tell_fault<O: Sink>(state: &Advising, line: &[u8], fault: &Fault, out: &mut O) -> Written
    requires { state.now.lines < 2 ^ 64 - 1 }
    ensures { Writes result (O.seen out.old) (O.seen out.new) (finding.told_text state.now line.now fault.now) }
{
    if !is_row_fault(line, fault) || state.rows() < MOST_ROWS {
        write_fault(out, state.lines() + 1, line, fault, &state.known())
    } else if state.rows() == MOST_ROWS {
        write_filled(out, COUNTED, &[Filling::Number(state.lines() + 1)])
    } else {
        Ok(())
    }
}
