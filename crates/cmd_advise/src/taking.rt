//! One line of a script.
ghost use Rattle.std.specs.Prelude.{◌≡◌, ◌-◌, ◌^◌, ◌<◌, ◌≤◌, false, IfOk, OnOk, length};
ghost use Rattle.adv_diagnosis.specs.Faults.{IsReady};
ghost use Rattle.cmd_advise.specs.Finding.{IsFound};
ghost use Rattle.cmd_advise.specs.LineSteps.{TookGiven, TookAsks, TookQuery, TookFault};

use crate::faults::{is_row_fault, tell_fault};
use crate::queries::{AdvisedQuery, write_query};
use crate::state::{Advising, StandingLock};
use adv_diagnosis::{Asks, Fault, Lock, diagnose, diagnose_locked};
use adv_mends::advise;
use io_streams::MemSink;
use sem_query::Query;
use sql_text::Name;
use std::alloc::{AllocError, Global};

// What is found by looking at a line, as a session with the lock that stands reads it.
#[tactic(auto, using(crate::proofs::LineLaws::found_locked, crate::proofs::LineLaws::found_open))]
fn look_at(state: &Advising, line: &[u8]) -> Result<Asks, Fault>
    requires { length line.now ≤ 1024 }
    ensures found { IsFound state.now line.now result }
    ensures ready { IfOk result (IsReady state.now.streams) }
{
    let known = state.known();
    match state.lock() {
        Some(standing) => {
            let lock = Lock {
                line: standing.line,
                key: standing.key,
                streams: standing.streams.as_slice(),
            };
            diagnose_locked(line, &known, &lock)
        }
        None => diagnose(line, &known),
    }
}

// Takes a line that is at fault: what is said of it is put behind what is held, and the line is counted.
#[tactic(auto, using(crate::proofs::LineLaws::fault_told))]
fn take_fault(
    state: &mut Advising,
    line: &[u8],
    fault: &Fault,
    held: &mut MemSink,
) -> Result<(), AllocError>
    requires { state.old.lines < 2 ^ 64 - 1 }
    ensures { OnOk result (TookFault line.now fault.now state.old state.new held.old.bytes held.new.bytes) }
{
    if tell_fault(state, line, fault, held).is_err() {
        return Err(AllocError);
    }
    state.count_fault(is_row_fault(line, fault));
    Ok(())
}

// Takes a line that asks for a query: it is advised on, and what is said of it is put behind what is held.
#[tactic(auto, using(crate::proofs::LineLaws::query_taken))]
fn take_query(
    alloc: Global,
    state: &mut Advising,
    name: Name,
    query: Query,
    shared: bool,
    held: &mut MemSink,
) -> Result<(), AllocError>
    requires { state.old.lines < 2 ^ 64 - 1 }
    ensures { OnOk result (TookQuery name query shared state.old state.new held.old.bytes held.new.bytes) }
{
    let advice = advise(alloc, &query, shared)?;
    let advised = AdvisedQuery {
        number: state.lines() + 1,
        name,
        query,
        advice,
        free: state.free(),
    };
    match write_query(held, &advised, state.known().catalog) {
        Ok(()) => state.add_query(advised.name, advised.advice.judgement),
        Err(_) => Err(AllocError),
    }
}

// Takes a line that asks for this.
fn take_asks(
    alloc: Global,
    state: &mut Advising,
    asks: Asks,
    held: &mut MemSink,
) -> Result<(), AllocError>
    requires lines { state.old.lines < 2 ^ 64 - 1 }
    requires ready { IsReady state.old.streams asks }
    ensures { OnOk result (TookAsks asks state.old state.new held.old.bytes held.new.bytes) }
{
    match asks {
        Asks::Query {
            name,
            query,
            shared,
        } => return take_query(alloc, state, name, query, shared, held),
        Asks::Stream { name, columns } => state.add_stream(name, columns.as_slice()),
        Asks::Drop(name) => state.drop_query(&name),
        Asks::Lock { key, streams } => {
            let line = state.lines() + 1;
            state.set_lock(Some(StandingLock { line, key, streams }));
        }
        Asks::Unlock => state.set_lock(None),
        Asks::Nothing | Asks::Row | Asks::Explain | Asks::Other => state.count_line(),
    }
    Ok(())
}

/// Takes the next line of a script, of which nothing is shown where it is too long: the streams and the live queries are those behind it, and what is said of it
/// is put behind what is held. `AllocError` where no memory is found.
#[tactic(auto, using(crate::proofs::LineLaws::asks_taken, crate::proofs::LineLaws::fault_taken))]
pub fn take_given(
    alloc: Global,
    long: bool,
    state: &mut Advising,
    line: &[u8],
    held: &mut MemSink,
) -> Result<(), AllocError>
    requires lines { state.old.lines < 2 ^ 64 - 1 }
    requires short { long ≡ false → length line.now ≤ 1024 }
    ensures { OnOk result (TookGiven long line.now state.old state.new held.old.bytes held.new.bytes) }
{
    if long {
        return take_fault(state, b"", &Fault::LineTooLong, held);
    }
    match look_at(state, line) {
        Ok(asks) => take_asks(alloc, state, asks, held),
        Err(fault) => take_fault(state, line, &fault, held),
    }
}
