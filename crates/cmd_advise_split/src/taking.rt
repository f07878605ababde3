//! Lines of a script, taken one after another.
ghost use Rattle.std.specs.Prelude.{◌≡◌, ◌<◌, ◌-◌, ◌^◌, None, IfOk, OnOk};
ghost use Rattle.sem_query.specs.Parts.{HasMoreParts};
ghost use Rattle.plan_parts.specs.Split.{OnTooMany};
ghost use Rattle.adv_diagnosis.specs.Faults.{IsDiagnosis, IsReady};
ghost use Rattle.cmd_advise_split.specs.Limited.{IsKnown};
ghost use Rattle.cmd_advise_split.specs.Steps.{TakesQuery, TakesAsks, TakesLine, TakesGiven};

use crate::state::Splitting;
use adv_diagnosis::{Asks, Fault, Known, diagnose, word_of};
use adv_key_choices::KeyedQuery;
use adv_key_decision::classes;
use adv_key_ranges::limit_of;
use plan_parts::{SplitError, split};
use sem_query::Query;
use sql_replies::Refusal;
use sql_text::Name;
use std::alloc::{AllocError, Global};

// A query with the classes of its columns, and the limit that refuses it, where it has no more than 4,096 parts.
fn keyed_query(alloc: Global, query: Query, shared: bool) -> Result<KeyedQuery, SplitError>
    ensures query { IfOk result (λ keyed. keyed.query ≡ query) }
    ensures shared { IfOk result (λ keyed. keyed.shared ≡ shared) }
    ensures known { IfOk result IsKnown }
    ensures over { OnTooMany result (HasMoreParts query 4096) }
{
    match split(alloc, &query) {
        Ok(parts) => {
            let classes = classes(&query, parts.as_slice());
            match limit_of(alloc, &query, shared) {
                Ok(limit) => Ok(KeyedQuery {
                    query,
                    classes,
                    shared,
                    limit,
                }),
                Err(_) => Err(SplitError::Memory),
            }
        }
        Err(error) => Err(error),
    }
}

// Takes a line that asks for a query.
fn take_query(
    alloc: Global,
    state: &mut Splitting,
    name: Name,
    query: Query,
    shared: bool,
) -> Result<(), AllocError>
    requires { state.old.lines < 2 ^ 64 - 1 }
    ensures { OnOk result (TakesQuery state.old name query shared state.new) }
{
    match keyed_query(alloc, query, shared) {
        Ok(keyed) => state.add_query(name, keyed),
        Err(SplitError::TooManyParts) => {
            state.stop_at(Refusal::Limit);
            Ok(())
        }
        Err(SplitError::Memory) => Err(AllocError),
    }
}

// Takes a line that asks for this.
fn take_asks(alloc: Global, state: &mut Splitting, asks: Asks) -> Result<(), AllocError>
    requires lines { state.old.lines < 2 ^ 64 - 1 }
    requires ready { IsReady state.old.streams asks }
    ensures { OnOk result (TakesAsks state.old asks state.new) }
{
    match asks {
        Asks::Query {
            name,
            query,
            shared,
        } => return take_query(alloc, state, name, query, shared),
        Asks::Stream { name, columns } => state.add_stream(name, columns.as_slice()),
        Asks::Drop(name) => state.drop_query(&name),
        Asks::Nothing
        | Asks::Row
        | Asks::Explain
        | Asks::Other
        | Asks::Lock { .. }
        | Asks::Unlock => state.count_line(),
    }
    Ok(())
}

// What a line asks for, as an open session reads it.
fn look_at(state: &Splitting, line: &[u8]) -> Result<Asks, Fault>
    ensures found { IsDiagnosis state.now.streams state.now.names line.now result }
    ensures ready { IfOk result (IsReady state.now.streams) }
{
    let known = Known {
        catalog: state.catalog(),
        live: state.names(),
    };
    diagnose(line, &known)
}

// Takes a line behind lines of which none is refused.
fn take_looked(alloc: Global, state: &mut Splitting, line: &[u8]) -> Result<(), AllocError>
    requires lines { state.old.lines < 2 ^ 64 - 1 }
    requires stop { state.old.stop ≡ None }
    ensures { OnOk result (TakesLine state.old line.now state.new) }
{
    match look_at(state, line) {
        Ok(asks) => take_asks(alloc, state, asks),
        Err(fault) => {
            state.stop_at(word_of(&fault));
            Ok(())
        }
    }
}

/// Takes the next line of a script, which is not looked at where one before it is refused; nor is one of more than 1,024 bytes. `AllocError` where no memory
/// is found.
pub fn take_given(
    alloc: Global,
    long: bool,
    state: &mut Splitting,
    line: &[u8],
) -> Result<(), AllocError>
    requires { state.old.lines < 2 ^ 64 - 1 }
    ensures { OnOk result (TakesGiven long line.now state.old state.new) }
{
    match state.stop() {
        Some(_) => {
            state.count_line();
            Ok(())
        }
        None => {
            if long {
                state.stop_at(Refusal::LineTooLong);
                return Ok(());
            }
            take_looked(alloc, state, line)
        }
    }
}
