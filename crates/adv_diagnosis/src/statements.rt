//! What is found for a statement.
ghost use Rattle.std.specs.Prelude.{◌≡◌, ◌<◌, None, All, IfOk, length};
ghost use Rattle.sql_catalog.specs.Streams.{HasEnds};
ghost use Rattle.sql_parser.specs.Grammar.{IsWhole};
ghost use Rattle.sql_parser.specs.Limits.{limit_of};
ghost use Rattle.sql_parser.specs.Resolution.{IsTaken};
ghost use Rattle.sql_parser.specs.declared.tree.Statement.TheVariants.{CreateStream, CreateQuery, Lock};
ghost use Rattle.adv_diagnosis.specs.Asked as asking;
ghost use Rattle.adv_diagnosis.specs.Faults.{IsStatementDiagnosis, IsReady, live_found};

use crate::fault::{Asks, Diagnosis, Fault, Known};
use crate::names::{has_stream, names_of_columns, query_fault, repeated_name, unknown_stream};
use arrayvec::ArrayVec;
use sql_catalog::ColumnDef;
use sql_parser::{SelectAst, Statement, resolve};
use sql_text::Name;

/// The most live queries.
const MOST_QUERIES: usize = 64;

// Whether a live query has the name.
fn is_live(name: &Name, live: &[Name]) -> bool
    ensures { result ≡ asking.is_live live.now name.now }
{
    live.iter().any(|other| *other == *name)
}

// What is found for CREATE STREAM.
fn diagnose_stream(name: Name, columns: ArrayVec<ColumnDef, 8>, known: &Known<'_>) -> Diagnosis
    requires some { 0 < length columns.items }
    requires domains { All (λ c. HasEnds c.domain) columns.items }
    ensures found { IsStatementDiagnosis known.now.catalog.now known.now.live.now (CreateStream name columns) result }
    ensures ready { IfOk result (IsReady known.now.catalog.now) }
{
    if has_stream(&name, known.catalog) {
        return Err(Fault::DuplicateStream { name });
    }
    let names = names_of_columns(columns.as_slice());
    if let Some(name) = repeated_name(names.as_slice()) {
        return Err(Fault::DuplicateColumn { name });
    }
    if known.catalog.is_full() {
        return Err(Fault::TooManyStreams);
    }
    Ok(Asks::Stream { name, columns })
}

// What is found for CREATE QUERY.
fn diagnose_query(name: Name, select: SelectAst, shared: bool, known: &Known<'_>) -> Diagnosis
    requires { IsTaken select }
    ensures found { IsStatementDiagnosis known.now.catalog.now known.now.live.now (CreateQuery name select shared) result }
    ensures ready { IfOk result (IsReady known.now.catalog.now) }
{
    if is_live(&name, known.live) {
        return Err(Fault::DuplicateQuery { name });
    }
    if MOST_QUERIES <= known.live.len() {
        return Err(Fault::TooManyQueries);
    }
    if let Some(fault) = query_fault(&select, known.catalog) {
        return Err(fault);
    }
    match resolve(&select, known.catalog) {
        Ok(query) => Ok(Asks::Query {
            name,
            query,
            shared,
        }),
        Err(_) => unreachable!(),
    }
}

// What is found for a statement that asks for a live query by its name.
fn diagnose_live(name: Name, asks: Asks, live: &[Name]) -> Diagnosis
    ensures { result ≡ live_found live.now name asks }
{
    if is_live(&name, live) {
        Ok(asks)
    } else {
        Err(Fault::NoQuery { name })
    }
}

// What is found for LOCK.
fn diagnose_lock(key: Option<i64>, streams: ArrayVec<Name, 16>, known: &Known<'_>) -> Diagnosis
    ensures found { IsStatementDiagnosis known.now.catalog.now known.now.live.now (Lock key streams) result }
    ensures ready { IfOk result (IsReady known.now.catalog.now) }
{
    if let Some(name) = repeated_name(streams.as_slice()) {
        return Err(Fault::LockTwice { name });
    }
    if let Some(name) = unknown_stream(streams.as_slice(), known.catalog) {
        return Err(Fault::LockNoStream { name: *name });
    }
    Ok(Asks::Lock { key, streams })
}

/// Returns what a statement within the limits asks for over the streams and the live queries, or what is wrong with it.
pub fn diagnose_statement(statement: Statement, known: &Known<'_>) -> Diagnosis
    requires whole { IsWhole statement }
    requires within { limit_of statement ≡ None }
    ensures found { IsStatementDiagnosis known.now.catalog.now known.now.live.now statement result }
    ensures ready { IfOk result (IsReady known.now.catalog.now) }
{
    match statement {
        Statement::CreateStream { name, columns } => diagnose_stream(name, columns, known),
        Statement::CreateQuery {
            name,
            select,
            shared,
        } => diagnose_query(name, select, shared, known),
        Statement::Explain { name } => diagnose_live(name, Asks::Explain, known.live),
        Statement::DropQuery { name } => diagnose_live(name, Asks::Drop(name), known.live),
        Statement::Checkpoint | Statement::ResumeRows { .. } => Ok(Asks::Other),
        Statement::ResumeGiven { name, .. } => diagnose_live(name, Asks::Other, known.live),
        Statement::ResumeCell { name, .. } => diagnose_live(name, Asks::Other, known.live),
        Statement::ResumeTuple { name, .. } => diagnose_live(name, Asks::Other, known.live),
        Statement::Lock { key, streams } => diagnose_lock(key, streams, known),
        Statement::Unlock { .. } => Err(Fault::NoLock),
    }
}
