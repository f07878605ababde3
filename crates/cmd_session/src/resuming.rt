//! RESUME lines: what a session goes on from. A line that a word refuses sets nothing.
ghost use Rattle.std.specs.Prelude.{◌≡◌, ◌≤◌, ◌<◌, ◌+◌, ◌^◌, ℕ, Some, true, false, length, MatchOption, MatchResult, IfOk};
ghost use Rattle.std.specs.List.{position};
ghost use Rattle.std.specs.Str.{bytes_eq};
ghost use Rattle.exec_registry.specs.Registry.{IsQuiet, GivenUpto, KeepQueries, most_cells};
ghost use Rattle.cmd_session.specs.Request.{resumed, refused};
ghost use Rattle.cmd_session.specs.Requests as requests;
ghost use Rattle.cmd_session.specs.Requests.{natural, count_request, given_request, cell_request, tuple_request};
ghost use Rattle.cmd_session.specs.Resuming.{IsStanding, Sets, place_to_set};
ghost use Rattle.cmd_session.specs.State.{State};
ghost use Rattle.sql_replies.specs.declared.refusal.Refusal.TheVariants as words;

use crate::announced::announced_by_plan;
use exec_pool::Steps;
use exec_registry::Registry;
use sem_query::Tuple;
use sql_replies::Refusal;
use sql_text::Name;
use std::sync::ledger::Ledger;

/// Returns how many rows count as taken after `RESUME n`, or the first word that refuses the line.
pub fn rows_to_resume(began: bool, taken: u64, limit: u64, rows: i64) -> Result<u64, Refusal>
    requires { limit ≤ 2 ^ 40 }
    ensures request { MatchResult result (λ n. count_request began taken limit rows ≡ resumed n) (λ word. count_request began taken limit rows ≡ refused word) }
    ensures within { IfOk result (λ n. n ≤ limit) }
    ensures none { IfOk result (λ _. taken ≡ 0) }
{
    if began || taken != 0 {
        return Err(Refusal::Late);
    }
    if rows < 0 {
        return Err(Refusal::Value);
    }
    if (limit as i64) < rows {
        return Err(Refusal::RowLimit);
    }
    Ok(rows as u64)
}

// The place of the live query that a line sets something of, or the first word that refuses the line.
fn place_of(registry: &Registry, began: bool, name: &Name) -> Result<usize, Refusal>
    ensures place { result ≡ place_to_set began (position (λ l. bytes_eq l.name name.now) registry.now.live) }
    ensures there { IfOk result (λ place. place < length registry.now.live) }
{
    match registry.find(name) {
        Some(place) => { if began { Err(Refusal::Late) } else { Ok(place) } }
        None => Err(Refusal::UnknownQuery),
    }
}

// Whether a load was taken, as an answer to its line.
fn taken_or_value(taken: bool) -> Result<(), Refusal>
    ensures { MatchResult result (λ _. taken ≡ true) (λ word. (taken ≡ false) × (word ≡ words.Value)) }
{
    if taken { Ok(()) } else { Err(Refusal::Value) }
}

// The natural number that an integer is, where it is one and is not above `most`.
fn natural_upto(most: u64, integer: i64) -> Option<u64>
    ensures { result ≡ requests.natural_upto most integer }
{
    if 0 <= integer && integer as u64 <= most {
        Some(integer as u64)
    } else {
        None
    }
}

/// Says how many rows were given to the live query of a name, of as many as were taken at most.
pub fn set_given(
    registry: &mut Registry,
    began: bool,
    taken: u64,
    name: &Name,
    rows: i64,
) -> Result<(), Refusal>
    requires { taken ≤ 2 ^ 40 }
    ensures sets { (s : State) → IsStanding registry.old began s → taken ≡ s.taken → Sets result (given_request s name.now rows) s.queries registry.old registry.new }
    ensures quiet { IsQuiet registry.old → IsQuiet registry.new }
    ensures given { GivenUpto taken registry.old → GivenUpto taken registry.new }
    ensures queries { KeepQueries registry.old.live registry.new.live }
    ensures pages { registry.new.pool.pages ≡ registry.old.pool.pages }
{
    let place = match place_of(registry, began, name) {
        Ok(place) => place,
        Err(word) => return Err(word),
    };
    // No effect at run time. The proof reads from this call that what runs the query is sound.
    let _distinct = registry.executor(place).query().distinct();
    match natural_upto(taken, rows) {
        Some(n) => taken_or_value(registry.load_given(place, n)),
        None => Err(Refusal::Value),
    }
}

// The number of a cell that an integer is, where there is such a cell.
fn cell_number(cells: u64, index: i64) -> Option<u32>
    requires { cells < 2 ^ 32 }
    ensures { MatchOption result ((n : ℕ) → natural index ≡ Some n → cells ≤ n) (λ i. natural index ≡ Some i) }
{
    if 0 <= index && (index as u64) < cells {
        Some(index as u32)
    } else {
        None
    }
}

/// Sets the content of a cell of the live query of a name.
pub fn set_cell<L: Ledger>(
    registry: &mut Registry,
    began: bool,
    name: &Name,
    index: i64,
    content: i64,
    steps: &mut Steps<L>,
) -> Result<(), Refusal>
    ensures sets { (s : State) → IsStanding registry.old began s → Sets result (cell_request s name.now index content) s.queries registry.old registry.new }
    ensures quiet { IsQuiet registry.old → IsQuiet registry.new }
    ensures given { (n : ℕ) → GivenUpto n registry.old → GivenUpto n registry.new }
    ensures queries { KeepQueries registry.old.live registry.new.live }
    ensures reads { steps.new.reads ≤ steps.old.reads + most_cells registry.old.live }
    ensures writes { steps.new.writes ≤ steps.old.writes + most_cells registry.old.live }
    ensures pages { registry.new.pool.pages ≡ registry.old.pool.pages }
{
    let place = match place_of(registry, began, name) {
        Ok(place) => place,
        Err(word) => return Err(word),
    };
    // No effect at run time. The proof reads from this call that what runs the query is sound.
    let _distinct = registry.executor(place).query().distinct();
    let cells = announced_by_plan(registry.plan(place)).cells;
    match cell_number(cells, index) {
        Some(i) => taken_or_value(registry.load_cell(place, i, content, steps)),
        None => Err(Refusal::Value),
    }
}

/// Puts a tuple among those that the live query of a name has printed.
pub fn set_tuple(
    registry: &mut Registry,
    began: bool,
    name: &Name,
    values: &Tuple,
) -> Result<(), Refusal>
    ensures sets { (s : State) → IsStanding registry.old began s → Sets result (tuple_request s name.now values.now.items) s.queries registry.old registry.new }
    ensures quiet { IsQuiet registry.old → IsQuiet registry.new }
    ensures given { (n : ℕ) → GivenUpto n registry.old → GivenUpto n registry.new }
    ensures queries { KeepQueries registry.old.live registry.new.live }
    ensures pages { registry.new.pool.pages ≡ registry.old.pool.pages }
{
    let place = match place_of(registry, began, name) {
        Ok(place) => place,
        Err(word) => return Err(word),
    };
    if values.as_slice().len() != registry.executor(place).query().select().len() {
        return Err(Refusal::Arity);
    }
    taken_or_value(registry.load_tuple(place, values))
}
