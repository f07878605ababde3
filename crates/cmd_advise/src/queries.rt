//! What is said of a query.
ghost use Rattle.io_streams.specs.Sink.{Writes};
ghost use Rattle.cmd_advise.specs.Queries as queries;

use crate::changes::{write_changes, write_lifting, write_mends, write_same};
use crate::parts::{write_chains, write_dearest};
use crate::state::page_count;
use adv_lines::{
    Names, names_of, write_above, write_numbers, write_pool, write_query_line, write_violation,
};
use adv_mends::{Judgement, QueryAdvice};
use adv_templates::Written;
use io_streams::Sink;
use sem_query::{Numbers, Query};
use sql_catalog::Catalog;
use sql_text::Name;

/// What is said of a query of no part.
const NEVER: &[u8] = b" never answers: its comparisons contradict each other\n";

/// What is said of a filter that answers no row.
const NO_ROW: &[u8] = b" never answers: no row meets its comparisons\n";

/// What is said of a query of too many parts.
const MANY: &[u8] =
    b" is refused: it has more than 4096 parts, each an order of its columns and integers: use fewer of them\n";

/// Nothing, where the numbers of a query follow.
const NO_MORE: &[u8] = b"";

/// A query of a script, with what is advised on it.
#[derive(Drop)]
pub struct AdvisedQuery {
    /// The number of its line, from 1.
    pub number: u64,
    pub name: Name,
    pub query: Query,
    pub advice: QueryAdvice,
    /// How many pages are free beside those of the live queries.
    pub free: u32,
}

// What is said of the line of a query.
fn write_said<O: Sink>(out: &mut O, told: &AdvisedQuery, said: &[u8]) -> Written
    ensures { Writes result (O.seen out.old) (O.seen out.new) (queries.said_line told.now said.now) }
{
    write_query_line(out, told.number, &told.name, said)
}

// A query that is within the limits, and so accepted where its pages are free.
#[tactic(auto, using(crate::proofs::Texts::writes_behind, crate::proofs::Texts::broke_off, crate::proofs::Texts::stopped))]
fn write_valid<O: Sink>(out: &mut O, told: &AdvisedQuery, of: Numbers, names: &Names<'_>) -> Written
    ensures { Writes result (O.seen out.old) (O.seen out.new) (queries.accepted_text names.now.catalog.now names.now.from.now told.now of) }
{
    let needed = page_count(of.cells);
    if told.free < needed {
        write_pool(out, told.number, &told.name, needed, told.free)?;
        write_dearest(out, told.advice.dearest.as_slice(), names)?;
        write_changes(out, &told.advice, names)
    } else if of.parts == 0 {
        write_said(out, told, NEVER)
    } else if of.parts == 1 {
        Ok(())
    } else {
        write_said(out, told, NO_MORE)?;
        write_numbers(out, of)?;
        write_dearest(out, told.advice.dearest.as_slice(), names)?;
        write_same(out, &told.advice)
    }
}

// The parts that keep the most cells, and what lifts the limit that refuses the query.
#[tactic(auto, using(crate::proofs::Texts::writes_behind, crate::proofs::Texts::broke_off, crate::proofs::Texts::stopped))]
fn write_limit<O: Sink>(out: &mut O, told: &AdvisedQuery, names: &Names<'_>) -> Written
    ensures { Writes result (O.seen out.old) (O.seen out.new) (queries.limit_of names.now.catalog.now names.now.from.now told.now) }
{
    write_dearest(out, told.advice.dearest.as_slice(), names)?;
    write_lifting(out, &told.advice, names)
}

/// Writes what is said of a query over these streams: nothing where it is accepted and has one part; its numbers, where they are within the limits,
/// or why it is refused, and then the parts that keep the most cells, or what the part orders that breaks a condition, and the changes that would better
/// or mend it.
#[tactic(auto, using(crate::proofs::Texts::writes_behind, crate::proofs::Texts::broke_off, crate::proofs::Texts::stopped))]
pub fn write_query<O: Sink>(out: &mut O, told: &AdvisedQuery, catalog: &Catalog) -> Written
    ensures { Writes result (O.seen out.old) (O.seen out.new) (queries.query_text catalog.now told.now) }
{
    let (number, name, advice) = (told.number, &told.name, &told.advice);
    let from = told.query.from();
    let names = Names { from, catalog };
    match advice.judgement {
        Judgement::Filter if advice.never => write_said(out, told, NO_ROW),
        Judgement::Filter => Ok(()),
        Judgement::Accepted(numbers) => write_valid(out, told, numbers, &names),
        Judgement::Above { which, value } => {
            write_above(out, number, name, which, value)?;
            write_limit(out, told, &names)
        }
        Judgement::Violation {
            part,
            condition,
            attr,
        } => {
            let column = names_of(attr, &names);
            let distinct = told.query.distinct();
            write_violation(out, number, name, part, distinct, condition, column)?;
            write_chains(out, part, advice.chains.as_slice(), &names)?;
            write_mends(out, advice, &names)
        }
        Judgement::ManyParts => {
            write_said(out, told, MANY)?;
            write_limit(out, told, &names)
        }
    }
}
