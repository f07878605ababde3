//! The text of what is found.
ghost use Rattle.std.specs.Prelude.{◌++◌, ◌∷◌};
ghost use Rattle.std.specs.List.{flat_map};
ghost use Rattle.io_streams.specs.Sink.{Writes};
ghost use Rattle.cmd_advise_split.specs.Text as text;

use crate::finding::{Finding, Found};
use crate::lines::{write_query, write_stream};
use crate::ranges::write_ranges;
use crate::told::ToldChoice;
use adv_key_choices::Choice;
use adv_key_decision::Judgement;
use adv_key_ranges::Ranges;
use adv_templates::Written;
use io_streams::{Sink, write_all, write_pieces};
use itoa::Buffer;
use sql_catalog::Catalog;
use sql_text::Name;

// All streams, as a choice deals them.
fn write_deal<O: Sink>(out: &mut O, catalog: &Catalog, choice: &Choice) -> Written
    ensures { Writes result (O.seen out.old) (O.seen out.new) (text.deal_text catalog.now choice.now) }
{
    for number in 0..catalog.len() {
        write_stream(out, catalog, choice, number)?;
    }
    Ok(())
}

// A query, how its shards answer, and what is said of its ranges.
#[tactic(auto, using(sql_explain::proofs::Writers::writes_after, sql_explain::proofs::Writers::broke, sql_explain::proofs::Writers::stopped))]
fn write_one<O: Sink>(out: &mut O, name: &[u8], how: Judgement, ranges: &Option<Ranges>) -> Written
    ensures { Writes result (O.seen out.old) (O.seen out.new) (text.one_query_text name.now how ranges.now) }
{
    write_query(out, name, how)?;
    write_ranges(out, ranges)
}

// The queries, in the order of their lines.
fn write_queries<O: Sink>(
    out: &mut O,
    names: &[Name],
    judgements: &[Judgement],
    ranges: &[Option<Ranges>],
) -> Written
    ensures { Writes result (O.seen out.old) (O.seen out.new) (text.queries_text names.now judgements.now ranges.now) }
{
    match names {
        [] => Ok(()),
        [name, other_names @ ..] => match judgements {
            [] => Ok(()),
            [how, others @ ..] => match ranges {
                [] => Ok(()),
                [first, other_ranges @ ..] => match write_one(out, name.bytes(), *how, first) {
                    Ok(()) => write_queries(out, other_names, others, other_ranges),
                    Err(fault) => Err(fault),
                },
            },
        },
    }
}

// A choice, how the shards answer each query under it, and what is said of its ranges.
#[tactic(auto, using(sql_explain::proofs::Writers::writes_after, sql_explain::proofs::Writers::broke, sql_explain::proofs::Writers::stopped))]
fn write_choice<O: Sink>(
    out: &mut O,
    catalog: &Catalog,
    names: &[Name],
    told: &ToldChoice,
) -> Written
    ensures { Writes result (O.seen out.old) (O.seen out.new) (text.choice_text catalog.now names.now told.now) }
{
    write_deal(out, catalog, &told.choice)?;
    write_all(out, b"\n")?;
    write_queries(
        out,
        names,
        told.judgements.as_slice(),
        told.ranges.as_slice(),
    )
}

// All choices.
fn write_choices<O: Sink>(
    out: &mut O,
    catalog: &Catalog,
    names: &[Name],
    list: &[ToldChoice],
) -> Written
    ensures { Writes result (O.seen out.old) (O.seen out.new) (flat_map (text.choice_text catalog.now names.now) list.now) }
{
    for told in list {
        write_choice(out, catalog, names, told)?;
    }
    Ok(())
}

// How many choices more there are, where there are more.
fn write_more<O: Sink>(out: &mut O, more: usize) -> Written
    ensures { Writes result (O.seen out.old) (O.seen out.new) (text.more_text more) }
{
    if more == 0 {
        return Ok(());
    }
    let mut number = Buffer::new();
    let pieces: [&[u8]; 2] = [number.format(more).as_bytes(), b" choices more\n"];
    write_pieces(out, &pieces)
}

/// Writes what is found.
#[tactic(auto, using(sql_explain::proofs::Writers::writes_after, sql_explain::proofs::Writers::broke, sql_explain::proofs::Writers::stopped))]
pub fn print<O: Sink>(found: &Found, out: &mut O) -> Written
    ensures { Writes result (O.seen out.old) (O.seen out.new) (text.finding_text found.now.state.streams found.now.state.names found.now.finding) }
{
    let state = &found.state;
    match &found.finding {
        Finding::NoStream => write_all(out, b"the script creates no stream\n"),
        Finding::Many => write_all(
            out,
            b"the streams have more than 1048576 choices of keys, too many to look at\n",
        ),
        Finding::Least { told, more } => {
            write_choices(out, state.catalog(), state.names(), told.as_slice())?;
            write_more(out, *more)
        }
    }
}
