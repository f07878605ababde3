//! The lines that name columns of a query: changes with its numbers, sets of columns, and ranges.
ghost use Rattle.std.specs.Prelude.{◌≡◌};
ghost use Rattle.std.specs.List.{flat_map};
ghost use Rattle.io_streams.specs.Sink.{Writes};
ghost use Rattle.adv_lines.specs.Items as item;

use crate::lines::write_numbers;
use crate::names::{Named, Names, names_of};
use crate::templates;
use adv_templates::{Filling, Written, write_filled};
use io_streams::{Sink, write_all, write_pieces};
use itoa::Buffer;
use sem_query::{Atom, Attr, Dim, Element, Numbers};
use sql_printer::op_text;

/// What stands before one comparison more.
const WITH_AND: &[u8] = b"    with AND ";

/// How columns mend a query: by two comparisons on each, or by a domain on each where its stream is created.
#[derive(Clone, Copy, Debug, PartialEq, Eq)]
pub enum Remedy {
    Comparisons,
    Domains,
}

/// Writes a column or an integer of a query behind a text.
#[tactic(auto, unfolding(crate::specs::Items::behind))]
pub fn write_element<'a, O: Sink>(
    out: &mut O,
    lead: &'a [u8],
    element: &Element,
    names: &Names<'a>,
) -> Written
    ensures { Writes result (O.seen out.old) (O.seen out.new) (item.behind names.now.catalog.now names.now.from.now lead.now element.now) }
{
    match element {
        Element::Attr(attr) => {
            let Named { stream, column } = names_of(*attr, names);
            let pieces: [&[u8]; 4] = [lead, stream, b".", column];
            write_pieces(out, &pieces)
        }
        Element::Const(integer) => {
            let mut buffer = Buffer::new();
            let pieces: [&[u8]; 2] = [lead, buffer.format(*integer).as_bytes()];
            write_pieces(out, &pieces)
        }
    }
}

/// Writes a change that has a name, with the numbers of the query that has it, where they are told: `    with COMPACT: parts 1 cells 8 answers 4 work 1`.
#[tactic(auto, unfolding(crate::specs::Lines::change_head), using(sql_explain::proofs::Writers::writes_after, sql_explain::proofs::Writers::broke, sql_explain::proofs::Writers::stopped))]
pub fn write_change<O: Sink>(out: &mut O, name: &[u8], numbers: Option<Numbers>) -> Written
    ensures { Writes result (O.seen out.old) (O.seen out.new) (item.change_line name.now numbers) }
{
    match numbers {
        Some(numbers) => {
            write_filled(out, templates::CHANGE, &[Filling::Text(name)])?;
            write_numbers(out, numbers)
        }
        None => Ok(()),
    }
}

/// Writes one comparison more, with the numbers of the query that has it: `    with AND S.a < 9: parts 1 cells 8 answers 4 work 1`.
#[tactic(auto, using(sql_explain::proofs::Writers::writes_after, sql_explain::proofs::Writers::broke, sql_explain::proofs::Writers::stopped))]
pub fn write_comparison<O: Sink>(
    out: &mut O,
    atom: &Atom,
    numbers: Numbers,
    names: &Names<'_>,
) -> Written
    ensures { Writes result (O.seen out.old) (O.seen out.new) (item.comparison_line names.now.catalog.now names.now.from.now atom.now numbers) }
{
    write_element(out, WITH_AND, &atom.left, names)?;
    write_element(out, op_text(atom.op), &atom.right, names)?;
    write_numbers(out, numbers)
}

// How a line of a set of columns begins.
#[tactic(auto, unfolding(crate::specs::Items::remedy_text))]
fn remedy_text(remedy: Remedy) -> &'static [u8]
    ensures { result.now ≡ item.remedy_text remedy }
{
    match remedy {
        Remedy::Comparisons => b"    mended by",
        Remedy::Domains => b"    mended at CREATE STREAM by",
    }
}

// Two comparisons or a domain on a column: ` AND S.a > LO AND S.a < HI`, or ` S.a IN LO..HI`.
#[tactic(auto, unfolding(crate::specs::Lines::bounds_item, crate::specs::Lines::domain_item))]
fn write_on<O: Sink>(out: &mut O, remedy: Remedy, attr: Attr, names: &Names<'_>) -> Written
    ensures { Writes result (O.seen out.old) (O.seen out.new) (item.remedy_on remedy names.now.catalog.now names.now.from.now attr) }
{
    let Named { stream, column } = names_of(attr, names);
    match remedy {
        Remedy::Comparisons => {
            let pieces: [&[u8]; 9] = [
                b" AND ",
                stream,
                b".",
                column,
                b" > LO AND ",
                stream,
                b".",
                column,
                b" < HI",
            ];
            write_pieces(out, &pieces)
        }
        Remedy::Domains => {
            let fillings = [Filling::Text(stream), Filling::Text(column)];
            write_filled(out, templates::DOMAIN, &fillings)
        }
    }
}

// The same on each column of a set.
fn write_on_each<O: Sink>(out: &mut O, remedy: Remedy, set: &[Attr], names: &Names<'_>) -> Written
    ensures { Writes result (O.seen out.old) (O.seen out.new) (flat_map (item.remedy_on remedy names.now.catalog.now names.now.from.now) set.now) }
{
    for attr in set {
        write_on(out, remedy, *attr, names)?;
    }
    Ok(())
}

/// Writes that a set of columns mends the query: `    mended by AND S.a > LO AND S.a < HI`, or `    mended at CREATE STREAM by S.a IN LO..HI`.
#[tactic(auto, using(sql_explain::proofs::Writers::writes_after, sql_explain::proofs::Writers::broke, sql_explain::proofs::Writers::stopped))]
pub fn write_set<O: Sink>(out: &mut O, remedy: Remedy, set: &[Attr], names: &Names<'_>) -> Written
    ensures { Writes result (O.seen out.old) (O.seen out.new) (item.set_line remedy names.now.catalog.now names.now.from.now set.now) }
{
    write_all(out, remedy_text(remedy))?;
    write_on_each(out, remedy, set, names)?;
    write_all(out, b"\n")
}

// A column with its least and greatest value, behind a text: `, S.b 3..39`.
#[tactic(auto, unfolding(crate::specs::Lines::range_text))]
fn write_range<O: Sink>(out: &mut O, lead: &'static [u8], dim: &Dim, names: &Names<'_>) -> Written
    ensures { Writes result (O.seen out.old) (O.seen out.new) (item.range_item names.now.catalog.now names.now.from.now lead.now dim.now) }
{
    let column = names_of(dim.attr, names);
    let fillings = [
        Filling::Fixed(lead),
        Filling::Text(column.stream),
        Filling::Text(column.column),
        Filling::Integer(dim.lo),
        Filling::Integer(dim.hi),
    ];
    write_filled(out, templates::RANGE, &fillings)
}

/// Writes columns with their least and greatest values: ` by S.a 1..37, S.b 3..39`, and nothing where there are none.
pub fn write_ranges<O: Sink>(out: &mut O, dims: &[Dim], names: &Names<'_>) -> Written
    ensures { Writes result (O.seen out.old) (O.seen out.new) (item.ranges_text names.now.catalog.now names.now.from.now dims.now) }
{
    let mut lead: &'static [u8] = b" by ";
    for dim in dims {
        write_range(out, lead, dim, names)?;
        lead = b", ";
    }
    Ok(())
}
