//! The lines and the pieces of lines that tell names and numbers. Each is a template with its holes filled.
ghost use Rattle.std.specs.Prelude.{◌≡◌};
ghost use Rattle.io_streams.specs.Sink.{Writes};
ghost use Rattle.sem_query.specs.Verdict.{most};
ghost use Rattle.adv_lines.specs.Lines as line;

use crate::names::Named;
use crate::templates;
use adv_templates::{Filling, Written, write_filled};
use io_streams::{Sink, write_all};
use sem_query::{Condition, Numbers, Which};
use sql_replies::{condition_text, which_text};
use sql_text::Name;

/// Writes the four numbers of a query: `: parts 1 cells 1998 answers 999 work 1`.
#[tactic(auto, unfolding(crate::specs::Lines::numbers_text))]
pub fn write_numbers<O: Sink>(out: &mut O, numbers: Numbers) -> Written
    ensures { Writes result (O.seen out.old) (O.seen out.new) (line.numbers_text numbers) }
{
    let fillings = [
        Filling::Count(numbers.parts),
        Filling::Count(numbers.cells),
        Filling::Count(numbers.answers),
        Filling::Count(numbers.work),
    ];
    write_filled(out, templates::NUMBERS, &fillings)
}

/// Writes the query of a line, and what is said of it: `line 5: query wide`.
#[tactic(auto, unfolding(crate::specs::Lines::query_line))]
pub fn write_query_line<'a, O: Sink>(
    out: &mut O,
    number: u64,
    name: &'a Name,
    behind: &'a [u8],
) -> Written
    ensures { Writes result (O.seen out.old) (O.seen out.new) (line.query_line number name.now behind.now) }
{
    let fillings = [
        Filling::Number(number),
        Filling::Text(name.bytes()),
        Filling::Text(behind),
    ];
    write_filled(out, templates::QUERY, &fillings)
}

/// Writes that a query needs more pages than are free.
#[tactic(auto, unfolding(crate::specs::Lines::pool_line))]
pub fn write_pool<O: Sink>(out: &mut O, number: u64, name: &Name, needed: u32, free: u32) -> Written
    ensures { Writes result (O.seen out.old) (O.seen out.new) (line.pool_line number name.now needed free) }
{
    let fillings = [
        Filling::Number(number),
        Filling::Text(name.bytes()),
        Filling::Count(needed),
        Filling::Count(free),
    ];
    write_filled(out, templates::POOL, &fillings)
}

// The most that there may be of a number.
fn most_of(which: Which) -> u32
    ensures { result ≡ most which }
{
    match which {
        Which::Parts => 4096,
        Which::Cells => 262_144,
        Which::Answers => 65_536,
        Which::Work => 4_194_304,
    }
}

// What stands before a number: the greatest of 64 bits stands for all numbers from there on.
fn at_least(value: u64) -> &'static [u8]
    ensures { result.now ≡ line.at_least value }
{
    if value == u64::MAX { b"at least " } else { b"" }
}

/// Writes that a number of a query is above its limit; the greatest of 64 bits stands for all from there on.
#[tactic(auto, unfolding(crate::specs::Lines::above_line))]
pub fn write_above<O: Sink>(
    out: &mut O,
    number: u64,
    name: &Name,
    which: Which,
    value: u64,
) -> Written
    ensures { Writes result (O.seen out.old) (O.seen out.new) (line.above_line number name.now which value) }
{
    let fillings = [
        Filling::Number(number),
        Filling::Text(name.bytes()),
        Filling::Fixed(which_text(which)),
        Filling::Fixed(at_least(value)),
        Filling::Number(value),
        Filling::Count(most_of(which)),
    ];
    write_filled(out, templates::ABOVE, &fillings)
}

// Why a column breaks a condition, by whether an answer counts once.
fn reason_text(distinct: bool, condition: Condition) -> &'static [u8]
    ensures { result.now ≡ line.reason_text distinct condition }
{
    match condition {
        Condition::C1 => b" is selected and nothing bounds it\n",
        Condition::C2 => b" equals a column of another stream and nothing bounds it\n",
        Condition::C3 => {
            if distinct {
                b" is one unbounded column too many: of each stream one may be compared with other streams, and on one side\n"
            } else {
                b" is compared with a column of another stream and nothing bounds it\n"
            }
        }
    }
}

/// Writes that a query breaks a condition first in this part and at this column.
#[tactic(auto, unfolding(crate::specs::Lines::violation_line))]
pub fn write_violation<'a, O: Sink>(
    out: &mut O,
    number: u64,
    name: &'a Name,
    part: u32,
    distinct: bool,
    condition: Condition,
    column: Named<'a>,
) -> Written
    ensures { Writes result (O.seen out.old) (O.seen out.new) (line.violation_line number name.now part distinct condition (record { stream = column.entry.stream.now; column = column.entry.column.now })) }
{
    let fillings = [
        Filling::Number(number),
        Filling::Text(name.bytes()),
        Filling::Fixed(condition_text(condition)),
        Filling::Count(part),
        Filling::Text(column.stream),
        Filling::Text(column.column),
        Filling::Fixed(reason_text(distinct, condition)),
    ];
    write_filled(out, templates::VIOLATION, &fillings)
}

/// Writes that a part has the elements that follow: `  part 23 has`.
#[tactic(auto, unfolding(crate::specs::Lines::part_head))]
pub fn write_part<O: Sink>(out: &mut O, part: u32) -> Written
    ensures { Writes result (O.seen out.old) (O.seen out.new) (line.part_head part) }
{
    write_filled(out, templates::PART, &[Filling::Count(part)])
}

// What stands behind the number of cells.
fn cells_text(cells: u64) -> &'static [u8]
    ensures { result.now ≡ line.cells_text cells }
{
    if cells == 1 { b" cell: " } else { b" cells: " }
}

/// Writes how many cells a part keeps, and of which stream so many of them are: `  part 5 keeps 1369 cells: Temp`, or
/// `  part 5 keeps 2738 cells, 1369 of them of Temp`.
#[tactic(auto, unfolding(crate::specs::Lines::kept_head))]
pub fn write_kept<O: Sink>(out: &mut O, part: u32, cells: u64, kept: u64, stream: &[u8]) -> Written
    ensures { Writes result (O.seen out.old) (O.seen out.new) (line.kept_head part cells kept stream.now) }
{
    if cells != u64::MAX && cells == kept {
        let fillings = [
            Filling::Count(part),
            Filling::Number(cells),
            Filling::Fixed(cells_text(cells)),
            Filling::Text(stream),
        ];
        return write_filled(out, templates::KEPT, &fillings);
    }
    let fillings = [
        Filling::Count(part),
        Filling::Fixed(at_least(cells)),
        Filling::Number(cells),
        Filling::Fixed(at_least(kept)),
        Filling::Number(kept),
        Filling::Text(stream),
    ];
    write_filled(out, templates::MOST_KEPT, &fillings)
}

/// Writes a text where it is due.
pub fn write_if<O: Sink>(out: &mut O, due: bool, text: &[u8]) -> Written
    ensures { Writes result (O.seen out.old) (O.seen out.new) (line.text_if due text.now) }
{
    if due { write_all(out, text) } else { Ok(()) }
}
