//! The lines before and behind the rows of a family, and those of a query that has none.
ghost use Rattle.std.specs.Prelude.{◌≡◌, decimal};
ghost use Rattle.io_streams.specs.Sink.{Writes};
ghost use Rattle.sql_parser.specs.Naming.{column_text};
ghost use Rattle.sql_replies.specs.Texts as texts;
ghost use Rattle.cmd_lower.specs.Text.{nothing_text, head_text, end_text};

use crate::finding::NoFamily;
use adv_templates::{Filling, write_filled};
use io_streams::{Sink, WriteFault, write_all, write_pieces};
use sem_query::Condition;
use sql_parser::ColumnAst;
use sql_replies::condition_text;

/// The first line of a family: the query, the part, the condition, the two names of the column, and how many rows there are.
pub const HEAD: &[u8] = b"family _ part _ _ _._ size _\n";

// `no family C3`
fn nothing_line(reason: NoFamily) -> &'static [u8]
    ensures { result.now ≡ nothing_text reason }
{
    match reason {
        NoFamily::Bounded => b"no family bounded\n",
        NoFamily::Few => b"no family few\n",
        NoFamily::Form => b"no family form\n",
        NoFamily::C2 => b"no family C2\n",
        NoFamily::C3 => b"no family C3\n",
    }
}

/// Writes that a query has no family, as `no family C3`.
pub fn write_nothing<O: Sink>(out: &mut O, reason: NoFamily) -> Result<(), WriteFault>
    ensures { Writes result (O.seen out.old) (O.seen out.new) (nothing_text reason) }
{
    write_all(out, nothing_line(reason))
}

/// Writes the first line of a family: `family q part 1 C1 S.a size 2`.
#[tactic(auto, using(crate::proofs::Texts::head_filled))]
pub fn write_head<'a, O: Sink>(
    out: &mut O,
    name: &'a [u8],
    part: u32,
    condition: Condition,
    column: &'a ColumnAst,
    size: u16,
) -> Result<(), WriteFault>
    ensures { Writes result (O.seen out.old) (O.seen out.new) (head_text name.now (decimal part) (texts.condition_text condition) (column_text column.now) (decimal size)) }
{
    let fillings = [
        Filling::Text(name),
        Filling::Count(part),
        Filling::Fixed(condition_text(condition)),
        Filling::Text(column.stream.bytes()),
        Filling::Text(column.column.bytes()),
        Filling::Count(u32::from(size)),
    ];
    write_filled(out, HEAD, &fillings)
}

/// Writes the last line of a family: `end q`.
pub fn write_end<O: Sink>(out: &mut O, name: &[u8]) -> Result<(), WriteFault>
    ensures { Writes result (O.seen out.old) (O.seen out.new) (end_text name.now) }
{
    let pieces: [&[u8]; 3] = [b"end ", name, b"\n"];
    write_pieces(out, &pieces)
}
