//! What is printed. Each line is one call that writes a list of pieces.
ghost use Rattle.std.specs.Prelude.{◌≡◌, ◌++◌, ◌∷◌, [], codes, decimal};
ghost use Rattle.io_streams.specs.Sink.{Writes};
ghost use Rattle.sql_parser.specs.Naming.{column_text};
ghost use Rattle.sql_replies.specs.Texts.{word_text, which_text, condition_text, numbers_text, locked_text, unlocked_text};

use crate::refusal::Refusal;
use io_streams::{Sink, WriteFault, write_all, write_pieces};
use itoa::Buffer;
use sem_query::{Condition, Numbers, Which};
use sql_parser::ColumnAst;
use sql_text::Name;

/// Writes `ok stream S`
pub fn write_created<O: Sink>(out: &mut O, name: &Name) -> Result<(), WriteFault>
    ensures { Writes result (O.seen out.old) (O.seen out.new) (codes "ok stream " ++ name.now ++ 10 ∷ []) }
{
    let pieces: [&[u8]; 3] = [b"ok stream ", name.bytes(), b"\n"];
    write_pieces(out, &pieces)
}

/// Writes `ok drop q`
pub fn write_dropped<O: Sink>(out: &mut O, name: &Name) -> Result<(), WriteFault>
    ensures { Writes result (O.seen out.old) (O.seen out.new) (codes "ok drop " ++ name.now ++ 10 ∷ []) }
{
    let pieces: [&[u8]; 3] = [b"ok drop ", name.bytes(), b"\n"];
    write_pieces(out, &pieces)
}

/// Writes `ok lock`
pub fn write_locked<O: Sink>(out: &mut O) -> Result<(), WriteFault>
    ensures { Writes result (O.seen out.old) (O.seen out.new) locked_text }
{
    write_all(out, b"ok lock\n")
}

/// Writes `ok unlock`
pub fn write_unlocked<O: Sink>(out: &mut O) -> Result<(), WriteFault>
    ensures { Writes result (O.seen out.old) (O.seen out.new) unlocked_text }
{
    write_all(out, b"ok unlock\n")
}

/// Writes `refused q limit pool`
pub fn write_no_pages<O: Sink>(out: &mut O, name: &Name) -> Result<(), WriteFault>
    ensures { Writes result (O.seen out.old) (O.seen out.new) (codes "refused " ++ name.now ++ codes " limit pool" ++ 10 ∷ []) }
{
    let pieces: [&[u8]; 4] = [b"refused ", name.bytes(), b" limit pool", b"\n"];
    write_pieces(out, &pieces)
}

/// Writes `ok query q parts P cells C answers A work W`
#[tactic(auto, using(crate::proofs::Grouped::numbers))]
pub fn write_numbers<O: Sink>(out: &mut O, name: &Name, numbers: Numbers) -> Result<(), WriteFault>
    ensures { Writes result (O.seen out.old) (O.seen out.new) (numbers_text name.now numbers) }
{
    let mut parts = Buffer::new();
    let mut cells = Buffer::new();
    let mut answers = Buffer::new();
    let mut work = Buffer::new();
    let pieces: [&[u8]; 11] = [
        b"ok query ",
        name.bytes(),
        b" parts ",
        parts.format(numbers.parts).as_bytes(),
        b" cells ",
        cells.format(numbers.cells).as_bytes(),
        b" answers ",
        answers.format(numbers.answers).as_bytes(),
        b" work ",
        work.format(numbers.work).as_bytes(),
        b"\n",
    ];
    write_pieces(out, &pieces)
}

/// Writes `ok query q filter`
pub fn write_filter<O: Sink>(out: &mut O, name: &Name) -> Result<(), WriteFault>
    ensures { Writes result (O.seen out.old) (O.seen out.new) (codes "ok query " ++ name.now ++ codes " filter" ++ 10 ∷ []) }
{
    let pieces: [&[u8]; 3] = [b"ok query ", name.bytes(), b" filter\n"];
    write_pieces(out, &pieces)
}

/// Returns the name of a number that has a limit.
pub fn which_text(which: Which) -> &'static [u8]
    ensures { result.now ≡ which_text which }
{
    match which {
        Which::Parts => b"parts",
        Which::Cells => b"cells",
        Which::Answers => b"answers",
        Which::Work => b"work",
    }
}

// `refused q limit` and the number's name.
fn write_limit_text<'a, O: Sink>(
    out: &mut O,
    name: &'a [u8],
    which: &'a [u8],
) -> Result<(), WriteFault>
    ensures { Writes result (O.seen out.old) (O.seen out.new) (codes "refused " ++ name.now ++ codes " limit " ++ which.now ++ 10 ∷ []) }
{
    let pieces: [&[u8]; 5] = [b"refused ", name, b" limit ", which, b"\n"];
    write_pieces(out, &pieces)
}

/// Writes `refused q limit parts`
pub fn write_limit<O: Sink>(out: &mut O, name: &Name, which: Which) -> Result<(), WriteFault>
    ensures { Writes result (O.seen out.old) (O.seen out.new) (codes "refused " ++ name.now ++ codes " limit " ++ which_text which ++ 10 ∷ []) }
{
    let which = which_text(which);
    write_limit_text(out, name.bytes(), which)
}

/// Returns the name of a condition.
pub fn condition_text(condition: Condition) -> &'static [u8]
    ensures { result.now ≡ condition_text condition }
{
    match condition {
        Condition::C1 => b"C1",
        Condition::C2 => b"C2",
        Condition::C3 => b"C3",
    }
}

// `refused q part N C2 S.b`, by its parts: what stands before the name, the name, and what is broken where.
fn write_broken_text<'a, O: Sink>(
    out: &mut O,
    lead: &'a [u8],
    name: &'a [u8],
    part: &'a [u8],
    condition: &'a [u8],
    stream: &'a [u8],
    column: &'a [u8],
) -> Result<(), WriteFault>
    ensures { Writes result (O.seen out.old) (O.seen out.new)
        (lead.now ++ name.now ++ codes " part " ++ part.now ++ 32 ∷ condition.now ++ 32 ∷ (stream.now ++ 46 ∷ column.now) ++ 10 ∷ []) }
{
    let pieces: [&[u8]; 11] = [
        lead, name, b" part ", part, b" ", condition, b" ", stream, b".", column, b"\n",
    ];
    write_pieces(out, &pieces)
}

/// Writes which condition a part of a query breaks at which column, as `q part N C2 S.b` behind the words that lead.
pub fn write_broken<O: Sink>(
    out: &mut O,
    lead: &[u8],
    name: &[u8],
    part: u32,
    condition: Condition,
    column: &ColumnAst,
) -> Result<(), WriteFault>
    ensures { Writes result (O.seen out.old) (O.seen out.new)
        (lead.now ++ name.now ++ codes " part " ++ decimal part ++ 32 ∷ condition_text condition ++ 32 ∷ column_text column.now ++ 10 ∷ []) }
{
    let mut buffer = Buffer::new();
    let number = buffer.format(part).as_bytes();
    let condition = condition_text(condition);
    write_broken_text(
        out,
        lead,
        name,
        number,
        condition,
        column.stream.bytes(),
        column.column.bytes(),
    )
}

/// Writes `refused q part N C2 S.b`
pub fn write_violation<O: Sink>(
    out: &mut O,
    name: &Name,
    part: u32,
    condition: Condition,
    column: &ColumnAst,
) -> Result<(), WriteFault>
    ensures { Writes result (O.seen out.old) (O.seen out.new)
        (codes "refused " ++ name.now ++ codes " part " ++ decimal part ++ 32 ∷ condition_text condition ++ 32 ∷ column_text column.now ++ 10 ∷ []) }
{
    write_broken(out, b"refused ", name.bytes(), part, condition, column)
}

/// Returns the text of a word of refusal.
pub fn word_text(word: Refusal) -> &'static [u8]
    ensures { result.now ≡ word_text word }
{
    match word {
        Refusal::LineTooLong => b"LineTooLong",
        Refusal::Locked => b"Locked",
        Refusal::Syntax => b"Syntax",
        Refusal::Limit => b"Limit",
        Refusal::Duplicate => b"Duplicate",
        Refusal::TooMany => b"TooMany",
        Refusal::UnknownStream => b"UnknownStream",
        Refusal::UnknownColumn => b"UnknownColumn",
        Refusal::SelfJoin => b"SelfJoin",
        Refusal::UnknownQuery => b"UnknownQuery",
        Refusal::Late => b"Late",
        Refusal::Arity => b"Arity",
        Refusal::Value => b"Value",
        Refusal::Domain => b"Domain",
        Refusal::RowLimit => b"RowLimit",
    }
}

/// Writes `error L Word`
pub fn write_refused<O: Sink>(out: &mut O, line: u64, word: Refusal) -> Result<(), WriteFault>
    ensures { Writes result (O.seen out.old) (O.seen out.new) (codes "error " ++ decimal line ++ 32 ∷ word_text word ++ 10 ∷ []) }
{
    let mut buffer = Buffer::new();
    let number = buffer.format(line).as_bytes();
    let pieces: [&[u8]; 5] = [b"error ", number, b" ", word_text(word), b"\n"];
    write_pieces(out, &pieces)
}
