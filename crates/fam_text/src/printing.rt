//! The text of the rows of a family.
ghost use Rattle.std.specs.Prelude.{◌≡◌, ◌+◌, ◌<◌, ◌≤◌, ◌∷◌, ◌++◌, [], length, decimal, codes};
ghost use Rattle.std.specs.List.{All, flat_map};
ghost use Rattle.io_streams.specs.Sink.{Writes};
ghost use Rattle.fam_fooling_sets.specs.Family.{FamilyValue};
ghost use Rattle.fam_fooling_sets.specs.Shown.{rows_in, asking_in};
ghost use Rattle.fam_text.specs.Answer.{AreTakenRows};
ghost use Rattle.fam_text.specs.Text.{row_line, own_text, asked_text, rows_text};

use fam_fooling_sets::{Asked, Family};
use io_streams::{Sink, WriteFault, write_pieces};
use itoa::Buffer;
use sem_query::Row;
use sql_catalog::Catalog;
use sql_text::{Name, put_tuple};

// A word and the digits of a number, each with a space behind.
fn write_front<'a, O: Sink>(out: &mut O, word: &'a [u8], digits: &'a [u8]) -> Result<(), WriteFault>
    ensures { Writes result (O.seen out.old) (O.seen out.new) (word.now ++ 32 ∷ digits.now ++ 32 ∷ []) }
{
    let pieces: [&[u8]; 4] = [word, b" ", digits, b" "];
    write_pieces(out, &pieces)
}

// `m 1 S,11,0`
#[tactic(auto, using(sql_printer::proofs::WritesBehind::writes_behind))]
fn write_row<O: Sink>(
    out: &mut O,
    word: &[u8],
    number: u16,
    name: &Name,
    values: &[i64],
) -> Result<(), WriteFault>
    requires { length values.now ≤ 8 }
    ensures { Writes result (O.seen out.old) (O.seen out.new) (row_line word.now number name.now values.now) }
{
    let mut buffer = Buffer::new();
    let digits = buffer.format(number).as_bytes();
    match write_front(out, word, digits) {
        Ok(()) => put_tuple(out, name, values),
        Err(fault) => Err(fault),
    }
}

// `g 1 T,11`
fn write_asked_row<O: Sink>(
    out: &mut O,
    number: u16,
    catalog: &Catalog,
    asked: &(u8, Row),
) -> Result<(), WriteFault>
    requires { asked.now.0 < length catalog.now }
    ensures { Writes result (O.seen out.old) (O.seen out.new) (asked_text catalog.now number asked.now) }
{
    write_row(
        out,
        b"g",
        number,
        catalog.stream_name(asked.0),
        asked.1.as_slice(),
    )
}

// The rows that ask for a number, each in a line.
fn write_asked<O: Sink>(
    out: &mut O,
    number: u16,
    catalog: &Catalog,
    asked: &[(u8, Row)],
) -> Result<(), WriteFault>
    requires { All (λ r. r.0 < length catalog.now) asked.now }
    ensures { Writes result (O.seen out.old) (O.seen out.new) (flat_map (asked_text catalog.now number) asked.now) }
{
    for i in 0..asked.len() {
        match write_asked_row(out, number, catalog, &asked[i]) {
            Ok(()) => {}
            Err(fault) => return Err(fault),
        }
    }
    Ok(())
}

// The row of a number.
fn write_own_row<O: Sink>(
    out: &mut O,
    number: u16,
    catalog: &Catalog,
    stream: u8,
    row: &Row,
) -> Result<(), WriteFault>
    requires { stream < length catalog.now }
    ensures { Writes result (O.seen out.old) (O.seen out.new) (own_text catalog.now stream number row.now.items) }
{
    write_row(
        out,
        b"m",
        number,
        catalog.stream_name(stream),
        row.as_slice(),
    )
}

// The row of a number, and behind it the rows that ask for it.
fn write_member<O: Sink>(
    out: &mut O,
    number: u16,
    catalog: &Catalog,
    stream: u8,
    row: &Row,
    asked: &[(u8, Row)],
) -> Result<(), WriteFault>
    requires stream { stream < length catalog.now }
    requires asked { All (λ r. r.0 < length catalog.now) asked.now }
    ensures { Writes result (O.seen out.old) (O.seen out.new) (own_text catalog.now stream number row.now.items ++ flat_map (asked_text catalog.now number) asked.now) }
{
    match write_own_row(out, number, catalog, stream, row) {
        Ok(()) => write_asked(out, number, catalog, asked),
        Err(fault) => Err(fault),
    }
}

// The rows of all numbers, from 1.
fn write_members<O: Sink>(
    out: &mut O,
    catalog: &Catalog,
    stream: u8,
    m: &[Row],
    g: &[Asked],
) -> Result<(), WriteFault>
    requires taken { AreTakenRows catalog.now (length m.now) (record { stream = stream; rows = rows_in m.now; asking = asking_in g.now }) }
    requires many { length g.now ≡ length m.now }
    requires few { length m.now < 65536 }
    ensures { Writes result (O.seen out.old) (O.seen out.new) (rows_text catalog.now (length m.now) (record { stream = stream; rows = rows_in m.now; asking = asking_in g.now })) }
{
    for i in 0..m.len() {
        let number = i as u16 + 1;
        match write_member(out, number, catalog, stream, &m[i], g[i].as_slice()) {
            Ok(()) => {}
            Err(fault) => return Err(fault),
        }
    }
    Ok(())
}

/// Writes the rows of a family over the streams of a catalog, by number from 1: each as `m 1 S,11,0`, and behind it the rows that ask for it,
/// each as `g 1 T,11`.
pub fn write_rows<O: Sink>(
    out: &mut O,
    catalog: &Catalog,
    family: &Family,
) -> Result<(), WriteFault>
    requires taken { AreTakenRows catalog.now (length family.now.rows) family.now }
    requires many { length family.now.asking ≡ length family.now.rows }
    requires few { length family.now.rows < 65536 }
    ensures { Writes result (O.seen out.old) (O.seen out.new) (rows_text catalog.now (length family.now.rows) family.now) }
{
    write_members(
        out,
        catalog,
        family.stream,
        family.m.as_slice(),
        family.g.as_slice(),
    )
}
