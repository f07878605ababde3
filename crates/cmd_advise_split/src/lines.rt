//! The pieces of a line of a choice.
ghost use Rattle.std.specs.Prelude.{◌≡◌, ◌<◌, None, length, slice_index_or};
ghost use Rattle.io_streams.specs.Sink.{Writes};
ghost use Rattle.sql_catalog.specs.Streams.{shape_at, column_at};
ghost use Rattle.cmd_advise_split.specs.Text as text;

use adv_key_choices::Choice;
use adv_key_decision::Judgement;
use adv_templates::Written;
use io_streams::{Sink, write_pieces};
use sql_catalog::Catalog;

// What stands before a stream.
fn lead(number: u8) -> &'static [u8]
    ensures { result.now ≡ text.lead number }
{
    if number == 0 { b"deal " } else { b", " }
}

// A stream that is dealt by a column.
fn write_dealt<'a, O: Sink>(
    out: &mut O,
    front: &'a [u8],
    stream: &'a [u8],
    column: &'a [u8],
) -> Written
    ensures { Writes result (O.seen out.old) (O.seen out.new) (text.dealt_text front.now stream.now column.now) }
{
    let pieces: [&[u8]; 4] = [front, stream, b" by ", column];
    write_pieces(out, &pieces)
}

// A stream that is broadcast.
fn write_broadcast<'a, O: Sink>(out: &mut O, front: &'a [u8], stream: &'a [u8]) -> Written
    ensures { Writes result (O.seen out.old) (O.seen out.new) (text.broadcast_text front.now stream.now) }
{
    let pieces: [&[u8]; 3] = [front, stream, b" to all"];
    write_pieces(out, &pieces)
}

// The key of a stream by its number, or none where it is broadcast.
fn key_of(keys: &[Option<u8>], number: u8) -> Option<u8>
    ensures { result ≡ slice_index_or keys.now number None }
{
    let number = number as usize;
    if number < keys.len() {
        keys[number]
    } else {
        None
    }
}

// The name of a column of the stream of a number, and nothing where there is none.
fn column_name(catalog: &Catalog, number: u8, column: u8) -> &[u8]
    requires { number < length catalog.now }
    ensures { result.now ≡ column_at (shape_at catalog.now number).columns column }
{
    if column < catalog.width(number) {
        catalog.column_name(number, column).bytes()
    } else {
        b""
    }
}

// A stream, by its key.
fn write_by_key<O: Sink>(out: &mut O, catalog: &Catalog, number: u8, key: Option<u8>) -> Written
    requires { number < length catalog.now }
    ensures { Writes result (O.seen out.old) (O.seen out.new) (text.by_key_text catalog.now number key) }
{
    let stream = catalog.stream_name(number).bytes();
    match key {
        Some(column) => write_dealt(
            out,
            lead(number),
            stream,
            column_name(catalog, number, column),
        ),
        None => write_broadcast(out, lead(number), stream),
    }
}

/// Writes the stream of a number as a choice deals it, as `deal Temp by room` or `, Watch to all`.
pub fn write_stream<O: Sink>(out: &mut O, catalog: &Catalog, choice: &Choice, number: u8) -> Written
    requires { number < length catalog.now }
    ensures { Writes result (O.seen out.old) (O.seen out.new) (text.stream_text catalog.now choice.now number) }
{
    write_by_key(out, catalog, number, key_of(&choice.keys, number))
}

// How the shards of a query answer.
fn judgement_words(how: Judgement) -> &'static [u8]
    ensures { result.now ≡ text.judgement_text how }
{
    match how {
        Judgement::Apart => b": the answers of the shards together are the answers\n",
        Judgement::Deduped => {
            b": shards may answer a tuple each, of equal tuples the first counts\n"
        }
        Judgement::Home => b": create it in one shard alone, else each shard answers it\n",
        Judgement::Torn => b": rows that belong together may be in different shards\n",
    }
}

// A query, and what is said of it.
fn write_said<'a, O: Sink>(out: &mut O, name: &'a [u8], what: &'a [u8]) -> Written
    ensures { Writes result (O.seen out.old) (O.seen out.new) (text.query_text name.now what.now) }
{
    let pieces: [&[u8]; 3] = [b"  ", name, what];
    write_pieces(out, &pieces)
}

/// Writes how the shards of a query answer, as `  hot: the answers of the shards together are the answers`.
pub fn write_query<O: Sink>(out: &mut O, name: &[u8], how: Judgement) -> Written
    ensures { Writes result (O.seen out.old) (O.seen out.new) (text.query_text name.now (text.judgement_text how)) }
{
    write_said(out, name, judgement_words(how))
}
