//! The lines of one answer in room that is kept.
ghost use Rattle.std.specs.Prelude.{◌≡◌, ◌≤◌, ◌<◌, ◌+◌, ◌-◌, ◌++◌, [], ◌∷◌, true, take, drop, length, replicate};
ghost use Rattle.std.specs.List.{flat_map};
ghost use Rattle.std.specs.Fmt.{signed_decimal};
ghost use Rattle.io_streams.specs.Sink.{Writes};
ghost use Rattle.exec_answer_lines.specs.Copies.{PutsCopies};
ghost use Rattle.sql_text.specs.Tuple.{tuple_text};

use crate::threes::{put_below_million, put_below_thousand};
use io_streams::{Sink, WriteFault, write_all};
use itoa::write_digits;
use std::simd::prelude::*;

/// The bytes of the room for a line: 32 short lines, which end at its end.
pub const LINE_ROOM: usize = 528;

// The bytes of a short line, of which one move copies all.
const SHORT: usize = 16;

// How often a short line stands in the room at most.
const MOST_COPIES: u128 = 32;

// Puts an integer before that place, and returns where it starts. It is not inlined: most integers are written by a few moves.
#[inline(never)]
fn put_integer_before(line: &mut [u8], end: usize, value: i64) -> usize
    requires room { 20 ≤ end }
    requires inside { end ≤ length line.old }
    ensures text { drop result line.new ≡ signed_decimal value ++ drop end line.old }
    ensures before { result ≤ end }
    ensures short { end ≤ result + 20 }
    ensures len { length line.new ≡ length line.old }
{
    let start = write_digits(value.unsigned_abs(), line, end);
    if value >= 0 {
        return start;
    }
    line[start - 1] = b'-';
    start - 1
}

// Puts an integer before that place, and returns where it starts. One of up to six digits takes a few moves.
#[inline(always)]
fn put_digits_before(line: &mut [u8], end: usize, value: i64) -> usize
    requires room { 20 ≤ end }
    requires inside { end ≤ length line.old }
    ensures text { drop result line.new ≡ signed_decimal value ++ drop end line.old }
    ensures before { result ≤ end }
    ensures short { end ≤ result + 20 }
    ensures len { length line.new ≡ length line.old }
{
    let small = value.cast_unsigned();
    if small < 1000 {
        return put_below_thousand(line, end, small as usize);
    }
    if small < 1_000_000 {
        return put_below_million(line, end, small as usize);
    }
    put_integer_before(line, end, value)
}

/// Puts the values of a tuple at the end of a line, each behind a comma, and LF behind them. Returns where they start.
#[inline(always)]
pub fn put_values(line: &mut [u8], values: &[i64]) -> usize
    requires few { length values.now ≤ 8 }
    requires size { length line.old ≡ 528 }
    ensures text { drop result line.new ≡ tuple_text values.now ++ 10 ∷ [] }
    ensures room { 359 ≤ result }
    ensures inside { result < 528 }
    ensures len { length line.new ≡ 528 }
{
    let mut start = line.len() - 1;
    line[start] = b'\n';
    let mut left = values.len();
    while left > 0 {
        left -= 1;
        start = put_digits_before(line, start, values[left]) - 1;
        line[start] = b',';
    }
    start
}

/// Puts a text there, and returns where it ends.
pub fn put_text(room: &mut [u8], at: usize, text: &[u8]) -> usize
    requires room { at + length text.now ≤ length room.old }
    ensures text { take result room.new ≡ take at room.old ++ text.now }
    ensures behind { drop result room.new ≡ drop result room.old }
    ensures end { result ≡ at + length text.now }
    ensures len { length room.new ≡ length room.old }
{
    let end = at + text.len();
    room[at..end].copy_from_slice(text);
    end
}

/// Puts a name there, and returns where it ends. Most names have one to three bytes, and to copy a slice costs more than these.
#[inline(always)]
pub fn put_name(room: &mut [u8], at: usize, name: &[u8]) -> usize
    requires room { at + length name.now ≤ length room.old }
    ensures text { take result room.new ≡ take at room.old ++ name.now }
    ensures behind { drop result room.new ≡ drop result room.old }
    ensures end { result ≡ at + length name.now }
    ensures len { length room.new ≡ length room.old }
{
    match name {
        [first] => {
            room[at] = *first;
            at + 1
        }
        [first, second] => {
            room[at] = *first;
            room[at + 1] = *second;
            at + 2
        }
        [first, second, third] => {
            room[at] = *first;
            room[at + 1] = *second;
            room[at + 2] = *third;
            at + 3
        }
        _ => put_text(room, at, name),
    }
}

// Puts a text that ends the room so many times more before itself, where it is short, and returns where the first one starts.
fn repeat_text(line: &mut [u8], start: usize, more: usize) -> usize
    requires size { length line.old ≡ 528 }
    requires short { 0 < more → 512 ≤ start }
    requires inside { start ≤ 528 }
    requires few { more < 32 }
    ensures text { drop result line.new ≡ flat_map (λ text. text) (replicate (more + 1) (drop start line.old)) }
    ensures behind { drop start line.new ≡ drop start line.old }
    ensures before { result ≤ start }
    ensures len { length line.new ≡ 528 }
{
    let text = u8x16::from_slice(&line[LINE_ROOM - SHORT..]);
    let mut at = start;
    'copies: for k in 0..more {
        text.copy_to_slice(&mut line[at - SHORT..]);
        at -= LINE_ROOM - start;
    }
    at
}

// Puts a short text that ends the room before itself until it stands there so many times, up to 32, and returns where the first one starts.
// It is not inlined: most answers wait once.
#[inline(never)]
fn put_few(line: &mut [u8], start: usize, times: u128) -> Option<usize>
    requires size { length line.old ≡ 528 }
    requires inside { start < 528 }
    ensures { PutsCopies result times start line.old line.new }
{
    if start < LINE_ROOM - SHORT || times == 0 || times > MOST_COPIES {
        return None;
    }
    Some(repeat_text(line, start, times as usize - 1))
}

/// Puts a text that ends the room before itself until it stands there so many times, where it is done by a few moves, and returns where the first
/// one starts.
#[inline(always)]
pub fn put_copies(line: &mut [u8], start: usize, times: u128) -> Option<usize>
    requires size { length line.old ≡ 528 }
    requires inside { start < 528 }
    ensures { PutsCopies result times start line.old line.new }
{
    if times == 1 {
        return Some(start);
    }
    put_few(line, start, times)
}

/// Writes a text that ends the room so many times, up to 32 times by one call of the sink where it is short. It is not inlined: most answers
/// wait once.
#[inline(never)]
pub fn write_times<O: Sink>(
    room: &mut [u8; LINE_ROOM],
    start: usize,
    times: u128,
    out: &mut O,
) -> Result<(), WriteFault>
    requires { start ≤ 528 }
    ensures { Writes result (O.seen out.old) (O.seen out.new) (flat_map (λ text. text) (replicate times (drop start room.old))) }
{
    let most = if start < LINE_ROOM - SHORT {
        1
    } else {
        MOST_COPIES
    };
    let mut left = times;
    'left: while left > 0 {
        let count = left.min(most);
        let first = repeat_text(room, start, count as usize - 1);
        match write_all(out, room.split_at(first).1) {
            Ok(()) => {}
            Err(fault) => return Err(fault),
        }
        left -= count;
    }
    Ok(())
}

/// Writes what is left of a line. It is not inlined: mostly the sink takes a line whole.
#[cold]
#[inline(never)]
pub fn write_rest<O: Sink>(line: &[u8], taken: usize, out: &mut O) -> Result<(), WriteFault>
    requires { taken ≤ length line.now }
    ensures { Writes result (O.seen out.old) (O.seen out.new) (drop taken line.now) }
{
    write_all(out, line.split_at(taken).1)
}
