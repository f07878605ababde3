//! The line of an answer.
ghost use Rattle.std.specs.Prelude.{◌≡◌, ◌≤◌, ◌+◌, ◌++◌, [], ◌∷◌, drop, length};
ghost use Rattle.std.specs.Fmt.{signed_decimal};
ghost use Rattle.io_streams.specs.Sink.{Writes};
ghost use Rattle.sql_text.specs.Tuple.{tuple_text, tuple_line};

use crate::name::Name;
use io_streams::{Sink, WriteFault, write_all};
use itoa::write_digits;

/// The most bytes of a line: a name, at most eight values behind commas, and LF.
const MOST_BYTES: usize = 193;

// Puts an integer before that place, and returns where it starts.
fn put_integer_before(line: &mut [u8], end: usize, value: i64) -> usize
    requires room { 20 ≤ end }
    requires inside { end ≤ length line.old }
    ensures text { drop result line.new ≡ signed_decimal value ++ drop end line.old }
    ensures before { result ≤ end }
    ensures short { end ≤ result + 20 }
    ensures len { length line.new ≡ length line.old }
{
    let start = write_digits(value.unsigned_abs(), line, end);
    if value >= 0 {
        return start;
    }
    line[start - 1] = b'-';
    start - 1
}

// Puts a comma and a value before that place, and returns where the comma stands.
fn put_value_before(line: &mut [u8], end: usize, value: i64) -> usize
    requires room { 21 ≤ end }
    requires inside { end ≤ length line.old }
    ensures text { drop result line.new ≡ 44 ∷ signed_decimal value ++ drop end line.old }
    ensures before { result ≤ end }
    ensures short { end ≤ result + 21 }
    ensures len { length line.new ≡ length line.old }
{
    let start = put_integer_before(line, end, value);
    line[start - 1] = b',';
    start - 1
}

// Puts the values of a tuple at the end of a line, each behind a comma, and LF behind them. Returns where they start.
fn put_values(line: &mut [u8], values: &[i64]) -> usize
    requires few { length values.now ≤ 8 }
    requires size { length line.old ≡ 193 }
    ensures text { drop result line.new ≡ tuple_text values.now ++ 10 ∷ [] }
    ensures room { 24 ≤ result }
    ensures inside { result ≤ 193 }
    ensures len { length line.new ≡ 193 }
{
    let mut start = line.len() - 1;
    line[start] = b'\n';
    let mut left = values.len();
    while left > 0 {
        left -= 1;
        start = put_value_before(line, start, values[left]);
    }
    start
}

// Puts a name before that place, and returns where it starts.
fn put_name_before(line: &mut [u8], end: usize, name: &Name) -> usize
    requires room { 24 ≤ end }
    requires inside { end ≤ length line.old }
    ensures text { drop result line.new ≡ name.now ++ drop end line.old }
    ensures inside { result ≤ length line.new }
{
    let bytes = name.bytes();
    let start = end - bytes.len();
    line[start..end].copy_from_slice(bytes);
    start
}

// Puts the line of an answer at the end of the room for one, and returns where it starts.
fn put_line(line: &mut [u8], name: &Name, values: &[i64]) -> usize
    requires few { length values.now ≤ 8 }
    requires size { length line.old ≡ 193 }
    ensures text { drop result line.new ≡ tuple_line name.now values.now }
    ensures inside { result ≤ length line.new }
{
    let end = put_values(line, values);
    put_name_before(line, end, name)
}

/// Writes a tuple of at most 8 values as an answer of the query of this name: `q,v1,v2` and LF, by one call of the sink
/// where it takes all.
pub fn put_tuple<O: Sink>(out: &mut O, name: &Name, values: &[i64]) -> Result<(), WriteFault>
    requires { length values.now ≤ 8 }
    ensures { Writes result (O.seen out.old) (O.seen out.new) (tuple_line name.now values.now) }
{
    let mut line = [0; MOST_BYTES];
    let start = put_line(&mut line, name, values);
    write_all(out, line.split_at(start).1)
}
