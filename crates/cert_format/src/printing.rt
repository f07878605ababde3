//! A line in its printed form.
ghost use Rattle.std.specs.Prelude.{◌≡◌, ◌≤◌, ◌+◌, ◌*◌, ◌++◌, ◌∷◌, [], length, decimal};
ghost use Rattle.io_streams.specs.Sink.{Writes};
ghost use Rattle.cert_format.specs.Text.{numbers_text, line_text};

use crate::line::Line;
use arrayvec::ArrayVec;
use io_streams::{Sink, WriteFault, write_pieces};
use itoa::Buffer;

// Adds a number behind a space.
fn push_number(text: &mut ArrayVec<u8, 84>, number: u16)
    requires { length text.old.items + 6 ≤ 84 }
    ensures bytes { text.new.items ≡ text.old.items ++ 32 ∷ decimal number }
    ensures short { length text.new.items ≤ length text.old.items + 6 }
{
    text.push(b' ');
    let mut buffer = Buffer::new();
    match text.try_extend_from_slice(buffer.format(number).as_bytes()) {
        Ok(()) => {}
        Err(_) => unreachable!(),
    }
}

// Adds numbers, each behind a space.
fn push_numbers(text: &mut ArrayVec<u8, 84>, numbers: &[u16])
    requires { length text.old.items + length numbers.now * 6 ≤ 84 }
    ensures bytes { text.new.items ≡ text.old.items ++ numbers_text numbers.now }
    ensures short { length text.new.items ≤ length text.old.items + length numbers.now * 6 }
{
    for number in numbers {
        push_number(text, *number);
    }
}

// Writes a keyword with at most 14 numbers behind it, and LF, by one call of the sink where it takes all.
fn put_words<O: Sink>(
    out: &mut O,
    keyword: &[u8],
    ends: &[u16],
    numbers: &[u16],
) -> Result<(), WriteFault>
    requires { length ends.now + length numbers.now ≤ 14 }
    ensures { Writes result (O.seen out.old) (O.seen out.new) (keyword.now ++ numbers_text (ends.now ++ numbers.now) ++ 10 ∷ []) }
{
    let mut text = ArrayVec::new();
    push_numbers(&mut text, ends);
    push_numbers(&mut text, numbers);
    let pieces: [&[u8]; 3] = [keyword, text.as_slice(), b"\n"];
    write_pieces(out, &pieces)
}

/// Writes a line in its printed form, and LF.
pub fn put_line<O: Sink>(out: &mut O, line: &Line) -> Result<(), WriteFault>
    ensures { Writes result (O.seen out.old) (O.seen out.new) (line_text line.now ++ 10 ∷ []) }
{
    match line {
        Line::Split(pair) => put_words(out, b"split", &[*pair], &[]),
        Line::Infeasible(numbers) => put_words(out, b"infeasible", &[], numbers.as_slice()),
        Line::Against(comparison) => put_words(out, b"against", &[*comparison], &[]),
        Line::Leaf => put_words(out, b"leaf", &[], &[]),
        Line::Path(path) => put_words(out, b"path", &[path.from, path.to], path.numbers.as_slice()),
    }
}
