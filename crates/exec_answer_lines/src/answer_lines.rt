//! The lines of answers to a row, which are written at once.
ghost use Rattle.std.specs.Prelude.{◌≡◌, ◌≤◌, ◌+◌, ◌++◌, [], take, length, replicate};
ghost use Rattle.std.specs.List.{flat_map};
ghost use Rattle.io_streams.specs.Sink.{Writes};
ghost use Rattle.sql_text.specs.Tuple.{tuple_line};
ghost use Rattle.exec_answer_lines.specs.Gathering.{Gathers};

use crate::kept::KeptTuple;
use crate::lines::{LINE_ROOM, put_copies, put_name, put_values, write_rest, write_times};
use io_streams::{Sink, WriteAnswer, WriteFault, write_all};
use sql_text::Name;
use std::marker::Model;

// The bytes of the room for lines, and how many of them are filled at most when a line comes.
const ROOM: usize = 2048;

const FILLED: usize = 1824;

/// Room for the lines of answers to a row. One answer is written as it is made; the answers of several queries are gathered, so that they are
/// written by one call of the sink. A clause sees the bytes that are gathered.
#[derive(Drop)]
pub struct AnswerLines {
    line: [u8; LINE_ROOM],
    kept: KeptTuple,
    room: [u8; ROOM],
    filled: usize,
}

impl Model for AnswerLines {
    ghost use Rattle.std.specs.Prelude.{List, ℕ, ◌≤◌, take};

    ghost Value = { List ℕ };

    ghost view = { λ lines. take lines.filled lines.room };

    ghost invariant = { λ lines. lines.filled ≤ 1824 };
}

// Writes lines that fill the room. It is not inlined: mostly there is room.
#[cold]
#[inline(never)]
fn write_full<O: Sink>(lines: &[u8], out: &mut O) -> Result<(), WriteFault>
    ensures { Writes result (O.seen out.old) (O.seen out.new) lines.now }
{
    write_all(out, lines)
}

impl AnswerLines {
    /// Returns room in which nothing is gathered.
    pub fn new() -> AnswerLines
        ensures { result ≡ [] }
    {
        AnswerLines {
            line: [0; LINE_ROOM],
            kept: KeptTuple::new(),
            room: [0; ROOM],
            filled: 0,
        }
    }

    /// Gives up what is gathered.
    pub fn clear(&mut self)
        ensures { self.new ≡ [] }
    {
        self.filled = 0;
    }

    /// Writes what is gathered. Then nothing is, also after a fault.
    pub fn flush<O: Sink>(&mut self, out: &mut O) -> Result<(), WriteFault>
        ensures written { Writes result (O.seen out.old) (O.seen out.new) self.old }
        ensures none { self.new ≡ [] }
    {
        let filled = self.filled;
        self.filled = 0;
        write_all(out, self.room.split_at(filled).0)
    }

    /// Writes a tuple of at most 8 values so many times as an answer of the query of this name, up to 32 short lines by one call of the sink.
    #[inline(always)]
    pub fn write<O: Sink>(
        &mut self,
        name: &Name,
        tuple: &[i64],
        times: &u128,
        out: &mut O,
    ) -> Result<(), WriteFault>
        requires { length tuple.now ≤ 8 }
        ensures written { Writes result (O.seen out.old) (O.seen out.new) (flat_map (tuple_line name.now) (replicate times.now tuple.now)) }
        ensures same { self.new ≡ self.old }
    {
        let end = put_values(&mut self.line, tuple);
        let bytes = name.bytes();
        let start = end - bytes.len();
        put_name(&mut self.line, start, bytes);
        // How often it waits is read when the line stands, so that it is kept nowhere meanwhile.
        let first = match put_copies(&mut self.line, start, *times) {
            Some(first) => first,
            None => return write_times(&mut self.line, start, *times, out),
        };
        let line = self.line.split_at(first).1;
        match out.write(line) {
            WriteAnswer::Took(n) => {
                if n == line.len() {
                    return Ok(());
                }
                write_rest(line, n, out)
            }
            WriteAnswer::Failed => Err(WriteFault),
        }
    }

    // Writes what is gathered, and then a tuple so many times. It is not inlined: most answers wait once.
    #[inline(never)]
    fn write_behind<O: Sink>(
        &mut self,
        name: &Name,
        tuple: &[i64],
        times: &u128,
        out: &mut O,
    ) -> Result<(), WriteFault>
        requires { length tuple.now ≤ 8 }
        ensures { Gathers result (O.seen out.old) (O.seen out.new) self.old self.new (flat_map (tuple_line name.now) (replicate times.now tuple.now)) }
    {
        match self.flush(out) {
            Ok(()) => self.write(name, tuple, times, out),
            Err(fault) => Err(fault),
        }
    }

    /// Gathers a tuple of at most 8 values so many times as an answer of the query of this name. Where there is no room for further lines
    /// then, and where it waits not just once, what is gathered is written.
    #[inline(always)]
    pub fn gather<O: Sink>(
        &mut self,
        name: &Name,
        tuple: &[i64],
        times: &u128,
        out: &mut O,
    ) -> Result<(), WriteFault>
        requires { length tuple.now ≤ 8 }
        ensures { Gathers result (O.seen out.old) (O.seen out.new) self.old self.new (flat_map (tuple_line name.now) (replicate times.now tuple.now)) }
    {
        if *times != 1 {
            return self.write_behind(name, tuple, times, out);
        }
        self.kept.keep(tuple, &mut self.line);
        let end = put_name(&mut self.room, self.filled, name.bytes());
        let filled = self.kept.put(&mut self.room, end);
        if filled > FILLED {
            self.filled = 0;
            return write_full(self.room.split_at(filled).0, out);
        }
        self.filled = filled;
        Ok(())
    }
}
