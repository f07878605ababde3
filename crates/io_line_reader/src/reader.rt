//! The reader of lines.
ghost use Rattle.std.specs.Prelude.{◌≡◌, ◌≤◌, ◌-◌, ◌^◌, [], ◌∷◌, ◌++◌, ◌<◌, take, true, false, IfOk};
ghost use Rattle.io_line_reader.specs.Reading.{fresh, AreLinesAhead, GivesAll, GivesBuffered, IsBuffered, IsFirstFeed, NextLine, GivesLine, answer_to};
ghost use Rattle.io_line_reader.specs.Buffers.{GivesLast, read_len};

use crate::place::feed_place;
use io_streams::{ReadAnswer, Source};
use std::alloc::{AllocError, Global};
use std::marker::Model;

/// What a reader answers to a call for the next line.
#[derive(Clone, Copy, Debug, PartialEq, Eq)]
pub enum LineAnswer {
    /// There is a line of at most 1,024 bytes, and `line` gives it.
    Line,
    /// The next line has more than 1,024 bytes. It was skipped whole, and counts as given.
    TooLong,
    /// All lines were given, and the source is at its end.
    End,
    /// The source failed, in this call or in an earlier one. All lines that ended before were given, and the line that was begun
    /// is lost.
    ReadFault,
    /// 2^64 - 1 bytes were taken, and all lines that ended in them were given. More bytes cannot be counted.
    ByteLimit,
}

/// How many bytes are read at a time, at most.
const CHUNK: usize = 4096;

/// The most bytes of a line.
const LONGEST: usize = 1024;

/// A reader of lines from a source that gives its bytes in pieces. A line ends at LF, or at the end of the source where it is
/// not empty. It has at most 1,024 bytes, the LF not counted.
///
/// The reader takes at most 4,096 bytes beyond a line, and none where a line lies whole in what it took: it reads until the line
/// ends, and no further. It works in one fixed buffer and takes no memory once it is made. It is meant to be called with one
/// source. Once it answers `End`, `ReadFault` or `ByteLimit`, it answers the same to each further call, and takes nothing.
#[derive(Drop)]
pub struct LineReader {
    // The bytes that were taken last, and an LF behind them, at `filled`. Of them, `at..filled` is ahead, and `from..to` is the last line.
    // A line that was begun is moved to the front before more is read behind it, so a line of at most 1,024 bytes lies whole in the buffer.
    chunk: Vec<u8>,
    at: usize,
    filled: usize,
    from: usize,
    to: usize,
    taken: u64,
    lines: u64,
    ended: bool,
    failed: bool,
}

impl Model for LineReader {
    ghost use Rattle.io_line_reader.specs.Reading.{Reading};
    ghost use Rattle.std.specs.Prelude.{slice_range};

    ghost Value = { Reading };

    ghost view = { λ r. record {
      ahead = slice_range r.chunk.items r.at r.filled;
      line = slice_range r.chunk.items r.from r.to;
      taken = r.taken;
      lines = r.lines;
      ended = r.ended;
      failed = r.failed;
    } };

    ghost use Rattle.io_line_reader.specs.Buffers.{IsSound};
    ghost use Rattle.std.specs.Prelude.{vec_len};

    ghost invariant = { λ r. IsSound r.chunk.items (vec_len r.chunk) r.at r.filled r.from r.to r.taken r.lines r.ended r.failed };
}

// What is answered to a line.
fn answer_to(long: bool) -> LineAnswer
    ensures { result ≡ answer_to long }
{
    if long {
        LineAnswer::TooLong
    } else {
        LineAnswer::Line
    }
}

// How many bytes a read gave.
fn read_len(answer: ReadAnswer) -> usize
    ensures { result ≡ read_len answer }
{
    match answer {
        ReadAnswer::Got(n) => n,
        ReadAnswer::End => 0,
        ReadAnswer::Failed => 0,
    }
}

impl LineReader {
    /// Returns a reader that has taken nothing. Its buffer is all the memory that it ever takes.
    pub fn new(alloc: Global) -> Result<LineReader, AllocError>
        ensures { IfOk result (λ reader. reader ≡ fresh) }
    {
        Ok(LineReader {
            chunk: vec![in alloc; b'\n'; LONGEST + CHUNK + 1]?,
            at: 0,
            filled: 0,
            from: 0,
            to: 0,
            taken: 0,
            lines: 0,
            ended: false,
            failed: false,
        })
    }

    /// Returns the bytes of the last line that was given, without its LF.
    pub fn line(&self) -> &[u8]
        ensures { result.now ≡ self.now.line }
    {
        &self.chunk[self.from..self.to]
    }

    /// Returns how many lines were given or called too long, which is the number of the last one, from 1.
    pub fn lines(&self) -> u64
        ensures { result ≡ self.now.lines }
    {
        self.lines
    }

    /// Returns the bytes that were taken and are of no line yet, and one LF more behind them: so one reads on to the next LF without a
    /// look at how many bytes there are.
    #[inline(always)]
    pub fn ahead_and_feed(&self) -> &[u8]
        ensures { result.now ≡ self.now.ahead ++ 10 ∷ [] }
    {
        &self.chunk[self.at..self.filled + 1]
    }

    /// Gives the next line, where its place is known: so many bytes, behind which the first LF of what is ahead stands. It takes nothing
    /// from the source.
    #[inline(always)]
    pub fn give_line(&mut self, len: usize)
        requires feed { IsFirstFeed self.old.ahead len }
        requires short { len ≤ 1024 }
        ensures gives { IsBuffered self.old self.new }
        ensures line { self.new.line ≡ take len self.old.ahead }
    {
        self.from = self.at;
        self.to = self.at + len;
        self.at += len + 1;
        self.lines += 1;
    }

    /// Gives the next lines, so many, which end at `end` of what is ahead and of which the last begins at `begin`: `line` gives that one
    /// then. It takes nothing from the source.
    #[inline(always)]
    pub fn give_lines(&mut self, count: u64, begin: usize, end: usize)
        requires some { 0 < count }
        requires lines { AreLinesAhead self.old.ahead count begin end }
        ensures { GivesAll self.old self.new count begin end }
    {
        self.from = self.at + begin;
        self.to = self.at + end - 1;
        self.at += end;
        self.lines += count;
    }

    /// Gives the next line exactly where it lies whole in what was read and is not too long. It takes nothing from the source.
    /// Where the answer is `false`, nothing is changed. The loops over one source and over several call it, so it is not inlined unasked.
    #[inline(always)]
    pub fn buffered_line(&mut self) -> bool
        ensures { GivesBuffered result self.old self.new }
    {
        match feed_place(&self.chunk[self.at..self.filled]) {
            Some(n) => {
                if n > LONGEST {
                    return false;
                }
                self.give_line(n);
                true
            }
            None => false,
        }
    }

    /// Gives the next line, and takes from the source what it needs for it: nothing where the line lies whole in what was taken
    /// before, and else as many reads as there are up to its end.
    pub fn next_line<I: Source>(&mut self, input: &mut I) -> LineAnswer
        // What is taken from the source, and which bytes are given up.
        ensures next { NextLine result self.old self.new (I.seen input.old) (I.seen input.new) }

        // The lines of all that is ahead or left, in their order, however the reads cut them.
        ensures lines { GivesLine result self.old self.new (I.seen input.old) (I.seen input.new) }
    {
        if self.ended {
            return LineAnswer::End;
        }
        if self.failed {
            return LineAnswer::ReadFault;
        }
        let mut long = false;
        'reading: loop {
            if let Some(n) = feed_place(&self.chunk[self.at..self.filled]) {
                self.from = self.at;
                self.to = self.at + n;
                self.at += n + 1;
                self.lines += 1;
                return answer_to(long || n > LONGEST);
            }
            let most = (u64::MAX - self.taken).min(CHUNK as u64) as usize;
            if most == 0 {
                self.at = self.filled;
                return LineAnswer::ByteLimit;
            }
            // What was begun of a line that is too long is not kept. Else it is the tail, and more is read behind it.
            long = long || self.filled - self.at > LONGEST;
            let tail = if long { 0 } else { self.filled - self.at };
            self.chunk.copy_within(self.at..self.at + tail, 0);
            let answer = input.read(&mut self.chunk[tail..tail + most]);
            self.to = self.from;
            self.at = 0;
            self.filled = tail + read_len(answer);
            self.chunk[self.filled] = b'\n';
            match answer {
                ReadAnswer::Got(n) => self.taken += n as u64,
                ReadAnswer::End => return self.give_last(long),
                ReadAnswer::Failed => {
                    self.at = tail;
                    self.failed = true;
                    return LineAnswer::ReadFault;
                }
            }
        }
    }

    // Gives what is ahead as the last line, where the source has ended, unless nothing was begun. Of a line that is too long, nothing is ahead.
    #[cold]
    fn give_last(&mut self, long: bool) -> LineAnswer
        requires open { (self.old.ended ≡ false) × (self.old.failed ≡ false) }
        requires few { self.old.taken < 2 ^ 64 - 1 }
        requires skipped { long ≡ true → self.old.lines < self.old.taken }
        ensures { GivesLast result long self.old self.new }
    {
        self.from = self.at;
        self.to = self.filled;
        self.at = self.filled;
        self.ended = true;
        if self.from == self.to && !long {
            return LineAnswer::End;
        }
        self.lines += 1;
        answer_to(long)
    }
}
