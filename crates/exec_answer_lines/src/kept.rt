//! The text of a tuple that is kept, since further queries may answer with the same tuple.
ghost use Rattle.std.specs.Prelude.{◌≡◌, ◌≤◌, ◌+◌, ◌++◌, [], ◌∷◌, true, take, length};
ghost use Rattle.sql_text.specs.Tuple.{tuple_text};

use crate::lines::{LINE_ROOM, put_text, put_values};
use sem_query::Tuple;
use std::marker::Model;
use std::simd::prelude::*;

// The bytes of a short text, of which one move copies all.
const SHORT: usize = 16;

/// The most bytes of the text of a tuple, and some that are copied with a short one.
pub const TEXT_ROOM: usize = 192;

/// A tuple and its text, with LF behind it. A clause sees the tuple.
#[derive(Drop)]
pub struct KeptTuple {
    tuple: Tuple,
    text: [u8; TEXT_ROOM],
    len: usize,
}

impl Model for KeptTuple {
    ghost use Rattle.std.specs.Prelude.{List, ℤ};
    ghost use Rattle.exec_answer_lines.specs.Keeping.{IsTextOf};

    ghost Value = { List ℤ };

    ghost view = { λ k. k.tuple.items };

    ghost invariant = { λ k. IsTextOf k.tuple.items k.len k.text };
}

// Whether two tuples are the same.
#[inline(always)]
fn are_same(tuple: &[i64], other: &[i64]) -> bool
    ensures { result ≡ true → tuple.now ≡ other.now }
{
    if tuple.len() != other.len() {
        return false;
    }
    'values: for i in 0..tuple.len() {
        if tuple[i] != other[i] {
            return false;
        }
    }
    true
}

// Puts the first bytes of a short text there, by one move, and returns where they end.
#[inline(always)]
fn put_short(room: &mut [u8], at: usize, text: u8x16, len: usize) -> usize
    requires short { len ≤ 16 }
    requires room { at + 16 ≤ length room.old }
    ensures text { take result room.new ≡ take at room.old ++ take len text }
    ensures end { result ≡ at + len }
    ensures len { length room.new ≡ length room.old }
{
    text.copy_to_slice(&mut room[at..]);
    at + len
}

// Puts a text there, and returns where it ends. It is not inlined: mostly a text is short.
#[inline(never)]
fn put_long(room: &mut [u8], at: usize, text: &[u8]) -> usize
    requires room { at + length text.now ≤ length room.old }
    ensures text { take result room.new ≡ take at room.old ++ text.now }
    ensures end { result ≡ at + length text.now }
    ensures len { length room.new ≡ length room.old }
{
    put_text(room, at, text)
}

impl KeptTuple {
    /// Returns the empty tuple.
    pub fn new() -> KeptTuple
        ensures { result ≡ [] }
    {
        let mut text = [0; TEXT_ROOM];
        text[0] = b'\n';
        KeptTuple {
            tuple: Tuple::new(),
            text,
            len: 1,
        }
    }

    // Keeps a tuple. It is not inlined: mostly the queries that answer a row answer it with one tuple.
    #[inline(never)]
    fn set(&mut self, tuple: &[i64], line: &mut [u8; LINE_ROOM])
        requires { length tuple.now ≤ 8 }
        ensures { self.new ≡ tuple.now }
    {
        let start = put_values(line, tuple);
        self.len = put_text(&mut self.text, 0, line.split_at(start).1);
        self.tuple = Tuple::new();
        // A tuple has room for 8 values, so this is done.
        let _whole = self.tuple.try_extend_from_slice(tuple).is_ok();
    }

    /// Keeps a tuple of at most 8 values. Where it is kept already, its text is not made anew; a line is room to make it in.
    #[inline(always)]
    pub fn keep(&mut self, tuple: &[i64], line: &mut [u8; LINE_ROOM])
        requires { length tuple.now ≤ 8 }
        ensures { self.new ≡ tuple.now }
    {
        if are_same(self.tuple.as_slice(), tuple) {
            return;
        }
        self.set(tuple, line);
    }

    /// Puts the text of the tuple, and LF, there, and returns where it ends.
    #[inline(always)]
    pub fn put(&self, room: &mut [u8], at: usize) -> usize
        requires { at + 192 ≤ length room.old }
        ensures text { take result room.new ≡ take at room.old ++ tuple_text self.now ++ 10 ∷ [] }
        ensures end { result ≤ at + 192 }
        ensures len { length room.new ≡ length room.old }
    {
        if self.len <= SHORT {
            return put_short(room, at, u8x16::from_slice(&self.text), self.len);
        }
        put_long(room, at, self.text.split_at(self.len).0)
    }
}
