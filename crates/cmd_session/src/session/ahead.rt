//! Rows that are read at the front of a text, or only counted there.
ghost use Rattle.std.specs.Prelude.{◌≡◌, ◌+◌, ◌<◌, ◌≤◌, ◌^◌, [], true, IfSome, IsTrue};
ghost use Rattle.exec_registry.specs.Passed.{passed};
ghost use Rattle.io_row_reader.specs.Ahead.{BeginsStream, IsEnded, IsRowAhead};
ghost use Rattle.io_row_reader.specs.Open.{is_open};
ghost use Rattle.io_row_reader.specs.Plain.{IsPlainRow};
ghost use Rattle.cmd_session.specs.Front.{IsFront};
ghost use Rattle.cmd_session.specs.Lock.{open_in};

use super::Session;
use crate::counting::{most_rows, spared_rows};
use crate::front::Front;
use io_row_reader::{read_row_ahead, read_row_at};
use sem_query::Row;

// The room in which a line is read as a row, with LFs behind it. A row of eight columns is read from it as fast as one that has more text behind it.
const ROOM_FOR_ROW: usize = 160;

impl Session {
    /// Puts the row that the first line of a text is into an empty `row`, and gives the number of its stream and the length of the line,
    /// where the line is a row of an open stream, each value in the domain of its column, written without blanks.
    #[inline(always)]
    pub fn row_ahead(&self, text: &[u8], row: &mut Row) -> Option<(u8, usize)>
        requires empty { row.old.items ≡ [] }
        requires ended { IsEnded text.now }
        ensures row { IfSome result (λ found. IsRowAhead self.now.streams text.now found.0 found.1 row.new.items) }
        ensures opens { IfSome result (λ found. IsTrue (is_open (open_in self.now.lock) found.0)) }
    {
        read_row_ahead(&self.catalog, text, row)
    }

    /// Puts the row that a line is into an empty `row`, and returns the number of its stream, where the line is a row of an open stream, each value
    /// in the domain of its column, written without blanks, and at most 158 bytes long. It is read from a copy with LFs behind it, and is not
    /// inlined, so that no loop over rows has the room for the copy in its frame.
    #[inline(never)]
    pub(super) fn lone_row(&self, line: &[u8], row: &mut Row) -> Option<u8>
        requires { row.old.items ≡ [] }
        ensures row { IfSome result (λ stream. IsPlainRow self.now.streams line.now stream row.new.items) }
        ensures opens { IfSome result (λ stream. IsTrue (is_open (open_in self.now.lock) stream)) }
    {
        if ROOM_FOR_ROW - 2 < line.len() {
            return None;
        }
        let mut room = [b'\n'; ROOM_FOR_ROW];
        room[..line.len()].copy_from_slice(line);
        let Some(found) = self.row_ahead(&room, row) else {
            return None;
        };
        let (stream, len) = found;
        if len != line.len() {
            return None;
        }
        Some(stream)
    }

    /// Counts the rows at the front of a text, as many at most as may be taken, where the first one is of a stream of which each live query is known
    /// to refuse each row, no column has a domain, and the rows are written without blanks and plus signs; else puts the row that the first line
    /// is into an empty `row`, where it is a row of an open stream, each value in the domain of its column, written without blanks. The last byte
    /// of the text is LF, and is not the one that ends a row.
    #[inline(always)]
    pub fn front_ahead(&mut self, text: &[u8], row: &mut Row) -> Front
        requires empty { row.old.items ≡ [] }
        requires ended { IsEnded text.now }
        ensures { IsFront result text.now self.old row.new.items self.new }
    {
        let Some(found) = self.catalog.stream_ahead(text) else {
            return Front::Other;
        };
        let (stream, start) = found;
        if self.registry.spares(stream) {
            // It has a place of its own, so that of other rows what is found stays in registers.
            let counted = self.spared_front(stream, text, start, row);
            return counted;
        }
        match read_row_at(&self.catalog, stream, text, start, row) {
            Some(len) => Front::Row { stream, len },
            None => Front::Other,
        }
    }

    // Counts the rows at the front of a text that begins with a row of an open stream, as many at most as may be taken, where such rows may be
    // counted; else what is done with any other row. It is not inlined, so that the loop over rows has no room for what was counted, which would be
    // zeroed for each row.
    #[inline(never)]
    fn spared_front(&mut self, stream: u8, text: &[u8], start: usize, row: &mut Row) -> Front
        requires empty { row.old.items ≡ [] }
        requires begins { BeginsStream self.old.streams text.now stream start }
        requires opens { IsTrue (is_open (open_in self.old.lock) stream) }
        requires ended { IsEnded text.now }
        ensures { IsFront result text.now self.old row.new.items self.new }
    {
        // No effect at run time. The proof reads from this call what holds of the live queries.
        let _sound = self.registry.len();
        let most = most_rows(self.limit, self.taken, self.lines);
        let rows = spared_rows(&self.catalog, &self.registry, text, most);
        if rows.count == 0 {
            return self.odd_front(stream, text, start, row);
        }
        self.count(rows.count);
        Front::Counted(rows)
    }

    // Puts the row of a stream that the first line of a text is into an empty row, where it is one: it might have been counted and is written
    // otherwise, or may not be taken. It is not inlined, so that the loop over rows has the reading of fields once.
    #[cold]
    #[inline(never)]
    fn odd_front(&self, stream: u8, text: &[u8], start: usize, row: &mut Row) -> Front
        requires empty { row.old.items ≡ [] }
        requires begins { BeginsStream self.now.streams text.now stream start }
        requires opens { IsTrue (is_open (open_in self.now.lock) stream) }
        requires ended { IsEnded text.now }
        ensures { IsFront result text.now self.now row.new.items self.now }
    {
        match read_row_at(&self.catalog, stream, text, start, row) {
            Some(len) => Front::Row { stream, len },
            None => Front::Other,
        }
    }

    // Counts so many lines as rows that are taken, and that each live query refuses.
    #[inline(always)]
    fn count(&mut self, rows: u64)
        requires few { self.old.taken + rows ≤ self.old.limit }
        requires lines { self.old.lines + rows < 2 ^ 64 }
        ensures { self.new ≡ record self.old { taken = self.old.taken + rows; lines = self.old.lines + rows; began = true; registry = passed rows self.old.registry } }
    {
        self.registry.pass(rows);
        self.lines += rows;
        self.taken += rows;
        self.began = true;
    }
}
