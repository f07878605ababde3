//! All streams.
ghost use Rattle.std.specs.Prelude.{◌≡◌, ◌≤◌, ◌<◌, [], length, not, nat_lt, is_some, if◌then◌else◌, IfOk, IfSome, IsTrue};
ghost use Rattle.std.specs.List.{All, list_any};
ghost use Rattle.std.specs.Result.{result_map_both};
ghost use Rattle.std.specs.Str.{bytes_eq};
ghost use Rattle.sql_catalog.specs.Streams.{IsCatalog, IsName, HasEnds, KeepsDomains, stream_number, column_place, shape_at, column_at, domain_at, lie_within, added, with_stream};
ghost use Rattle.sql_catalog.specs.Rows.{entry, is_row_line, row_of};
ghost use Rattle.sql_catalog.specs.declared.row_error.RowError.TheVariants as errors;
ghost use Rattle.sql_text.specs.Key as reserved;

use crate::column::ColumnDef;
use crate::columns::{Columns, checked, columns_differ, place_of_column};
use crate::entries::{add_entry, columns_at, has_name, name_at, place_of_bytes, place_of_name};
use crate::field::read_fields;
use crate::row_error::RowError;
use crate::row_line::split_fields;
use crate::stream_error::StreamError;
use indexmap::IndexMap;
use sem_query::Row;
use sql_text::{Name, key_of};
use std::alloc::{AllocError, Global};
use std::marker::Model;

/// The streams in the order in which they were added, at most 16. Room for all of them is taken once.
#[derive(Drop)]
pub struct Catalog {
    streams: IndexMap<Name, Columns>,
}

impl Model for Catalog {
    ghost use Rattle.std.specs.Prelude.{List, ◌≤◌, ◌+◌};
    ghost use Rattle.sql_catalog.specs.Streams.{Shape, IsCatalog, shapes_of};
    ghost use Rattle.indexmap.specs.IndexMap.{index_map_len, spare};

    ghost Value = { List Shape };

    ghost view = { λ c. shapes_of c.streams.entries };

    ghost invariant = { λ c. IsCatalog (shapes_of c.streams.entries) × (16 ≤ index_map_len c.streams + spare c.streams) };
}

impl Catalog {
    /// The most streams.
    pub const MOST_STREAMS: usize = 16;

    /// Returns a catalog with no streams. An error says that memory was not found; no other call takes any.
    pub fn new(alloc: Global) -> Result<Catalog, AllocError>
        ensures { IfOk result (λ c. c ≡ []) }
    {
        Ok(Catalog {
            streams: IndexMap::with_capacity(alloc, Catalog::MOST_STREAMS)?,
        })
    }

    /// Returns the number of streams, at most 16.
    pub fn len(&self) -> u8
        ensures len { result ≡ length self.now }
        ensures catalog { IsCatalog self.now }
    {
        self.streams.len() as u8
    }

    /// Adds a stream with 1 to 8 columns behind the others, and gives its number. Each domain has ends of at most 15 digits, the first
    /// at most the second. An error leaves the catalog as it was.
    pub fn add_stream(&mut self, name: Name, columns: &[ColumnDef]) -> Result<u8, StreamError>
        requires some { 0 < length columns.now }
        requires few { length columns.now ≤ 8 }
        requires domains { All (λ c. HasEnds c.domain) columns.now }
        ensures result { result ≡ added self.old (record { name = name; columns = columns.now }) }
        ensures streams { self.new ≡ with_stream self.old (record { name = name; columns = columns.now }) }
    {
        if self.has(&name) || !columns_differ(columns) {
            return Err(StreamError::Duplicate);
        }
        if self.is_full() {
            return Err(StreamError::TooMany);
        }
        let number = self.len();
        add_entry(&mut self.streams, checked(&name), Columns::new(columns));
        Ok(number)
    }

    /// Returns whether there are 16 streams.
    pub fn is_full(&self) -> bool
        ensures { result ≡ not (nat_lt (length self.now) 16) }
    {
        Catalog::MOST_STREAMS <= self.streams.len()
    }

    // Whether a stream has the name.
    fn has(&self, name: &Name) -> bool
        ensures { result ≡ list_any (λ s. bytes_eq s.name name.now) self.now }
    {
        has_name(&self.streams, name)
    }

    /// Returns the number of the stream of this name.
    pub fn find(&self, name: &Name) -> Option<u8>
        ensures number { result ≡ stream_number self.now name.now }
        ensures inside { IfSome result (λ number. number < length self.now) }
    {
        let place = place_of_name(&self.streams, name)?;
        Some(place as u8)
    }

    /// Returns the number of the stream that has these bytes as its name.
    pub fn find_bytes(&self, name: &[u8]) -> Option<u8>
        ensures number { result ≡ stream_number self.now name.now }
        ensures inside { IfSome result (λ number. number < length self.now) }
        ensures name { IfSome result (λ number. IsName name.now) }
    {
        let place = place_of_bytes(&self.streams, name)?;
        Some(place as u8)
    }

    /// Returns the place of the column of this name, from 0, in the stream of this number.
    pub fn column(&self, stream: u8, name: &Name) -> Option<u8>
        requires { stream < length self.now }
        ensures place { result ≡ column_place (shape_at self.now stream).columns name.now }
        ensures inside { IfSome result (λ place. place < length (shape_at self.now stream).columns) }
    {
        let place = place_of_column(self.columns(stream).as_slice(), name)?;
        Some(place as u8)
    }

    /// Returns how many columns the stream of this number has: 1 to 8.
    pub fn width(&self, stream: u8) -> u8
        requires { stream < length self.now }
        ensures width { result ≡ length (shape_at self.now stream).columns }
        ensures some { 0 < result }
        ensures few { result ≤ 8 }
    {
        self.columns(stream).as_slice().len() as u8
    }

    /// Returns the name of the stream of this number.
    pub fn stream_name(&self, stream: u8) -> &Name
        requires { stream < length self.now }
        ensures { result.now ≡ (shape_at self.now stream).name }
    {
        name_at(&self.streams, usize::from(stream))
    }

    /// Returns the name of a column of the stream of this number.
    pub fn column_name(&self, stream: u8, column: u8) -> &Name
        requires stream { stream < length self.now }
        requires column { column < length (shape_at self.now stream).columns }
        ensures { result.now ≡ column_at (shape_at self.now stream).columns column }
    {
        let columns = self.columns(stream).as_slice();
        &columns[usize::from(column)].name
    }

    /// Returns the least and the greatest value of a column of the stream of this number, where the column has a domain.
    pub fn domain(&self, stream: u8, column: u8) -> Option<(i64, i64)>
        requires stream { stream < length self.now }
        requires column { column < length (shape_at self.now stream).columns }
        ensures domain { result ≡ domain_at self.now stream column }
        ensures ends { HasEnds result }
    {
        let columns = self.columns(stream).as_slice();
        columns[usize::from(column)].domain
    }

    /// Puts the row that a row line is into `row`, in place of what that holds, and gives the number of its stream. The line begins with
    /// a word; blanks or none and a comma stand behind it. An error is the first of `RowError` that applies, and `row` is left
    /// with any values then.
    #[tactic(auto, unfolding(crate::specs::Rows::row_of))]
    pub fn read_row(&self, line: &[u8], row: &mut Row) -> Result<u8, RowError>
        requires { IsTrue (is_row_line line.now) }
        ensures row { result_map_both (λ stream. entry stream row.new.items) (λ error. error) result ≡ row_of self.now line.now }
        ensures stream { IfOk result (λ stream. stream < length self.now) }
        ensures width { IfOk result (λ stream. length row.new.items ≡ length (shape_at self.now stream).columns) }
        ensures domains { IfOk result (λ stream. KeepsDomains self.now stream row.new.items) }
    {
        let (word, fields) = split_fields(line);
        let Some(stream) = self.find_bytes(word) else {
            return Err(refusal_of(word));
        };
        match read_fields(row, self.columns(stream), fields) {
            Ok(()) => Ok(stream),
            Err(error) => Err(error),
        }
    }

    /// Returns the columns of the stream of this number, 1 to 8, in order.
    pub fn columns(&self, stream: u8) -> &Columns
        requires { stream < length self.now }
        ensures columns { result.now ≡ (shape_at self.now stream).columns }
        ensures some { 0 < length result.now }
        ensures few { length result.now ≤ 8 }
        ensures domains { All (λ c. HasEnds c.domain) result.now }
    {
        columns_at(&self.streams, usize::from(stream))
    }
}

// Why a row is refused whose first word is the name of no stream.
fn refusal_of(word: &[u8]) -> RowError
    ensures { result ≡ (if is_some (reserved.key_of word.now) then errors.Syntax else (if nat_lt 24 (length word.now) then errors.Limit else errors.UnknownStream)) }
{
    if key_of(word).is_some() {
        RowError::Syntax
    } else if Name::MOST_BYTES < word.len() {
        RowError::Limit
    } else {
        RowError::UnknownStream
    }
}
