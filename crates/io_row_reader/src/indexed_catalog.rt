//! The streams, with what each row asks of its stream kept beside them.
ghost use Rattle.std.specs.Prelude.{◌≡◌, ◌≤◌, ◌<◌, [], length, None, IfOk, IfSome, IsTrue};
ghost use Rattle.std.specs.List.{All};
ghost use Rattle.sql_catalog.specs.Streams.{HasEnds, added, with_stream, shape_at};
ghost use Rattle.io_row_reader.specs.Ahead.{BeginsStream, IsEnded};
ghost use Rattle.io_row_reader.specs.Indexed.{IsNoted, LeadToOpen};
ghost use Rattle.io_row_reader.specs.Open.{is_open};

use crate::noted_stream::NotedStream;
use crate::open_streams::OpenStreams;
use crate::row_ahead::{later_stream_ahead, named_len};
use crate::starts::Starts;
use sql_catalog::{Catalog, ColumnDef, StreamError};
use sql_text::Name;
use std::alloc::{AllocError, Global};
use std::marker::Model;

/// The streams in the order in which they were added, at most 16, with what each row asks of its stream kept beside them, and which of them
/// are open: rows of the others are not found ahead.
#[derive(Drop)]
pub struct IndexedCatalog {
    catalog: Catalog,
    starts: Starts,
    noted: [NotedStream; 16],
    opened: OpenStreams,
}

impl Model for IndexedCatalog {
    ghost use Rattle.io_row_reader.specs.Indexed.{IndexedValue, IsIndexed, LeadToOpen};

    ghost Value = { IndexedValue };

    ghost view = { λ c. record { streams = c.catalog; opened = c.opened } };

    ghost invariant = { λ c. IsIndexed c.noted c.catalog × LeadToOpen c.starts c.opened };
}

// The hints that lead to the open streams alone.
fn starts_of(catalog: &Catalog, opened: &OpenStreams) -> Starts
    ensures { LeadToOpen result opened.now }
{
    let mut starts = Starts::new();
    for number in 0..catalog.len() {
        starts.add(catalog.stream_name(number), number, opened);
    }
    starts
}

impl IndexedCatalog {
    /// Returns a catalog with no streams, of which all are open. An error says that memory was not found; no other call takes any.
    pub fn new(alloc: Global) -> Result<IndexedCatalog, AllocError>
        ensures streams { IfOk result (λ c. c.streams ≡ []) }
        ensures opened { IfOk result (λ c. c.opened ≡ None) }
    {
        Ok(IndexedCatalog {
            catalog: Catalog::new(alloc)?,
            starts: Starts::new(),
            noted: [NotedStream::none(); 16],
            opened: OpenStreams::all(),
        })
    }

    /// Returns all streams, as a catalog alone.
    #[inline(always)]
    pub fn all(&self) -> &Catalog
        ensures { result.now ≡ self.now.streams }
    {
        &self.catalog
    }

    /// Adds a stream with 1 to 8 columns behind the others, and gives its number. Each domain has ends of at most 15 digits, the first
    /// at most the second. An error leaves the catalog as it was.
    pub fn add_stream(&mut self, name: Name, columns: &[ColumnDef]) -> Result<u8, StreamError>
        requires some { 0 < length columns.now }
        requires few { length columns.now ≤ 8 }
        requires domains { All (λ c. HasEnds c.domain) columns.now }
        ensures result { result ≡ added self.old.streams (record { name = name; columns = columns.now }) }
        ensures streams { self.new.streams ≡ with_stream self.old.streams (record { name = name; columns = columns.now }) }
        ensures opened { self.new.opened ≡ self.old.opened }
    {
        match self.catalog.add_stream(name, columns) {
            Ok(number) => {
                self.starts.add(&name, number, &self.opened);
                // No effect at run time. The proof reads from this call that there are at most 16 streams.
                let _few = self.catalog.len();
                self.noted[usize::from(number)] = NotedStream::of(&self.catalog, number);
                Ok(number)
            }
            Err(error) => Err(error),
        }
    }

    /// Opens these streams and no others.
    pub fn set_open(&mut self, opened: OpenStreams)
        ensures { self.new ≡ record self.old { opened = opened } }
    {
        self.starts = starts_of(&self.catalog, &opened);
        self.opened = opened;
    }

    /// Returns the number of the open stream with whose name and a comma a text begins, and where what stands behind that comma begins. It
    /// looks first at the first open stream whose name begins with the same byte, and at none where there is no such name.
    #[inline(always)]
    pub fn stream_ahead(&self, text: &[u8]) -> Option<(u8, usize)>
        requires { IsEnded text.now }
        ensures begins { IfSome result (λ found. BeginsStream self.now.streams text.now found.0 found.1) }
        ensures opens { IfSome result (λ found. IsTrue (is_open self.now.opened found.0)) }
    {
        let first = text[0];
        let stream = self.starts.numbers[usize::from(first)];
        if self.catalog.len() <= stream {
            return None;
        }
        // A name of one byte is told at once.
        if self.noted[usize::from(stream)].single == u16::from(first) && text[1] == b',' {
            return Some((stream, 2));
        }
        if let Some(len) = named_len(text, self.catalog.stream_name(stream).bytes()) {
            return Some((stream, len));
        }
        let Some(later) = later_stream_ahead(&self.catalog, stream, text) else {
            return None;
        };
        if !self.opened.opens(later) {
            return None;
        }
        Some((later, self.catalog.stream_name(later).bytes().len() + 1))
    }

    /// Returns what is noted of a stream for its rows.
    #[inline(always)]
    pub(crate) fn noted(&self, stream: u8) -> &NotedStream
        requires { stream < length self.now.streams }
        ensures { IsNoted result.now (shape_at self.now.streams stream) }
    {
        &self.noted[usize::from(stream)]
    }
}
