//! Names of streams and columns, as bytes.
ghost use Rattle.std.specs.Prelude.{◌≡◌, slice_index};
ghost use Rattle.sql_catalog.specs.Streams.{shape_at, column_at};
ghost use Rattle.sql_parser.specs.Resolution.{stream_named};
ghost use Rattle.sql_parser.specs.Resolution as resolution;

use sem_query::Attr;
use sql_catalog::Catalog;

/// The streams of a query: their numbers in the order of FROM, and the catalog that names them.
#[derive(Clone, Copy)]
pub struct Names<'a> {
    pub from: &'a [u8],
    pub catalog: &'a Catalog,
}

/// A column by its names.
#[derive(Clone, Copy)]
pub struct Named<'a> {
    pub stream: &'a [u8],
    pub column: &'a [u8],
}

// The number of the stream at a place of FROM, and 0 where there is none.
fn number_at(from: &[u8], place: u8) -> u8
    ensures { result ≡ slice_index from.now place }
{
    from.get(usize::from(place)).copied().unwrap_or(0)
}

// The name of a column of the stream of a number, and nothing where there is none.
fn column_name(catalog: &Catalog, number: u8, column: u8) -> &[u8]
    ensures { result.now ≡ column_at (shape_at catalog.now number).columns column }
{
    if number < catalog.len() && column < catalog.width(number) {
        catalog.column_name(number, column).bytes()
    } else {
        b""
    }
}

/// Returns the name of the stream at a place of FROM, and nothing where there is none.
pub fn stream_at<'a>(place: u8, names: &Names<'a>) -> &'a [u8]
    ensures { result.now ≡ stream_named names.now.catalog.now (slice_index names.now.from.now place) }
{
    let number = number_at(names.from, place);
    if number < names.catalog.len() {
        names.catalog.stream_name(number).bytes()
    } else {
        b""
    }
}

/// Returns a column of a query by its names, and nothing for a name that is not there.
pub fn names_of<'a>(attr: Attr, names: &Names<'a>) -> Named<'a>
    ensures stream { result.stream.now ≡ (resolution.column_named names.now.catalog.now names.now.from.now attr).stream }
    ensures column { result.column.now ≡ (resolution.column_named names.now.catalog.now names.now.from.now attr).column }
{
    let number = number_at(names.from, attr.stream);
    Named {
        stream: stream_at(attr.stream, names),
        column: column_name(names.catalog, number, attr.column),
    }
}
