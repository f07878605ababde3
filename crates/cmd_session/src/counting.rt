//! How many rows are counted at once.
ghost use Rattle.std.specs.Prelude.{◌+◌, ◌≤◌, ◌<◌, ◌^◌, IfSome};
ghost use Rattle.io_row_reader.specs.Ahead.{IsEnded};
ghost use Rattle.cmd_session.specs.Counted.{AreSparedRows, IsSparedRow};

use exec_registry::Registry;
use io_row_reader::{IndexedCatalog, counted_len};

/// Rows that stand one after another at the front of a text: how many they are, where the last one begins, and where its line ends.
#[derive(Clone, Copy, Debug, PartialEq, Eq)]
pub struct CountedRows {
    pub count: u64,
    pub begin: usize,
    pub end: usize,
}

impl CountedRows {
    /// No rows.
    pub const NONE: CountedRows = CountedRows {
        count: 0,
        begin: 0,
        end: 0,
    };
}

/// Returns how many rows more may be taken, where so many were, and their lines counted, where so many lines were.
pub(crate) fn most_rows(limit: u64, taken: u64, lines: u64) -> u64
    requires { taken ≤ limit }
    ensures rows { taken + result ≤ limit }
    ensures lines { lines + result < 2 ^ 64 }
{
    let rows = limit - taken;
    let numbers = u64::MAX - lines;
    if rows < numbers { rows } else { numbers }
}

// The length of the first line of a text, where that line is a row of an open stream that each live query is known to refuse.
#[inline(always)]
fn spared_len(streams: &IndexedCatalog, registry: &Registry, text: &[u8]) -> Option<usize>
    requires { IsEnded text.now }
    ensures { IfSome result (λ len. IsSparedRow streams.now.streams streams.now.opened registry.now.live text.now len) }
{
    let Some(found) = streams.stream_ahead(text) else {
        return None;
    };
    let (stream, start) = found;
    if !registry.spares(stream) {
        return None;
    }
    let Some(len) = counted_len(streams, stream, text, start) else {
        return None;
    };
    Some(len)
}

/// Returns the rows at the front of a text, so many at most, of open streams of which each live query is known to refuse each row and no column has
/// a domain, each written without blanks and plus signs. The last byte of the text is LF, and is not the one that ends a row.
#[inline(always)]
pub(crate) fn spared_rows(
    streams: &IndexedCatalog,
    registry: &Registry,
    text: &[u8],
    most: u64,
) -> CountedRows
    requires ended { IsEnded text.now }
    ensures rows { AreSparedRows streams.now.streams streams.now.opened registry.now.live text.now result.count result.begin result.end }
    ensures few { result.count ≤ most }
{
    let mut rows = CountedRows::NONE;
    'counting: while rows.count < most {
        match spared_len(streams, registry, text.split_at(rows.end).1) {
            Some(len) => {
                rows = CountedRows {
                    count: rows.count + 1,
                    begin: rows.end,
                    end: rows.end + len + 1,
                };
            }
            None => return rows,
        }
    }
    rows
}
