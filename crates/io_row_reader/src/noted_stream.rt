//! What each row asks of its stream.
ghost use Rattle.std.specs.Prelude.{◌≡◌, ◌<◌, [], ◌∷◌, length};
ghost use Rattle.sql_catalog.specs.Streams.{shape_at};
ghost use Rattle.io_row_reader.specs.Indexed.{IsNoted};

use sql_catalog::Catalog;

/// What is noted of a stream for its rows: the byte that its name is, or 256; how many columns it has; how many bytes of a text a row with
/// integers of at most 15 digits takes at most, with the longest name, and with one byte behind it; and whether no column has a domain.
#[derive(Clone, Copy, Debug)]
pub(crate) struct NotedStream {
    pub(crate) single: u16,
    pub(crate) width: u16,
    pub(crate) room: u16,
    pub(crate) is_free: bool,
}

// The least integer of 64 bits, for each column. It lies in no domain, since the ends of a domain have at most 15 digits.
const LEAST: [i64; 8] = [i64::MIN; 8];

// The byte that a name is, or 256 where it has more than one.
fn single_of(name: &[u8]) -> u16
    ensures { result < 256 → name.now ≡ result ∷ [] }
{
    match name {
        [only] => u16::from(*only),
        _ => 256,
    }
}

impl NotedStream {
    /// Returns what stands where no stream is noted.
    pub(crate) fn none() -> NotedStream {
        NotedStream {
            single: 256,
            width: 0,
            room: 0,
            is_free: false,
        }
    }

    /// Returns what is to be noted of the stream of a number.
    pub(crate) fn of(catalog: &Catalog, number: u8) -> NotedStream
        requires { number < length catalog.now }
        ensures { IsNoted result (shape_at catalog.now number) }
    {
        let columns = catalog.columns(number);
        let width = columns.as_slice().len();
        NotedStream {
            single: single_of(catalog.stream_name(number).bytes()),
            width: width as u16,
            room: 16 * width as u16 + 27,
            is_free: columns.keep(&LEAST[..width]),
        }
    }
}
