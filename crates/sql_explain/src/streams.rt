//! What is kept of each stream of FROM in a part.
ghost use Rattle.std.specs.Prelude.{◌≡◌, ◌<◌, length};
ghost use Rattle.std.specs.List.{All, flat_map};
ghost use Rattle.io_streams.specs.Sink.{Writes};
ghost use Rattle.sql_explain.specs.Named.{HasDim, HasKind, HasStream};
ghost use Rattle.sql_explain.specs.Text.{dim_line, kind_text, stream_text};

use crate::lines::{write_column_line, write_dim_line};
use io_streams::{Sink, WriteFault};
use itoa::Buffer;
use sem_query::{Dim, Kind, StreamPlan};
use sql_catalog::Catalog;
use sql_printer::column_named;

// `dim S.a 11 12`
fn write_dim<O: Sink>(
    out: &mut O,
    dim: Dim,
    from: &[u8],
    catalog: &Catalog,
) -> Result<(), WriteFault>
    requires from { All (λ n. n < length catalog.now) from.now }
    requires dim { HasDim catalog.now from.now dim }
    ensures { Writes result (O.seen out.old) (O.seen out.new) (dim_line catalog.now from.now dim) }
{
    let column = column_named(dim.attr, from, catalog);
    let mut lo = Buffer::new();
    let mut hi = Buffer::new();
    let lo = lo.format(dim.lo).as_bytes();
    let hi = hi.format(dim.hi).as_bytes();
    write_dim_line(out, &column, lo, hi)
}

// The dims of a stream.
fn write_dims<O: Sink>(
    out: &mut O,
    dims: &[Dim],
    from: &[u8],
    catalog: &Catalog,
) -> Result<(), WriteFault>
    requires from { All (λ n. n < length catalog.now) from.now }
    requires dims { All (HasDim catalog.now from.now) dims.now }
    ensures { Writes result (O.seen out.old) (O.seen out.new) (flat_map (dim_line catalog.now from.now) dims.now) }
{
    for dim in dims {
        write_dim(out, *dim, from, catalog)?;
    }
    Ok(())
}

// `least S.b`, where the cells keep an extreme value.
fn write_kind<O: Sink>(
    out: &mut O,
    kind: Kind,
    from: &[u8],
    catalog: &Catalog,
) -> Result<(), WriteFault>
    requires from { All (λ n. n < length catalog.now) from.now }
    requires kind { HasKind catalog.now from.now kind }
    ensures { Writes result (O.seen out.old) (O.seen out.new) (kind_text catalog.now from.now kind) }
{
    match kind {
        Kind::Count | Kind::Present => Ok(()),
        Kind::Least(attr) => {
            let column = column_named(attr, from, catalog);
            write_column_line(out, b"least ", &column)
        }
        Kind::Greatest(attr) => {
            let column = column_named(attr, from, catalog);
            write_column_line(out, b"greatest ", &column)
        }
    }
}

// What is kept of a stream.
#[tactic(auto, using(crate::proofs::Writers::writes_after))]
fn write_stream<O: Sink>(
    out: &mut O,
    stream: &StreamPlan,
    from: &[u8],
    catalog: &Catalog,
) -> Result<(), WriteFault>
    requires from { All (λ n. n < length catalog.now) from.now }
    requires stream { HasStream catalog.now from.now stream.now }
    ensures { Writes result (O.seen out.old) (O.seen out.new) (stream_text catalog.now from.now stream.now) }
{
    write_dims(out, stream.dims.as_slice(), from, catalog)?;
    write_kind(out, stream.kind, from, catalog)
}

/// Writes what is kept of each stream: its dims, and the column of which its cells keep an extreme value.
pub fn write_streams<O: Sink>(
    out: &mut O,
    streams: &[StreamPlan],
    from: &[u8],
    catalog: &Catalog,
) -> Result<(), WriteFault>
    requires from { All (λ n. n < length catalog.now) from.now }
    requires streams { All (HasStream catalog.now from.now) streams.now }
    ensures { Writes result (O.seen out.old) (O.seen out.new) (flat_map (stream_text catalog.now from.now) streams.now) }
{
    for stream in streams {
        write_stream(out, stream, from, catalog)?;
    }
    Ok(())
}
