//! What is kept of each stream.
ghost use Rattle.std.specs.Prelude.{◌≡◌, ◌<◌, ◌↔◌, ◌++◌, length, map, IsTrue};
ghost use Rattle.sem_whole.specs.Links.{AreLinks};
ghost use Rattle.sem_whole.specs.Plan.{IsOfExtreme, IsPlannedStream};
ghost use Rattle.plan_whole.specs.Columns.{atom_of, listed};
ghost use Rattle.plan_whole.specs.Streams.{keep_of, IsDimOf};

use crate::classes::{has_read, name_of};
use crate::closed::ClosedSystem;
use crate::extreme::{KeptClass, kind_of};
use crate::kept::kept_range;
use crate::links::ColumnLink;
use arrayvec::ArrayVec;
use sem_query::{Attr, Kind, is_same};

/// What is kept of one stream: a cell for each combination of kept values of the dims.
#[derive(Drop, Default)]
pub struct KeptStream {
    pub dims: ArrayVec<KeptClass, 8>,
    pub kind: Kind,
}

// Whether a column is of the class of which cells keep the extreme.
fn is_of_extreme(closed: &ClosedSystem, kind: Kind, a: Attr) -> bool
    ensures { IsTrue result ↔ IsOfExtreme closed.now kind a }
{
    match kind {
        Kind::Count => false,
        Kind::Present => false,
        Kind::Least(extreme) => closed.are_one_class(extreme, a),
        Kind::Greatest(extreme) => closed.are_one_class(extreme, a),
    }
}

// The dim of the class that a column names, where one of its columns is read and it is not the extreme.
fn dim_of(closed: &ClosedSystem, links: &[ColumnLink], kind: Kind, a: Attr) -> Option<KeptClass>
    ensures { IsDimOf closed.now (map atom_of links.now) kind a result }
{
    if !is_same(name_of(closed, a), a) {
        return None;
    }
    if !has_read(closed, links, a) {
        return None;
    }
    if is_of_extreme(closed, kind, a) {
        return None;
    }
    let ends = kept_range(closed, links, a);
    Some(KeptClass { attr: a, ends })
}

// Adds a dim, where there is one.
fn add_dim(dims: &mut ArrayVec<KeptClass, 8>, dim: Option<KeptClass>)
    requires { length dims.old.items < 8 }
    ensures { dims.new.items ≡ dims.old.items ++ listed dim }
{
    match dim {
        None => {}
        Some(dim) => dims.push(dim),
    }
}

/// Returns what is kept of the stream at a place of FROM.
pub fn stream_of(closed: &ClosedSystem, links: &[ColumnLink], place: u8) -> KeptStream
    requires { AreLinks closed.now (map atom_of links.now) }
    ensures { IsPlannedStream closed.now (map atom_of links.now) place (keep_of result.dims.items result.kind) }
{
    let kind = kind_of(closed, links, place);
    let mut dims = ArrayVec::new();
    for column in 0..8 {
        let attr = Attr {
            stream: place,
            column,
        };
        add_dim(&mut dims, dim_of(closed, links, kind, attr));
    }
    KeptStream { dims, kind }
}
