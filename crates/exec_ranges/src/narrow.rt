//! The values that the links leave for the next stream.
ghost use Rattle.std.specs.Prelude.{◌≡◌, ◌<◌, length};
ghost use Rattle.sem_query.specs.Parts.{pairs};
ghost use Rattle.sem_query.specs.Probing.{is_known};
ghost use Rattle.exec_synopsis.specs.Preparing.{IsPrepared};
ghost use Rattle.exec_ranges.specs.Values.{value_in};
ghost use Rattle.exec_synopsis.specs.Narrowing.{binding_column, narrowed_to, below, above, clip_by, clip, narrow};
ghost use Rattle.exec_ranges.specs.Narrowed.{narrowed_dims};

use crate::binding::Binding;
use crate::lists::Dims;
use crate::part::RowAt;
use crate::values::value_in;
use exec_synopsis::{binding_column, is_known};
use sem_query::{Dim, Link, is_same};

// The dim with one value alone, or with none where the value is outside its range.
fn narrowed_to(dim: Dim, value: i64) -> Dim
    ensures { result ≡ narrowed_to dim value }
{
    if dim.lo <= value && value <= dim.hi {
        Dim {
            attr: dim.attr,
            lo: value,
            hi: value,
        }
    } else {
        Dim {
            attr: dim.attr,
            lo: 1,
            hi: 0,
        }
    }
}

/// Returns the dim with its values below a number.
pub fn below(dim: Dim, value: i64) -> Dim
    ensures { result ≡ below dim value }
{
    if dim.lo < value {
        if dim.hi < value {
            dim
        } else {
            Dim {
                attr: dim.attr,
                lo: dim.lo,
                hi: value - 1,
            }
        }
    } else {
        Dim {
            attr: dim.attr,
            lo: 1,
            hi: 0,
        }
    }
}

/// Returns the dim with its values above a number.
pub fn above(dim: Dim, value: i64) -> Dim
    ensures { result ≡ above dim value }
{
    if value < dim.hi {
        if value < dim.lo {
            dim
        } else {
            Dim {
                attr: dim.attr,
                lo: value + 1,
                hi: dim.hi,
            }
        }
    } else {
        Dim {
            attr: dim.attr,
            lo: 1,
            hi: 0,
        }
    }
}

// The dim with the values that an inequality with a known column leaves.
fn clip_by(at: &RowAt<'_>, known: &[Binding], link: Link, dim: Dim) -> Dim
    requires { IsPrepared (pairs at.now.q.now) at.now.part.now at.now.prepared.now }
    ensures { result ≡ clip_by at.now.arriving (length known.now) link (value_in (pairs at.now.q.now) at.now.part.now at.now.arriving at.now.row.now.items known.now) dim }
{
    if is_same(link.left, dim.attr) && is_known(at.arriving, known.len(), link.right) {
        return below(dim, value_in(at, known, link.right));
    }
    if is_same(link.right, dim.attr) && is_known(at.arriving, known.len(), link.left) {
        return above(dim, value_in(at, known, link.left));
    }
    dim
}

// The dim with the values that the inequalities with known columns leave.
fn clip(at: &RowAt<'_>, known: &[Binding], dim: Dim) -> Dim
    requires { IsPrepared (pairs at.now.q.now) at.now.part.now at.now.prepared.now }
    ensures { result ≡ clip at.now.arriving (length known.now) at.now.part.now.less.items (value_in (pairs at.now.q.now) at.now.part.now at.now.arriving at.now.row.now.items known.now) dim }
{
    let mut left = dim;
    'links: for link in at.part.less.as_slice() {
        left = clip_by(at, known, *link, left);
    }
    left
}

// The dim with the values that the links leave.
#[tactic(auto, unfolding(exec_synopsis::specs::Narrowing::narrow))]
fn narrow(at: &RowAt<'_>, known: &[Binding], dim: Dim) -> Dim
    requires { IsPrepared (pairs at.now.q.now) at.now.part.now at.now.prepared.now }
    ensures { result ≡ narrow at.now.arriving (length known.now) at.now.part.now.equal.items at.now.part.now.less.items (value_in (pairs at.now.q.now) at.now.part.now at.now.arriving at.now.row.now.items known.now) dim }
{
    match binding_column(at.arriving, known.len(), dim.attr, at.part.equal.as_slice()) {
        Some(a) => narrowed_to(dim, value_in(at, known, a)),
        None => clip(at, known, dim),
    }
}

/// Puts into `dims` the dims of the next stream, each with the values that the links leave.
#[tactic(auto, unfolding(crate::specs::Narrowed::narrowed_dims, crate::specs::Narrowed::dims_in))]
pub fn narrowed_dims(at: &RowAt<'_>, known: &[Binding], dims: &mut Dims)
    requires here { length known.now < length at.now.part.now.streams.items }
    requires prepared { IsPrepared (pairs at.now.q.now) at.now.part.now at.now.prepared.now }
    ensures { dims.new.items ≡ narrowed_dims (pairs at.now.q.now) at.now.part.now at.now.arriving at.now.row.now.items known.now }
{
    dims.clear();
    if known.len() != at.arriving as usize {
        'dims: for d in at.part.streams.as_slice()[known.len()].dims.as_slice() {
            dims.push(narrow(at, known, *d));
        }
    }
}
