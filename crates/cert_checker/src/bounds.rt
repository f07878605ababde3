//! The bounds that the paths of a leaf give.
ghost use Rattle.std.specs.Prelude.{◌≡◌, ◌≢◌, ℕ, ◌+◌, ◌*◌, ◌<◌, ◌≤◌, pos, neg_ℤ, ◌≤ℤ◌, IfSome, IsTrue, ◌↔◌, length, All, slice_index_or, cond, nat_eq};
ghost use Rattle.plan_constraints.specs.Solutions.{IsWithin};
ghost use Rattle.cert_format.specs.Nodes.{grouped};
ghost use Rattle.cert_checker.specs.Bounds.{bound_at, IsModest, AreModest, IsSumOf, AddsPath, ReadsBounds, IsAtMost, Keeps, KeepsEach};

use crate::chain::{ChainSum, chain_of};
use cert_format::{Line, Path};
use plan_constraints::Constraint;

// Whether a path names two different nodes.
fn names_nodes(attrs: u8, path: &Path) -> bool
    ensures { IsTrue result ↔ ((path.now.from ≤ attrs) × (path.now.to ≤ attrs) × (path.now.from ≢ path.now.to)) }
{
    path.from <= u16::from(attrs) && path.to <= u16::from(attrs) && path.from != path.to
}

// Whether a chain leads from the one node of a path to the other.
fn leads(chain: ChainSum, path: &Path) -> bool
    ensures { IsTrue result ↔ ((chain.from ≡ path.now.from) × (chain.to ≡ path.now.to)) }
{
    u16::from(chain.from) == path.from && u16::from(chain.to) == path.to
}

// The sum of a path, where it is one.
fn sum_of(attrs: u8, cs: &[Constraint], path: &Path) -> Option<i64>
    requires { All (IsWithin 12) cs.now }
    ensures sum { IsSumOf attrs cs.now path.now result }
    ensures modest { IfSome result IsModest }
{
    if !names_nodes(attrs, path) {
        return None;
    }
    let chain = chain_of(cs, path.numbers.as_slice())?;
    if !leads(chain, path) {
        return None;
    }
    Some(chain.sum)
}

// Adds the bound of a path at the first place or behind it. The place behind the path, where it is one and stands there.
fn add_path(
    attrs: u8,
    cs: &[Constraint],
    path: &Path,
    first: usize,
    bounds: &mut [Option<i64>; 169],
) -> Option<usize>
    requires attrs { attrs ≤ 12 }
    requires within { All (IsWithin 12) cs.now }
    ensures { AddsPath attrs cs.now path.now first result bounds.old bounds.new }
{
    let sum = sum_of(attrs, cs, path)?;
    let place = 13 * usize::from(path.from) + usize::from(path.to);
    if place < first {
        return None;
    }
    bounds[place] = Some(sum);
    Some(place + 1)
}

/// Returns the bounds that the paths at the front of some lines give. None where they are no paths of a leaf.
pub fn bounds_of(attrs: u8, cs: &[Constraint], lines: &[Line]) -> Option<[Option<i64>; 169]>
    requires attrs { attrs ≤ 12 }
    requires within { All (IsWithin 12) cs.now }
    ensures { ReadsBounds attrs cs.now (grouped lines.now).paths result }
{
    let mut bounds: [Option<i64>; 169] = [None; 169];
    let mut first = 0;
    for line in lines {
        let Line::Path(path) = line else {
            return Some(bounds);
        };
        first = add_path(attrs, cs, path, first, &mut bounds)?;
    }
    Some(bounds)
}

/// Returns the bound of a node above another.
pub fn between(bounds: &[Option<i64>; 169], left: u8, right: u8) -> Option<i64>
    ensures { result ≡ bound_at bounds.now left right }
{
    if left == right {
        return Some(0);
    }
    match bounds.get(13 * usize::from(left) + usize::from(right)) {
        Some(bound) => *bound,
        None => None,
    }
}

/// Returns whether there is a bound, and it is at most the limit.
pub fn is_at_most(bound: Option<i64>, limit: i64) -> bool
    ensures { IsTrue result ↔ IsAtMost bound limit }
{
    match bound {
        Some(bound) => bound <= limit,
        None => false,
    }
}

// Whether a constraint before the bound of its right node gives nothing less than the bound of its left node.
fn keeps(bounds: &[Option<i64>; 169], c: Constraint, node: u8) -> bool
    requires within { IsWithin 12 c }
    requires node { node ≤ 12 }
    requires modest { AreModest bounds.now }
    ensures { IsTrue result ↔ Keeps bounds.now c node }
{
    match between(bounds, c.right, node) {
        Some(after) => is_at_most(between(bounds, c.left, node), c.bound + after),
        None => true,
    }
}

// The same above each node.
fn keeps_each(attrs: u8, bounds: &[Option<i64>; 169], c: Constraint) -> bool
    requires attrs { attrs ≤ 12 }
    requires within { IsWithin 12 c }
    requires modest { AreModest bounds.now }
    ensures { IsTrue result ↔ KeepsEach attrs bounds.now c }
{
    for node in 0..=attrs {
        if !keeps(bounds, c, node) {
            return false;
        }
    }
    true
}

/// Returns whether each constraint before a bound gives nothing less than the bound of its left node.
pub fn is_closed(attrs: u8, cs: &[Constraint], bounds: &[Option<i64>; 169]) -> bool
    requires attrs { attrs ≤ 12 }
    requires within { All (IsWithin 12) cs.now }
    requires modest { AreModest bounds.now }
    ensures { IsTrue result ↔ All (KeepsEach attrs bounds.now) cs.now }
{
    cs.iter().all(|c| keeps_each(attrs, bounds, *c))
}
