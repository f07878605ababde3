//! Bounds of the differences of nodes without the chains that they are sums of, and the table of them, with 13 to a row.
ghost use Rattle.std.specs.Prelude.{◌≡◌, ◌≢◌, ℕ, ◌+◌, ◌<◌, ◌≤◌, ◌+ℤ◌, ◌≤ℤ◌, IsTrue, IsFalse, ◌↔◌, pos, neg_ℤ, length, ◌*◌, ◌/◌, ◌%◌, slice_index_or};
ghost use Rattle.plan_constraints.specs.Table.{IsClosed};
ghost use Rattle.plan_closure.specs.Answers.{IsSmall};
ghost use Rattle.plan_closure.specs.Tightened.{lesser, tightened, Agrees};
ghost use Rattle.plan_closure.specs.Shortest.{bound_of, no_distance, between, Undercuts, onward, IsApart, IsKept, IsColumn, Lowers};

use crate::entry::total;
use arrayvec::ArrayVec;
use plan_constraints::Constraint;

/// The least bound of the difference of two nodes, or `i64::MAX` where there is none.
#[derive(Clone, Copy)]
pub struct Distance {
    pub bound: i64,
}

/// Returns the bound of a distance, where there is one.
pub fn bound_of(distance: Distance) -> Option<i64>
    ensures { result ≡ bound_of distance }
{
    if distance.bound < i64::MAX {
        Some(distance.bound)
    } else {
        None
    }
}

// The distance at a place of the table.
fn at(table: &[Distance; 169], place: usize) -> Distance
    requires { place < 169 }
    ensures { result ≡ slice_index_or table.now place no_distance }
{
    table[place]
}

/// Returns the distance from one node to another.
pub fn distance_between(table: &[Distance; 169], left: u8, right: u8) -> Distance
    requires left { left < 13 }
    requires right { right < 13 }
    ensures { result ≡ slice_index_or table.now (13 * left + right) no_distance }
{
    at(table, 13 * usize::from(left) + usize::from(right))
}

// Whether a sum is strictly below what is there.
fn is_below(sum: i64, now: Distance) -> bool
    requires { sum ≤ℤ pos 300000000000000000 }
    ensures { IsTrue result ↔ Undercuts (bound_of now) sum }
{
    sum < now.bound
}

// The lesser of what is there, and of the sum of a bound and a distance.
fn lesser(now: Distance, head: i64, after: Distance) -> Distance
    requires head_low { neg_ℤ (pos 200000000000000000) ≤ℤ head }
    requires head_high { head ≤ℤ pos 200000000000000000 }
    requires after { IsSmall (bound_of after) }
    ensures { bound_of result ≡ lesser (bound_of now) (onward head (bound_of after)) }
{
    let Some(after) = bound_of(after) else {
        return now;
    };
    let sum = total(head, after);
    if is_below(sum, now) {
        Distance { bound: sum }
    } else {
        now
    }
}

// One of some columns.
fn column_at(columns: &[u8], k: usize) -> usize
    requires { k < length columns.now }
    ensures { result ≡ slice_index_or columns.now k 0 }
{
    usize::from(columns[k])
}

// Lowers these columns of a row by the head, over those of the row of the right node.
fn lead(table: &mut [Distance; 169], row: usize, right: usize, columns: &[u8], head: i64)
    requires row { row < 13 }
    requires right { right < 13 }
    requires apart { row ≢ right }
    requires within { (m : ℕ) → m < length columns.now → slice_index_or columns.now m 0 < 13 }
    requires head_low { neg_ℤ (pos 200000000000000000) ≤ℤ head }
    requires head_high { head ≤ℤ pos 200000000000000000 }
    requires small { (m : ℕ) → m < length columns.now → IsSmall (between table.old right (slice_index_or columns.now m 0)) }
    ensures { Lowers table.old row right columns.now (length columns.now) head table.new }
{
    for k in 0..columns.len() {
        let j = column_at(columns, k);
        let now = at(table, 13 * row + j);
        let after = at(table, 13 * right + j);
        table[13 * row + j] = lesser(now, head, after);
    }
}

// Whether the bound and the distance from the right node to a node sum to less than that from the left one.
fn is_lowered(table: &[Distance; 169], left: usize, right: usize, bound: i64, j: usize) -> bool
    requires left { left < 13 }
    requires right { right < 13 }
    requires node { j < 13 }
    requires low { neg_ℤ (pos 1000000000000000) ≤ℤ bound }
    requires high { bound ≤ℤ pos 1000000000000000 }
    requires small { IsSmall (between table.now right j) }
    ensures { IsFalse result → IsKept (between table.now) left right bound j }
{
    let there = at(table, 13 * left + j);
    let after = at(table, 13 * right + j);
    match bound_of(after) {
        Some(after) => {
            let sum = total(bound, after);
            is_below(sum, there)
        }
        None => false,
    }
}

// The nodes to which a bound of the difference of the left and the right node gives the left one a lower bound.
fn lowered(
    table: &[Distance; 169],
    nodes: usize,
    left: usize,
    right: usize,
    bound: i64,
) -> ArrayVec<u8, 13>
    requires nodes { nodes ≤ 13 }
    requires left { left < 13 }
    requires right { right < 13 }
    requires low { neg_ℤ (pos 1000000000000000) ≤ℤ bound }
    requires high { bound ≤ℤ pos 1000000000000000 }
    requires small { (j : ℕ) → j < nodes → IsSmall (between table.now right j) }
    ensures within { (m : ℕ) → m < length result.items → slice_index_or result.items m 0 < nodes }
    ensures others { (j : ℕ) → j < nodes → IsColumn (between table.now) left right bound result.items j }
{
    let mut columns = ArrayVec::new();
    for j in 0..nodes {
        if is_lowered(table, left, right, bound, j) {
            columns.push(j as u8);
        }
    }
    columns
}

// The distance of a place of the table with no constraint.
fn apart_at(k: usize) -> Distance
    ensures { IsApart (k / 13) (k % 13) (bound_of result) }
{
    if k / 13 == k % 13 {
        Distance { bound: 0 }
    } else {
        Distance { bound: i64::MAX }
    }
}

/// Returns the distances with no constraint: each node reaches itself.
pub fn apart() -> [Distance; 169]
    ensures { (k : ℕ) → k < 169 → IsApart (k / 13) (k % 13) (bound_of (slice_index_or result k no_distance)) }
{
    let mut table: [Distance; 169] = [Distance { bound: i64::MAX }; 169];
    for k in 0..169 {
        table[k] = apart_at(k);
    }
    table
}

/// Lowers the distances by one constraint more, which closes no negative cycle. They are closed, so a row gets lower only where its
/// distance to the right node does, and only in columns in which the row of the left node does.
pub fn shorten(table: &mut [Distance; 169], nodes: usize, c: Constraint)
    requires nodes { nodes ≤ 13 }
    requires left { c.left < nodes }
    requires right { c.right < nodes }
    requires low { neg_ℤ (pos 1000000000000000) ≤ℤ c.bound }
    requires high { c.bound ≤ℤ pos 1000000000000000 }
    requires small { (i j : ℕ) → i < nodes → j < nodes → IsSmall (between table.old i j) }
    requires closed { IsClosed nodes (between table.old) }
    requires agrees { Agrees (between table.old) c.left c.right c.bound }
    ensures { (i j : ℕ) → i < nodes → j < nodes → between table.new i j ≡ tightened (between table.old) c.left c.right c.bound i j }
{
    let left = usize::from(c.left);
    let right = usize::from(c.right);
    let columns = lowered(table, nodes, left, right, c.bound);
    for i in 0..nodes {
        let from = at(table, 13 * i + left);
        let to = at(table, 13 * i + right);
        if let Some(before) = bound_of(from) {
            let head = total(before, c.bound);
            if is_below(head, to) {
                lead(table, i, right, columns.as_slice(), head);
            }
        }
    }
}
