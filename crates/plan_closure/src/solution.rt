//! A solution in which one node has a given value.
ghost use Rattle.std.specs.Prelude.{◌≡◌, ℕ, ◌+◌, ◌<◌, ◌≤◌, pos, neg_ℤ, ◌≤ℤ◌, ◌+ℤ◌, ◌^◌, int_lt, if◌then◌else◌, nat_abs, length};
ghost use Rattle.plan_closure.specs.Answers.{at_nodes};
ghost use Rattle.plan_closure.specs.Closure.{bound_at};
ghost use Rattle.plan_constraints.specs.Reach.{reach};
ghost use Rattle.plan_closure.specs.Pinned.{pinned};

use crate::entry::{Entry, entry_between};
use arrayvec::ArrayVec;

// 0 at node 0, the value at node i, and a large one elsewhere.
#[tactic(auto, unfolding(crate::specs::Pinned::pinned))]
fn first_value(k: u8, i: u8, value: i128, large: i128) -> i128
    requires low { neg_ℤ (pos (10 ^ 31)) ≤ℤ value }
    requires high { value ≤ℤ pos (10 ^ 31) }
    requires large_low { pos 0 ≤ℤ large }
    requires large_high { large ≤ℤ pos (10 ^ 31) }
    ensures value { result ≡ pinned i value large k }
    ensures low { neg_ℤ (pos (10 ^ 31)) ≤ℤ result }
    ensures high { result ≤ℤ pos (10 ^ 31) }
{
    if k == 0 {
        0
    } else if k == i {
        value
    } else {
        large
    }
}

// The bound of a way above a first value.
fn most(entry: Entry, first: i128) -> i128
    requires low { neg_ℤ (pos (10 ^ 31)) ≤ℤ first }
    requires high { first ≤ℤ pos (10 ^ 31) }
    ensures { result ≡ entry.bound +ℤ first }
{
    i128::from(entry.bound) + first
}

fn lesser(a: i128, b: i128) -> i128
    ensures { result ≡ if int_lt b a then b else a }
{
    if b < a { b } else { a }
}

// The greatest value of node k, at most its first one, that keeps within its bounds above the first ones of the others.
fn value_of(
    entries: &[Option<Entry>; 169],
    nodes: u8,
    k: u8,
    i: u8,
    value: i128,
    large: i128,
) -> i128
    requires low { neg_ℤ (pos (10 ^ 31)) ≤ℤ value }
    requires high { value ≤ℤ pos (10 ^ 31) }
    requires large_low { pos 0 ≤ℤ large }
    requires large_high { large ≤ℤ pos (10 ^ 31) }
    ensures { result ≡ reach (bound_at entries.now) (pinned i value large) nodes k }
{
    let mut least = first_value(k, i, value, large);
    for m in 0..nodes {
        if let Some(entry) = entry_between(entries, k, m) {
            least = lesser(least, most(entry, first_value(m, i, value, large)));
        }
    }
    least
}

/// Returns the values of the attributes in a solution that gives node i the value, which is within the bounds of that node.
pub fn solution(entries: &[Option<Entry>; 169], attrs: u8, i: u8, value: i128) -> ArrayVec<i128, 12>
    requires attrs { attrs ≤ 12 }
    requires low { neg_ℤ (pos (10 ^ 30)) ≤ℤ value }
    requires high { value ≤ℤ pos (10 ^ 30) }
    ensures long { length result.items ≡ attrs }
    ensures each { (k : ℕ) → k < attrs → at_nodes result.items (k + 1) ≡ reach (bound_at entries.now) (pinned i value (pos 100000000000000000 +ℤ pos (nat_abs value))) (attrs + 1) (k + 1) }
{
    let large = large_for(value);
    let mut list = ArrayVec::new();
    for k in 0..attrs {
        list.push(value_of(entries, attrs + 1, k + 1, i, value, large));
    }
    list
}

// 10^17 above the size of the value.
fn large_for(value: i128) -> i128
    requires low { neg_ℤ (pos (10 ^ 30)) ≤ℤ value }
    requires high { value ≤ℤ pos (10 ^ 30) }
    ensures { result ≡ pos 100000000000000000 +ℤ pos (nat_abs value) }
{
    if value < 0 {
        100_000_000_000_000_000 - value
    } else {
        100_000_000_000_000_000 + value
    }
}
