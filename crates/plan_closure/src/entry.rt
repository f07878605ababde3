//! Entries from node to node, and the table of them, with 13 to a row.

ghost use Rattle.std.specs.Prelude.{◌≡◌, ◌≢◌, ℕ, ◌+◌, ◌<◌, ◌≤◌, ◌^◌, ◌∷◌, [], ◌++◌, ◌+ℤ◌, ◌≤ℤ◌, ◌<ℤ◌, IsTrue, ◌↔◌, pos, neg_ℤ, length, ◌*◌, ◌/◌, ◌%◌, slice_index_or, Option, cond, nat_eq};
ghost use Rattle.plan_closure.specs.Entries.{Improves, IsBetter, IsModest, AreModest, IsUnlinked, IsUnlinkedAt, Leads, IsShorterAt, head_of};
ghost use Rattle.plan_closure.specs.Closure.{bound_at};
ghost use Rattle.plan_closure.specs.Tightened.{Agrees};
ghost use Rattle.plan_constraints.specs.Table.{IsClosed};

use plan_constraints::Constraint;

/// A bound of the difference of two nodes, with the chain of constraints that it is the sum of: the number of the first,
/// the node that it leads to, and how many there are.
#[derive(Clone, Copy)]
pub struct Entry {
    pub bound: i64,
    pub number: u16,
    pub next: u8,
    pub length: u8,
}

/// Returns the way from one node to another.
pub fn entry_between(entries: &[Option<Entry>; 169], left: u8, right: u8) -> Option<Entry>
    ensures { result ≡ slice_index_or entries.now (13 * left + right) None }
{
    match entries.get(13 * usize::from(left) + usize::from(right)) {
        Some(entry) => *entry,
        None => None,
    }
}

/// Returns the sum of two bounds.
pub fn total(before: i64, after: i64) -> i64
    requires low { neg_ℤ (pos 200000000000000000) ≤ℤ before }
    requires high { before ≤ℤ pos 200000000000000000 }
    requires after_low { neg_ℤ (pos 100000000000000000) ≤ℤ after }
    requires after_high { after ≤ℤ pos 100000000000000000 }
    ensures { result ≡ before +ℤ after }
{
    before + after
}

// Whether the sum is strictly below what is there.
fn is_lower(sum: i64, now: Option<Entry>) -> bool
    ensures { IsTrue result ↔ Improves now sum }
{
    match now {
        Some(old) => sum < old.bound,
        None => true,
    }
}

// What is there, or the way by the head where that is strictly lower.
fn better(now: Option<Entry>, head: Entry, after: Entry) -> Option<Entry>
    requires head_low { neg_ℤ (pos 200000000000000000) ≤ℤ head.bound }
    requires head_high { head.bound ≤ℤ pos 200000000000000000 }
    requires head_short { head.length ≤ 13 }
    requires after { AreModest after }
    ensures { IsBetter now head after result }
{
    let sum = total(head.bound, after.bound);
    if !is_lower(sum, now) {
        return now;
    }
    Some(Entry {
        bound: sum,
        number: head.number,
        next: head.next,
        length: head.length + after.length,
    })
}

// The way over a constraint, from a node with a way to its left node.
fn head(before: Entry, here: bool, c: Constraint, number: u16) -> Entry
    requires modest { AreModest before }
    requires low { neg_ℤ (pos 1000000000000000) ≤ℤ c.bound }
    requires high { c.bound ≤ℤ pos 1000000000000000 }
    ensures { result ≡ head_of before here c number }
{
    Entry {
        bound: total(before.bound, c.bound),
        number: if here { number } else { before.number },
        next: if here { c.right } else { before.next },
        length: before.length + 1,
    }
}

/// Returns whether the way back and the constraint close a chain with a negative sum.
pub fn closes(back: Entry, c: Constraint) -> bool
    requires modest { AreModest back }
    requires low { neg_ℤ (pos 1000000000000000) ≤ℤ c.bound }
    requires high { c.bound ≤ℤ pos 1000000000000000 }
    ensures { IsTrue result ↔ ((back.bound +ℤ c.bound) <ℤ pos 0) }
{
    total(back.bound, c.bound) < 0
}

// Leads the ways of a row by the head, where over those of the row of the right node they get lower.
fn lead(entries: &mut [Option<Entry>; 169], row: usize, right: usize, nodes: usize, head: Entry)
    requires row { row < 13 }
    requires right { right < 13 }
    requires apart { row ≢ right }
    requires nodes { nodes ≤ 13 }
    requires head_low { neg_ℤ (pos 200000000000000000) ≤ℤ head.bound }
    requires head_high { head.bound ≤ℤ pos 200000000000000000 }
    requires head_short { head.length ≤ 13 }
    requires modest { (j : ℕ) → j < nodes → IsModest (slice_index_or entries.old (13 * right + j) None) }
    ensures { Leads entries.old row right nodes head entries.new }
{
    for j in 0..nodes {
        if let Some(after) = entries[13 * right + j] {
            entries[13 * row + j] = better(entries[13 * row + j], head, after);
        }
    }
}

// The way of a place of the table with no constraint.
fn unlinked_at(k: usize) -> Option<Entry>
    ensures { IsUnlinked (k / 13) (k % 13) result }
{
    if k / 13 == k % 13 {
        Some(Entry {
            bound: 0,
            number: 0,
            next: 0,
            length: 0,
        })
    } else {
        None
    }
}

/// Returns the ways with no constraint: each node reaches itself.
pub fn unlinked() -> [Option<Entry>; 169]
    ensures { (k : ℕ) → k < 169 → IsUnlinkedAt result k }
{
    let mut entries: [Option<Entry>; 169] = [None; 169];
    for k in 0..169 {
        entries[k] = unlinked_at(k);
    }
    entries
}

/// Returns the ways with one constraint more, which closes no negative cycle. The ways are closed, so a row gets lower only where its way
/// to the right node does.
pub fn tighten(entries: &mut [Option<Entry>; 169], nodes: usize, c: Constraint, number: u16)
    requires nodes { nodes ≤ 13 }
    requires left { c.left < nodes }
    requires right { c.right < nodes }
    requires low { neg_ℤ (pos 1000000000000000) ≤ℤ c.bound }
    requires high { c.bound ≤ℤ pos 1000000000000000 }
    requires modest { (i j : ℕ) → i < nodes → j < nodes → IsModest (slice_index_or entries.old (13 * i + j) None) }
    requires closed { IsClosed nodes (bound_at entries.old) }
    requires agrees { Agrees (bound_at entries.old) c.left c.right c.bound }
    ensures { (i j : ℕ) → i < nodes → j < nodes → IsShorterAt entries.old c number entries.new (13 * i + j) }
{
    let left = usize::from(c.left);
    let right = usize::from(c.right);
    for i in 0..nodes {
        if let Some(before) = entries[13 * i + left] {
            let head = head(before, i == left, c, number);
            if is_lower(head.bound, entries[13 * i + right]) {
                lead(entries, i, right, nodes, head);
            }
        }
    }
}
