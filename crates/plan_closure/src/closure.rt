//! Entries that are kept closed, for constraints that are kept elsewhere.
ghost use Rattle.std.specs.Prelude.{◌≡◌, ℕ, ◌+◌, ◌<◌, ◌≤◌, [], ◌∷◌, ◌++◌, List, length, pos, neg_ℤ, ◌≤ℤ◌, ◌+ℤ◌, ℤ, IsTrue, IsFalse, ◌↔◌, All, ◌*◌, slice_index_or, Option, suc, ◌^◌, nat_abs, is_some};
ghost use Rattle.plan_constraints.specs.Solutions.{IsWithin, IsSatisfiable, Allows, Implies};
ghost use Rattle.plan_closure.specs.Entries.{IsModest, walked};
ghost use Rattle.plan_constraints.specs.declared.constraint.Constraint.{Constraint};

use crate::entry::{Entry, closes, entry_between, tighten, unlinked};
use crate::path::ConstraintPath;
use crate::solution::solution;
use arrayvec::ArrayVec;
use plan_constraints::Constraint;
use std::marker::Model;

/// The numbers of constraints that close a chain with a negative sum, of which there is at least one. A clause sees them as a
/// list.
#[derive(Clone, Copy)]
pub struct Cycle {
    first: u16,
    rest: ConstraintPath,
}

impl Model for Cycle {
    ghost use Rattle.std.specs.Prelude.{List, ℕ};

    ghost Value = { List ℕ };

    ghost use Rattle.plan_closure.specs.Rounds.{numbers_of, cycle_of};

    ghost view = { numbers_of };

    ghost inverse = { cycle_of };
}

impl Cycle {
    /// Returns its numbers as a list.
    pub fn list(&self) -> ArrayVec<u16, 13>
        ensures { result.items ≡ self.now }
    {
        behind(self.first, self.rest.list().as_slice())
    }
}

// A number with others behind it.
fn behind(first: u16, rest: &[u16]) -> ArrayVec<u16, 13>
    requires { length rest.now ≤ 12 }
    ensures { result.items ≡ first ∷ rest.now }
{
    let mut list = ArrayVec::new();
    list.push(first);
    for number in rest {
        list.push(*number);
    }
    list
}

/// What the constraints that were added imply, without these themselves: of each two nodes the least bound of their
/// difference, or a cycle that shows that no integers meet all. It stands for each list of constraints with these.
/// A clause sees the number of attributes, how many constraints were added, the table, and the numbers of the cycle.
#[derive(Clone, Copy)]
pub struct Closure {
    attrs: u8,
    count: u16,
    entries: [Option<Entry>; 169],
    cycle: Option<Cycle>,
}

impl Model for Closure {
    ghost use Rattle.plan_closure.specs.ClosureValue.{ClosureValue};

    ghost Value = { ClosureValue };

    ghost view = { λ k. record { attrs = k.attrs; count = k.count; entries = k.entries; cycle = k.cycle } };

    ghost inverse = { λ v. record { attrs = v.attrs; count = v.count; entries = v.entries; cycle = v.cycle } };
}

impl Closure {
    ghost use Rattle.plan_closure.specs.Closure.{IsClosureOf, HasRoom, entry_at, bound_at};
    ghost use Rattle.plan_closure.specs.Answers.{at_nodes};
    ghost use Rattle.plan_closure.specs.Pinned.{pinned};
    ghost use Rattle.plan_constraints.specs.Reach.{reach};
    ghost use Rattle.plan_closure.specs.Cycles.{IsClosing, IsImplied};

    /// Makes a closure of no constraint, for at most 12 attributes.
    pub fn new(attrs: u8) -> Closure
        requires { attrs < 13 }
        ensures { IsClosureOf result attrs [] }
    {
        Closure {
            attrs,
            count: 0,
            entries: unlinked(),
            cycle: None,
        }
    }

    // Whether a cycle shows that no integers meet all constraints.
    fn is_broken(&self) -> bool
        ensures { result ≡ is_some self.now.cycle }
    {
        self.cycle.is_some()
    }

    // The cycle that the constraint closes, if its sum is negative.
    fn closed_by(&self, c: Constraint) -> Option<Cycle>
        requires modest { IsModest (slice_index_or self.now.entries (13 * c.right + c.left) None) }
        requires within { IsWithin self.now.attrs c }
        requires few { self.now.count < 300 }
        ensures { IsClosing (slice_index_or self.now.entries (13 * c.right + c.left) None) c.bound (self.now.count + 1) (λ n. walked self.now.entries n c.right c.left) result }
    {
        match self.entry(c.right, c.left) {
            Some(back) => {
                if closes(back, c) {
                    Some(Cycle {
                        first: self.count + 1,
                        rest: self.walk(c.right, c.left, back.length),
                    })
                } else {
                    None
                }
            }
            None => None,
        }
    }

    // Whether a bound that is at most the constraint's is there.
    fn has_bound(&self, c: Constraint) -> bool
        ensures { IsTrue result ↔ IsImplied (slice_index_or self.now.entries (13 * c.left + c.right) None) c.bound }
    {
        match self.entry(c.left, c.right) {
            Some(entry) => entry.bound <= c.bound,
            None => false,
        }
    }

    /// Adds a constraint.
    pub fn add(&mut self, c: Constraint)
        requires known { HasRoom self.old 1 }
        requires within { IsWithin self.old.attrs c }
        ensures { (n : ℕ) (cs : List Constraint) → IsClosureOf self.old n cs → IsClosureOf self.new n (cs ++ c ∷ []) }
    {
        if !self.is_broken() && !self.has_bound(c) {
            match self.closed_by(c) {
                Some(cycle) => self.cycle = Some(cycle),
                None => tighten(
                    &mut self.entries,
                    usize::from(self.attrs) + 1,
                    c,
                    self.count + 1,
                ),
            }
        }
        self.count += 1;
    }

    /// Returns whether some integers for the nodes, node 0 being 0, meet all constraints.
    pub fn satisfiable(&self) -> bool
        ensures { (n : ℕ) (cs : List Constraint) → IsClosureOf self.now n cs → IsTrue result ↔ IsSatisfiable cs }
    {
        !self.is_broken()
    }

    /// Adds these constraints, in order.
    pub fn add_all(&mut self, cs: &[Constraint])
        requires known { HasRoom self.old (length cs.now) }
        requires within { All (IsWithin self.old.attrs) cs.now }
        ensures { (n : ℕ) (ks : List Constraint) → IsClosureOf self.old n ks → IsClosureOf self.new n (ks ++ cs.now) }
    {
        for c in cs {
            self.add(*c);
        }
    }

    /// The way from one node to another.
    pub(crate) fn entry(&self, left: u8, right: u8) -> Option<Entry>
        ensures { result ≡ entry_at self.now.entries left right }
    {
        entry_between(&self.entries, left, right)
    }

    /// The numbers of the first constraints of the chain between two nodes, so many as `length` says.
    pub(crate) fn walk(&self, from: u8, to: u8, length: u8) -> ConstraintPath
        requires { length ≤ 12 }
        ensures { result ≡ walked self.now.entries length from to }
    {
        ConstraintPath::walk(&self.entries, from, to, length)
    }

    /// The cycle that shows that no integers meet all constraints, where there is one.
    pub(crate) fn cycle(&self) -> Option<Cycle>
        ensures { result ≡ self.now.cycle }
    {
        self.cycle
    }

    /// The values of the attributes in a solution that gives node i the value, which is within the bounds of that node.
    pub(crate) fn solution(&self, i: u8, value: i128) -> ArrayVec<i128, 12>
        requires attrs { self.now.attrs ≤ 12 }
        requires low { neg_ℤ (pos (10 ^ 30)) ≤ℤ value }
        requires high { value ≤ℤ pos (10 ^ 30) }
        ensures long { length result.items ≡ self.now.attrs }
        ensures each { (k : ℕ) → k < self.now.attrs → at_nodes result.items (k + 1) ≡ reach (bound_at self.now.entries) (pinned i value (pos 100000000000000000 +ℤ pos (nat_abs value))) (self.now.attrs + 1) (k + 1) }
    {
        solution(&self.entries, self.attrs, i, value)
    }
}
