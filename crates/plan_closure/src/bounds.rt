//! Difference bounds that are kept closed.
ghost use Rattle.std.specs.Prelude.{◌≡◌, ℕ, ◌+◌, ◌<◌, ◌≤◌, [], ◌∷◌, ◌++◌, List, length, map, pos, neg_ℤ, ◌≤ℤ◌, ◌<ℤ◌, ◌+ℤ◌, ◌-ℤ◌, ℤ, ◌^◌, ◌*◌, filter, IsTrue, IsFalse, ◌↔◌, MatchOption, Some, None, take, All};
ghost use Rattle.sem_query.specs.Query.{attrs_of, is_soft};
ghost use Rattle.plan_constraints.specs.Solutions.{IsWithin, IsSatisfiable};
ghost use Rattle.plan_constraints.specs.PartConstraints.{of_base};
ghost use Rattle.plan_closure.specs.Answers.{IsBelow, IsAbove};

use crate::closure::Closure;
use arrayvec::ArrayVec;
use plan_constraints::{Constraint, of_query};
use sem_query::Query;
use std::marker::Model;

/// At most 300 constraints between the number 0 and at most 12 attributes, with what they imply. A clause sees how many
/// attributes there are, and the constraints in the order in which they were added.
#[derive(Drop)]
pub struct Bounds {
    constraints: ArrayVec<Constraint, 300>,
    closure: Closure,
}

impl Model for Bounds {
    ghost use Rattle.plan_closure.specs.BoundsValue.{BoundsValue, AreBounds};

    ghost Value = { BoundsValue };

    ghost view = { λ b. record { attrs = b.closure.attrs; constraints = b.constraints.items } };

    ghost invariant = { λ b. AreBounds b.closure b.constraints.items };
}

impl Bounds {
    ghost use Rattle.plan_constraints.specs.Solutions.{IsUpperAnswer, IsLowAnswer, IsHighAnswer};
    ghost use Rattle.plan_closure.specs.Answers.{IsSmall, IsPathAnswer, IsCycleAnswer, IsSolveAnswer, list_of};

    /// Makes bounds with no constraint, for at most 12 attributes.
    pub fn new(attrs: u8) -> Bounds
        requires { attrs < 13 }
        ensures attrs { result.attrs ≡ attrs }
        ensures constraints { result.constraints ≡ [] }
    {
        Bounds {
            constraints: ArrayVec::new(),
            closure: Closure::new(attrs),
        }
    }

    /// Returns the constraints of the query's comparisons and domains, between its attributes.
    pub fn of_query(q: &Query) -> Bounds
        ensures attrs { result.attrs ≡ length (attrs_of q.now.atoms) }
        ensures constraints { result.constraints ≡ of_base q.now }
        ensures within { All (IsWithin (length (attrs_of q.now.atoms))) result.constraints }
        ensures few { length result.constraints + 2 * length (filter (λ t. is_soft t.op) q.now.atoms) ≤ 56 }
        ensures few_attrs { length (attrs_of q.now.atoms) ≤ 12 }
    {
        let mut bounds = Bounds::new(q.attrs().len() as u8);
        bounds.add_all(of_query(q).as_slice());
        bounds
    }

    /// Returns the same bounds.
    pub fn copy(&self) -> Bounds
        ensures attrs { result.attrs ≡ self.now.attrs }
        ensures constraints { result.constraints ≡ self.now.constraints }
    {
        let mut constraints = ArrayVec::new();
        for c in self.constraints.as_slice() {
            constraints.push(*c);
        }
        Bounds {
            constraints,
            closure: self.closure,
        }
    }

    /// Returns whether some integers for the nodes, node 0 being 0, meet all constraints.
    pub fn satisfiable(&self) -> bool
        ensures { IsTrue result ↔ IsSatisfiable self.now.constraints }
    {
        self.closure.satisfiable()
    }

    /// Adds a constraint between nodes that exist, with a bound within 10^15 either way.
    pub fn add(&mut self, c: Constraint)
        requires within { IsWithin self.old.attrs c }
        requires few { length self.old.constraints < 300 }
        ensures attrs { self.new.attrs ≡ self.old.attrs }
        ensures constraints { self.new.constraints ≡ self.old.constraints ++ c ∷ [] }
    {
        self.closure.add(c);
        self.constraints.push(c);
    }

    /// Adds these constraints, in order.
    pub fn add_all(&mut self, cs: &[Constraint])
        requires within { All (IsWithin self.old.attrs) cs.now }
        requires few { length self.old.constraints + length cs.now ≤ 300 }
        ensures attrs { self.new.attrs ≡ self.old.attrs }
        ensures constraints { self.new.constraints ≡ self.old.constraints ++ cs.now }
    {
        for c in cs {
            self.add(*c);
        }
    }

    /// Returns the least bound of `i - j` over all solutions, within 10^17 either way. None where there is no bound.
    pub fn upper(&self, i: u8, j: u8) -> Option<i128>
        requires left { i ≤ self.now.attrs }
        requires right { j ≤ self.now.attrs }
        requires satisfiable { IsSatisfiable self.now.constraints }
        ensures answer { IsUpperAnswer self.now.constraints i j result }
        ensures small { IsSmall result }
    {
        match self.closure.entry(i, j) {
            Some(entry) => Some(i128::from(entry.bound)),
            None => None,
        }
    }

    /// Returns the greatest value of a node over all solutions, within 10^17 either way. None where there is none.
    pub fn hi(&self, i: u8) -> Option<i128>
        requires node { i ≤ self.now.attrs }
        requires satisfiable { IsSatisfiable self.now.constraints }
        ensures answer { IsHighAnswer self.now.constraints i result }
        ensures small { IsSmall result }
    {
        self.upper(i, 0)
    }

    /// Returns the least value of a node over all solutions, within 10^17 either way. None where there is none.
    pub fn lo(&self, i: u8) -> Option<i128>
        requires node { i ≤ self.now.attrs }
        requires satisfiable { IsSatisfiable self.now.constraints }
        ensures answer { IsLowAnswer self.now.constraints i result }
        ensures small { IsSmall result }
    {
        match self.upper(0, i) {
            Some(bound) => Some(-bound),
            None => None,
        }
    }

    /// Returns the numbers, from 1, of at most 12 constraints that lead from `i` to `j` and sum to the least bound of `i - j`. None
    /// where there is no bound.
    pub fn path(&self, i: u8, j: u8) -> Option<ArrayVec<u16, 12>>
        requires left { i ≤ self.now.attrs }
        requires right { j ≤ self.now.attrs }
        requires satisfiable { IsSatisfiable self.now.constraints }
        ensures { IsPathAnswer self.now.constraints i j (list_of result) }
    {
        match self.closure.entry(i, j) {
            Some(entry) => Some(self.closure.walk(i, j, entry.length).list()),
            None => None,
        }
    }

    /// Returns the numbers, from 1, of at most 13 constraints that close a chain with a negative sum. None where the constraints
    /// are satisfiable.
    pub fn cycle(&self) -> Option<ArrayVec<u16, 13>>
        ensures { IsCycleAnswer self.now.constraints (list_of result) }
    {
        match self.closure.cycle() {
            Some(cycle) => Some(cycle.list()),
            None => None,
        }
    }

    /// Returns a value for each attribute, which together meet all constraints and give node `i` the value. Each lies within
    /// 10^17 plus the size of the value, which is within 10^30 either way. None where the value is below the least or above
    /// the greatest of the node.
    pub fn solve_at(&self, i: u8, value: i128) -> Option<ArrayVec<i128, 12>>
        requires node { i ≤ self.now.attrs }
        requires satisfiable { IsSatisfiable self.now.constraints }
        requires low { neg_ℤ (pos (10 ^ 30)) ≤ℤ value }
        requires high { value ≤ℤ pos (10 ^ 30) }
        ensures { IsSolveAnswer self.now.attrs self.now.constraints i value (list_of result) }
    {
        if is_below(value, self.lo(i)) {
            return None;
        }
        if is_above(value, self.hi(i)) {
            return None;
        }
        Some(self.closure.solution(i, value))
    }
}

// Whether the value is below the least, where there is one.
fn is_below(value: i128, least: Option<i128>) -> bool
    ensures { IsTrue result ↔ IsBelow value least }
{
    match least {
        Some(low) => value < low,
        None => false,
    }
}

// Whether the value is above the greatest, where there is one.
fn is_above(value: i128, greatest: Option<i128>) -> bool
    ensures { IsTrue result ↔ IsAbove value greatest }
{
    match greatest {
        Some(high) => high < value,
        None => false,
    }
}
