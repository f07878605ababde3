//! Distances that are kept closed, for constraints that are kept elsewhere.
ghost use Rattle.std.specs.Prelude.{◌≡◌, ℕ, ◌+◌, ◌<◌, ◌≤◌, [], ◌∷◌, ◌++◌, List, length, IsTrue, ◌↔◌, All};
ghost use Rattle.sem_query.specs.Query.{attrs_of, IsWithinLimits};
ghost use Rattle.plan_constraints.specs.declared.constraint.Constraint.{Constraint};
ghost use Rattle.plan_constraints.specs.PartConstraints.{of_base};
ghost use Rattle.plan_constraints.specs.Solutions.{IsWithin, IsSatisfiable, Allows, Implies, IsUpperAnswer, IsLowAnswer, IsHighAnswer};
ghost use Rattle.plan_closure.specs.Answers.{IsSmall};
ghost use Rattle.plan_closure.specs.Shortest.{between, IsMet, Closes, AreDistancesOf, AreDistances, AreSatisfiable};

use crate::distance::{Distance, apart, bound_of, distance_between, shorten};
use crate::entry::total;
use plan_constraints::{Constraint, of_query};
use sem_query::Query;

/// What the constraints that were added imply, without these themselves and without the chains that show it: of each two nodes
/// the least bound of their difference, or that no integers meet all. It stands for each list of constraints with these. A table is a third of
/// that of a `Closure`.
#[derive(Clone, Copy)]
pub struct Distances {
    attrs: u8,
    broken: bool,
    table: [Distance; 169],
}

impl Distances {
    /// Makes the distances of no constraint, for at most 12 attributes.
    pub fn new(attrs: u8) -> Distances
        requires { attrs < 13 }
        ensures { AreDistancesOf result attrs [] }
    {
        Distances {
            attrs,
            broken: false,
            table: apart(),
        }
    }

    // Whether a bound that is at most the constraint's is there.
    fn has_bound(&self, c: Constraint) -> bool
        requires few { self.now.attrs < 13 }
        requires within { IsWithin self.now.attrs c }
        ensures { IsTrue result ↔ IsMet (between self.now.table c.left c.right) c.bound }
    {
        match bound_of(distance_between(&self.table, c.left, c.right)) {
            Some(bound) => bound <= c.bound,
            None => false,
        }
    }

    // Whether the constraint closes a chain with a negative sum.
    fn is_closed_by(&self, c: Constraint) -> bool
        requires few { self.now.attrs < 13 }
        requires within { IsWithin self.now.attrs c }
        requires small { IsSmall (between self.now.table c.right c.left) }
        ensures { IsTrue result ↔ Closes (between self.now.table c.right c.left) c.bound }
    {
        match bound_of(distance_between(&self.table, c.right, c.left)) {
            Some(back) => total(back, c.bound) < 0,
            None => false,
        }
    }

    /// Adds a constraint.
    pub fn add(&mut self, c: Constraint)
        requires known { AreDistances self.old }
        requires within { IsWithin self.old.attrs c }
        ensures { (n : ℕ) (cs : List Constraint) → AreDistancesOf self.old n cs → AreDistancesOf self.new n (cs ++ c ∷ []) }
    {
        if self.broken {
            return;
        }
        if self.has_bound(c) {
            return;
        }
        if self.is_closed_by(c) {
            self.broken = true;
            return;
        }
        shorten(&mut self.table, usize::from(self.attrs) + 1, c);
    }

    /// Returns whether some integers for the nodes, node 0 being 0, meet all constraints.
    pub fn satisfiable(&self) -> bool
        ensures { (n : ℕ) (cs : List Constraint) → AreDistancesOf self.now n cs → IsTrue result ↔ IsSatisfiable cs }
    {
        !self.broken
    }

    /// Returns whether some integers meet the constraint beside those that were added.
    pub fn allows(&self, c: Constraint) -> bool
        requires known { AreDistances self.now }
        requires within { IsWithin self.now.attrs c }
        ensures { (n : ℕ) (cs : List Constraint) → AreDistancesOf self.now n cs → IsTrue result ↔ Allows cs c }
    {
        if self.broken {
            return false;
        }
        !self.is_closed_by(c)
    }

    /// Returns whether all integers that meet the constraints that were added meet this one.
    pub fn implies(&self, c: Constraint) -> bool
        requires known { AreDistances self.now }
        requires within { IsWithin self.now.attrs c }
        ensures { (n : ℕ) (cs : List Constraint) → AreDistancesOf self.now n cs → IsTrue result ↔ Implies cs c }
    {
        if self.broken {
            return true;
        }
        self.has_bound(c)
    }

    /// Adds these constraints, in order.
    pub fn add_all(&mut self, cs: &[Constraint])
        requires known { AreDistances self.old }
        requires within { All (IsWithin self.old.attrs) cs.now }
        ensures { (n : ℕ) (ks : List Constraint) → AreDistancesOf self.old n ks → AreDistancesOf self.new n (ks ++ cs.now) }
    {
        for c in cs {
            self.add(*c);
        }
    }

    /// Returns whether for each of these constraints some integers meet it beside those that were added.
    pub fn allows_each(&self, cs: &[Constraint]) -> bool
        requires known { AreDistances self.now }
        requires within { All (IsWithin self.now.attrs) cs.now }
        ensures { (n : ℕ) (ks : List Constraint) → AreDistancesOf self.now n ks → IsTrue result ↔ All (Allows ks) cs.now }
    {
        for c in cs {
            if !self.allows(*c) {
                return false;
            }
        }
        true
    }

    /// Returns whether all integers that meet the constraints that were added meet each of these.
    pub fn implies_each(&self, cs: &[Constraint]) -> bool
        requires known { AreDistances self.now }
        requires within { All (IsWithin self.now.attrs) cs.now }
        ensures { (n : ℕ) (ks : List Constraint) → AreDistancesOf self.now n ks → IsTrue result ↔ All (Implies ks) cs.now }
    {
        for c in cs {
            if !self.implies(*c) {
                return false;
            }
        }
        true
    }

    /// Returns the distances of the query's comparisons and domains, between its attributes.
    pub fn of_query(q: &Query) -> Distances
        ensures distances { AreDistancesOf result (length (attrs_of q.now.atoms)) (of_base q.now) }
        ensures limits { IsWithinLimits q.now }
    {
        let mut distances = Distances::new(q.attrs().len() as u8);
        distances.add_all(of_query(q).as_slice());
        distances
    }

    /// Returns the least bound of `i - j` over all solutions, within 10^17 either way. None where there is no bound.
    pub fn upper(&self, i: u8, j: u8) -> Option<i64>
        requires satisfiable { AreSatisfiable self.now }
        requires left { i ≤ self.now.attrs }
        requires right { j ≤ self.now.attrs }
        ensures answer { (n : ℕ) (cs : List Constraint) → AreDistancesOf self.now n cs → IsUpperAnswer cs i j result }
        ensures small { IsSmall result }
    {
        bound_of(distance_between(&self.table, i, j))
    }

    /// Returns the greatest value of a node over all solutions, within 10^17 either way. None where there is none.
    pub fn hi(&self, i: u8) -> Option<i64>
        requires satisfiable { AreSatisfiable self.now }
        requires node { i ≤ self.now.attrs }
        ensures answer { (n : ℕ) (cs : List Constraint) → AreDistancesOf self.now n cs → IsHighAnswer cs i result }
        ensures small { IsSmall result }
    {
        self.upper(i, 0)
    }

    /// Returns the least value of a node over all solutions, within 10^17 either way. None where there is none.
    pub fn lo(&self, i: u8) -> Option<i64>
        requires satisfiable { AreSatisfiable self.now }
        requires node { i ≤ self.now.attrs }
        ensures answer { (n : ℕ) (cs : List Constraint) → AreDistancesOf self.now n cs → IsLowAnswer cs i result }
        ensures small { IsSmall result }
    {
        match self.upper(0, i) {
            Some(bound) => Some(-bound),
            None => None,
        }
    }
}
