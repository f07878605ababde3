//! The distances of a part, and its bounds.
ghost use Rattle.std.specs.Prelude.{◌≡◌, ◌+◌, ◌≤◌, length, take};
ghost use Rattle.sem_query.specs.Query.{QueryValue, attrs_of};
ghost use Rattle.sem_query.specs.Parts.{IsPart};
ghost use Rattle.plan_constraints.specs.PartConstraints.{of_prefix};
ghost use Rattle.plan_closure.specs.Choices.{AreChoices};
ghost use Rattle.plan_closure.specs.Shortest.{AreDistancesOf};
ghost use Rattle.plan_links.specs.Known.{AreKnown, AreBegun, IsKnown, IsBasis, AddsSign};

use crate::links::links_across;
use arrayvec::ArrayVec;
use plan_closure::{Bounds, Choice, Distances, choices};
use plan_constraints::Constraint;
use sem_query::{Link, Part, Query, Sign, is_same_sign};
use std::marker::Model;

/// What all parts of a query share: the distances of its comparisons and domains, what each sign of each pair adds to them, and the
/// links of each attribute with each of another stream. A clause sees the distances, and two lists.
#[derive(Drop)]
pub struct Basis {
    distances: Distances,
    choices: ArrayVec<Choice, 114>,
    links: ArrayVec<Link, 144>,
}

impl Model for Basis {
    ghost use Rattle.plan_links.specs.BasisValue.{BasisValue};

    ghost Value = { BasisValue };

    ghost view = { λ b. record { distances = b.distances; choices = b.choices.items; links = b.links.items } };
}

impl Basis {
    /// Returns what the parts of a query share.
    pub fn new(q: &Query) -> Basis
        ensures { IsBasis q.now result }
    {
        Basis {
            distances: Distances::of_query(q),
            choices: choices(q),
            links: links_across(q),
        }
    }

    /// Returns the links of each attribute with each of another stream.
    pub fn links(&self) -> &[Link]
        ensures { result.now ≡ self.now.links }
    {
        self.links.as_slice()
    }

    /// Returns the distances of no part yet.
    pub fn begin<'a>(&self) -> PartDistances<'a>
        ensures { (q : QueryValue) → IsBasis q self.now → AreBegun q result }
    {
        PartDistances {
            signs: &[],
            count: 0,
            first: self.distances,
            all: self.distances,
        }
    }
}

/// The distances of the part that was read last, and those of some of its first signs, from which the distances of the next part are made where it begins
/// with these, too. A clause sees both, the signs of the part, and how many the first ones are.
#[derive(Drop)]
pub struct PartDistances<'a> {
    signs: &'a [Sign],
    count: usize,
    first: Distances,
    all: Distances,
}

impl<'a> Model for PartDistances<'a> {
    ghost use Rattle.plan_links.specs.PartDistancesValue.{PartDistancesValue};

    ghost Value = { PartDistancesValue };

    ghost view = { λ d. record { signs = d.signs.now; count = d.count; first = d.first; all = d.all } };
}

impl<'a> PartDistances<'a> {
    /// Returns the distances of the part that was read last.
    pub fn all(&self) -> &Distances
        ensures { result.now ≡ self.now.all }
    {
        &self.all
    }
}

// The constraints of the sign of a pair.
fn of_sign<'a>(q: &Query, choices: &'a [Choice], signs: &[Sign], i: usize) -> &'a [Constraint]
    requires choices { AreChoices q.now choices.now }
    requires pair { i + 1 ≤ length choices.now }
    requires sign { i + 1 ≤ length signs.now }
    ensures { AddsSign q.now signs.now i result.now }
{
    // Named for the proof alone: the contract speaks of it.
    let _query = q;
    choices[i].by(signs[i])
}

// How many first signs two lists share.
fn shared_signs(signs: &[Sign], others: &[Sign]) -> usize
    ensures shared { take result signs.now ≡ take result others.now }
    ensures few { result ≤ length others.now }
{
    let mut i = 0;
    'shared: while i < signs.len() && i < others.len() && is_same_sign(signs[i], others[i]) {
        i += 1;
    }
    i
}

// Adds what the signs from one number on add, up to another number.
fn add_signs(q: &Query, p: &Part, basis: &Basis, from: usize, to: usize, distances: &mut Distances)
    requires part { IsPart q.now p.now.signs.items }
    requires basis { IsBasis q.now basis.now }
    requires within { to ≤ length p.now.signs.items }
    requires ascending { from ≤ to }
    requires known { AreDistancesOf distances.old (length (attrs_of q.now.atoms)) (of_prefix q.now (take from p.now.signs.items)) }
    ensures { AreDistancesOf distances.new (length (attrs_of q.now.atoms)) (of_prefix q.now (take to p.now.signs.items)) }
{
    let choices = basis.choices.as_slice();
    let signs = p.signs.as_slice();
    'signs: for i in from..to {
        distances.add_all(of_sign(q, choices, signs, i));
    }
}

// Makes the first distances those of the first signs that a part shares with the one that was read last, and returns how many these are.
fn share_first(q: &Query, p: &Part, basis: &Basis, distances: &mut PartDistances<'_>) -> usize
    requires part { IsPart q.now p.now.signs.items }
    requires basis { IsBasis q.now basis.now }
    requires begun { AreBegun q.now distances.old }
    ensures few { result ≤ length p.now.signs.items }
    ensures first { AreDistancesOf distances.new.first (length (attrs_of q.now.atoms)) (of_prefix q.now (take result p.now.signs.items)) }
{
    let shared = shared_signs(distances.signs, p.signs.as_slice());
    let from = if shared < distances.count {
        distances.first = basis.distances;
        0
    } else {
        distances.count
    };
    add_signs(q, p, basis, from, shared, &mut distances.first);
    shared
}

/// Makes distances those of a part of the query, by way of the signs that it shares with the part that was read last.
pub fn set_distances<'a>(q: &Query, p: &'a Part, basis: &Basis, distances: &mut PartDistances<'a>)
    requires part { IsPart q.now p.now.signs.items }
    requires basis { IsBasis q.now basis.now }
    requires begun { AreBegun q.now distances.old }
    ensures begun { AreBegun q.now distances.new }
    ensures known { AreKnown q.now p.now.signs.items distances.new.all }
{
    let shared = share_first(q, p, basis, distances);
    distances.count = shared;
    distances.signs = p.signs.as_slice();
    distances.all = distances.first;
    add_signs(q, p, basis, shared, p.signs.len(), &mut distances.all);
}

/// Returns the bounds of a part of the query: they answer with the chains that its distances leave out.
pub fn bounds_of(q: &Query, p: &Part, basis: &Basis) -> Bounds
    requires part { IsPart q.now p.now.signs.items }
    requires basis { IsBasis q.now basis.now }
    ensures { IsKnown q.now p.now.signs.items result }
{
    let mut bounds = Bounds::of_query(q);
    let choices = basis.choices.as_slice();
    let signs = p.signs.as_slice();
    for i in 0..signs.len() {
        bounds.add_all(of_sign(q, choices, signs, i));
    }
    bounds
}
