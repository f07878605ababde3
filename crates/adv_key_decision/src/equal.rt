//! Whether two columns are equal in every assignment that counts, by the parts of the query.
ghost use Rattle.std.specs.Prelude.{◌↔◌, IsTrue, Contains, pos};
ghost use Rattle.sem_query.specs.declared.atom.Element.TheVariants as element;
ghost use Rattle.sem_query.specs.Query.{attrs_of};
ghost use Rattle.sem_query.specs.Parts.{IsPart, AreParts, sign_lists};
ghost use Rattle.sem_query.specs.Order.{IsEqual};
ghost use Rattle.plan_constraints.specs.Nodes.{IsAlwaysAbove};
ghost use Rattle.plan_constraints.specs.PartConstraints.{of_prefix};
ghost use Rattle.plan_links.specs.Known.{AreKnown, IsBasis};
ghost use Rattle.adv_key_decision.specs.Equal.{AreEqual};

use plan_closure::Distances;
use plan_constraints::node;
use plan_links::{Basis, refs};
use sem_query::{Attr, Element, Part, Query};

// Whether a is at most b in all solutions.
fn is_at_most(q: &Query, p: &Part, distances: &Distances, a: Attr, b: Attr) -> bool
    requires known { AreKnown q.now p.now.signs.items distances.now }
    requires left { Contains (attrs_of q.now.atoms) a }
    requires right { Contains (attrs_of q.now.atoms) b }
    ensures { IsTrue result ↔ IsAlwaysAbove (attrs_of q.now.atoms) (of_prefix q.now p.now.signs.items) (element.Attr a) (element.Attr b) (pos 0) }
{
    // Named for the proof alone: the contract speaks of it.
    let _part = p;
    let left = node(q.attrs(), Element::Attr(a));
    let right = node(q.attrs(), Element::Attr(b));
    match distances.upper(left, right) {
        Some(bound) => bound <= 0,
        None => false,
    }
}

// Whether two columns are equal in a part.
fn are_equal_in(q: &Query, p: &Part, basis: &Basis, a: Attr, b: Attr) -> bool
    requires part { IsPart q.now p.now.signs.items }
    requires basis { IsBasis q.now basis.now }
    requires left { Contains (attrs_of q.now.atoms) a }
    requires right { Contains (attrs_of q.now.atoms) b }
    ensures { IsTrue result ↔ IsEqual q.now p.now.signs.items (element.Attr a) (element.Attr b) }
{
    let mut distances = basis.begin();
    // For the distances that it sets: the columns that it gives are not asked for here.
    let _refs = refs(q, p, basis, &mut distances);
    if is_at_most(q, p, distances.all(), a, b) {
        is_at_most(q, p, distances.all(), b, a)
    } else {
        false
    }
}

/// Returns whether two columns that comparisons name are equal in every assignment that counts.
pub fn are_equal_in_all(q: &Query, parts: &[Part], basis: &Basis, a: Attr, b: Attr) -> bool
    requires parts { AreParts q.now (sign_lists parts.now) }
    requires basis { IsBasis q.now basis.now }
    requires left { Contains (attrs_of q.now.atoms) a }
    requires right { Contains (attrs_of q.now.atoms) b }
    ensures { IsTrue result ↔ AreEqual q.now a b }
{
    for i in 0..parts.len() {
        if !are_equal_in(q, &parts[i], basis, a, b) {
            return false;
        }
    }
    true
}
