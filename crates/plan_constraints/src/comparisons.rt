//! The constraints of a query's comparisons and domains.
ghost use Rattle.std.specs.Prelude.{◌≡◌, ◌+◌, ◌*◌, ◌≤◌, ◌++◌, filter, length, All};
ghost use Rattle.sem_query.specs.Query.{attrs_of, is_soft, IsDomain, IsShort, IsWithinLimits};
ghost use Rattle.sem_query.specs.Order.{IsElement};
ghost use Rattle.plan_constraints.specs.Nodes.{HasAttr};
ghost use Rattle.plan_constraints.specs.PartConstraints.{of_op, at_least, at_most, of_domain, of_base};
ghost use Rattle.plan_constraints.specs.Solutions.{IsWithin};

use crate::constraint::Constraint;
use crate::nodes::{constraints, node, place_of};
use arrayvec::ArrayVec;
use sem_query::{Atom, Attr, Domain, Element, Op, Query, Sign};

// The constraints of a comparison: none where it is soft.
fn of_atom(atom: &Atom, q: &Query) -> ArrayVec<Constraint, 2>
    requires left { IsElement q.now atom.now.left }
    requires right { IsElement q.now atom.now.right }
    requires one { HasAttr atom.now.left atom.now.right }
    ensures value { result.items ≡ of_op (attrs_of q.now.atoms) atom.now.left atom.now.op atom.now.right }
    ensures within { All (IsWithin (length (attrs_of q.now.atoms))) result.items }
{
    match atom.op {
        Op::Lt => constraints(atom.left, Sign::Lt, atom.right, q),
        Op::Eq => constraints(atom.left, Sign::Eq, atom.right, q),
        Op::Gt => constraints(atom.left, Sign::Gt, atom.right, q),
        Op::Le | Op::Ge | Op::Ne => ArrayVec::new(),
    }
}

/// Adds these constraints, in order.
pub fn add_each(list: &mut ArrayVec<Constraint, 300>, cs: &[Constraint])
    requires { length list.old.items + length cs.now ≤ 300 }
    ensures { list.new.items ≡ list.old.items ++ cs.now }
{
    for c in cs {
        list.push(*c);
    }
}

// That a column is at least the least integer of its domain.
fn at_least(attrs: &[Attr], domain: &Domain) -> Constraint
    requires few { length attrs.now ≤ 12 }
    requires low { IsShort domain.now.lo }
    ensures { result ≡ at_least attrs.now domain.now }
{
    Constraint {
        left: 0,
        right: node(attrs, Element::Attr(domain.attr)),
        bound: -domain.lo,
    }
}

// That it is at most the greatest.
fn at_most(attrs: &[Attr], domain: &Domain) -> Constraint
    requires { length attrs.now ≤ 12 }
    ensures { result ≡ at_most attrs.now domain.now }
{
    Constraint {
        left: node(attrs, Element::Attr(domain.attr)),
        right: 0,
        bound: domain.hi,
    }
}

// The constraints of a domain: none where its column is no attribute.
#[tactic(auto, using(crate::proofs::OfDomains::both_ends, crate::proofs::OfDomains::no_ends))]
fn of_domain(domain: &Domain, q: &Query) -> ArrayVec<Constraint, 2>
    requires { IsDomain q.now domain.now }
    ensures value { result.items ≡ of_domain (attrs_of q.now.atoms) domain.now }
    ensures within { All (IsWithin (length (attrs_of q.now.atoms))) result.items }
{
    let attrs = q.attrs();
    let mut list = ArrayVec::new();
    if place_of(attrs, domain.attr) < attrs.len() {
        list.push(at_least(attrs, domain));
        list.push(at_most(attrs, domain));
    }
    list
}

/// Returns the constraints of the query's comparisons, in order, and then of its domains. There is room for those of all its pairs behind
/// them.
pub fn of_query(q: &Query) -> ArrayVec<Constraint, 300>
    ensures value { result.items ≡ of_base q.now }
    ensures within { All (IsWithin (length (attrs_of q.now.atoms))) result.items }
    ensures few { length result.items + 2 * length (filter (λ t. is_soft t.op) q.now.atoms) ≤ 56 }
    ensures limits { IsWithinLimits q.now }
{
    let mut list = ArrayVec::new();
    for atom in q.atoms() {
        let added = of_atom(atom, q);
        add_each(&mut list, added.as_slice());
    }
    for domain in q.domains() {
        let added = of_domain(domain, q);
        add_each(&mut list, added.as_slice());
    }
    list
}
