//! One assignment that satisfies a query.
ghost use Rattle.std.specs.Prelude.{◌≡◌, ◌+◌, ◌≤◌, ◌≤ℤ◌, neg_ℤ, pos, length, IfSome};
ghost use Rattle.sem_query.specs.Query.{attrs_of};
ghost use Rattle.sem_query.specs.Order.{IsElement};
ghost use Rattle.plan_constraints.specs.Nodes.{HasAttr};

use crate::values::Values;
use plan_closure::Bounds;
use plan_constraints::{Constraint, constraints};
use sem_query::{Atom, Op, Query, Sign};

// The sign of the sides of a comparison: one that is soft leaves two, and the choice is whether it is the other one.
fn sign_for(op: Op, other: bool) -> Sign {
    match op {
        Op::Lt => Sign::Lt,
        Op::Eq => Sign::Eq,
        Op::Gt => Sign::Gt,
        Op::Le => { if other { Sign::Eq } else { Sign::Lt } }
        Op::Ge => { if other { Sign::Eq } else { Sign::Gt } }
        Op::Ne => { if other { Sign::Gt } else { Sign::Lt } }
    }
}

// Adds that the sides of a comparison of the query have this sign.
fn add_sign(q: &Query, bounds: &mut Bounds, atom: &Atom, sign: Sign)
    requires left { IsElement q.now atom.now.left }
    requires right { IsElement q.now atom.now.right }
    requires one { HasAttr atom.now.left atom.now.right }
    requires nodes { bounds.old.attrs ≡ length (attrs_of q.now.atoms) }
    requires room { length bounds.old.constraints ≤ 200 }
    ensures nodes { bounds.new.attrs ≡ bounds.old.attrs }
    ensures more { length bounds.new.constraints ≤ length bounds.old.constraints + 2 }
{
    let added = constraints(atom.left, sign, atom.right, q);
    bounds.add_all(added.as_slice());
}

// The bounds of a query whose soft comparisons have the signs of a choice, one bit for each.
fn bounds_for(q: &Query, choice: u16) -> Bounds
    ensures nodes { result.attrs ≡ length (attrs_of q.now.atoms) }
    ensures few { length result.constraints ≤ 100 }
{
    let mut bounds = Bounds::of_query(q);
    let mut rest = choice;
    for atom in q.atoms() {
        if atom.op.is_soft() {
            add_sign(q, &mut bounds, atom, sign_for(atom.op, rest % 2 == 1));
            rest /= 2;
        }
    }
    bounds
}

// The least of two ends, or the greatest where there is no least, or 0.
fn first_of(low: Option<i128>, high: Option<i128>) -> i128 {
    match low {
        Some(low) => low,
        None => match high {
            Some(high) => high,
            None => 0,
        },
    }
}

// The same integer in 64 bits, where it lies within 10^15 either way.
fn short(value: i128) -> Option<i64>
    ensures low { IfSome result (λ v. neg_ℤ (pos 1000000000000000) ≤ℤ v) }
    ensures high { IfSome result (λ v. v ≤ℤ pos 1000000000000000) }
{
    if value < -1_000_000_000_000_000 {
        None
    } else if value > 1_000_000_000_000_000 {
        None
    } else {
        Some(value as i64)
    }
}

// Gives a node its least value, or its greatest, or 0, for good.
fn settle(bounds: &mut Bounds, node: u8) -> Option<i128>
    requires node { node ≤ bounds.old.attrs }
    requires room { length bounds.old.constraints ≤ 200 }
    ensures nodes { bounds.new.attrs ≡ bounds.old.attrs }
    ensures more { length bounds.new.constraints ≤ length bounds.old.constraints + 2 }
{
    if !bounds.satisfiable() {
        return None;
    }
    let value = first_of(bounds.lo(node), bounds.hi(node));
    let bound = short(value)?;
    bounds.add(Constraint {
        left: node,
        right: 0,
        bound,
    });
    bounds.add(Constraint {
        left: 0,
        right: node,
        bound: -bound,
    });
    Some(value)
}

// The values of the attributes where the soft comparisons have the signs of a choice, one attribute after another.
fn settled(q: &Query, choice: u16) -> Option<Values> {
    let mut bounds = bounds_for(q, choice);
    let mut values = Values::new();
    for place in 0..q.attrs().len() {
        let value = settle(&mut bounds, place as u8 + 1)?;
        values.push(value);
    }
    Some(values)
}

/// Returns values of the attributes that are likely to satisfy the query and to keep to its domains, or none where none were found.
pub fn base_of(q: &Query) -> Option<Values> {
    for choice in 0..256 {
        match settled(q, choice) {
            Some(values) => return Some(values),
            None => {}
        }
    }
    None
}
