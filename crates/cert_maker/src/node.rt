//! The difference bounds of a node of the tree.
ghost use Rattle.std.specs.Prelude.{◌≡◌, ◌<◌, ◌≤◌, ◌++◌, [], ◌∷◌, All, None, length};
ghost use Rattle.sem_query.specs.Query.{attrs_of, IsWithinLimits};
ghost use Rattle.plan_constraints.specs.Solutions.{IsWithin};
ghost use Rattle.cert_checker.specs.Shown.{branching_of};
ghost use Rattle.cert_maker.specs.Tree.{ClosesAgainst, IsNodeOf};

use crate::branches::Branches;
use arrayvec::ArrayVec;
use cert_checker::Shown;
use plan_closure::Bounds;
use plan_constraints::{Constraint, of_query};
use plan_whole::{of_sign, system_constraints};
use sem_query::{Query, Sign, Signs};

// The constraints of the root of a tree that shows this form.
fn base(q: &Query, shown: Shown) -> ArrayVec<Constraint, 300>
    ensures value { result.items ≡ (branching_of shown q.now).base }
    ensures within { All (IsWithin (length (attrs_of q.now.atoms))) result.items }
    ensures few { length result.items ≤ 72 }
{
    match shown {
        Shown::Plain => of_query(q),
        Shown::Whole => system_constraints(q),
        Shown::Split => system_constraints(q),
    }
}

/// Returns the bounds of the root of a tree that shows this form.
pub fn root(q: &Query, shown: Shown) -> Bounds
    ensures attrs { result.attrs ≡ length (attrs_of q.now.atoms) }
    ensures constraints { result.constraints ≡ (branching_of shown q.now).base }
    ensures within { All (IsWithin (length (attrs_of q.now.atoms))) result.constraints }
    ensures few { length result.constraints ≤ 72 }
    ensures limits { IsWithinLimits q.now }
{
    let mut bounds = Bounds::new(q.attrs().len() as u8);
    bounds.add_all(base(q, shown).as_slice());
    bounds
}

/// Returns the bounds of a node that is one sign deeper. It is not inlined: its copies would stay on the stack at each level of the tree.
#[inline(never)]
pub fn deeper(branches: &Branches, bounds: &Bounds, signs: &[Sign], sign: Sign) -> Bounds
    requires node { IsNodeOf branches.now signs.now bounds.now }
    requires room { length signs.now < length branches.now.pairs.now }
    requires agree { ClosesAgainst (branching_of branches.now.shown branches.now.query.now) (signs.now ++ sign ∷ []) None }
    ensures { IsNodeOf branches.now (signs.now ++ sign ∷ []) result }
{
    let added = of_sign(branches.query, branches.pairs[signs.len()], sign);
    let mut next = bounds.copy();
    next.add_all(added.as_slice());
    next
}

/// Returns these signs and one more.
pub fn with_sign(signs: &[Sign], sign: Sign) -> Signs
    requires { length signs.now < 114 }
    ensures { result.items ≡ signs.now ++ sign ∷ [] }
{
    let mut longer = ArrayVec::new();
    for s in signs {
        longer.push(*s);
    }
    longer.push(sign);
    longer
}
