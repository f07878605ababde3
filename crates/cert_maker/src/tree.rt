//! The tree of signs.
ghost use Rattle.std.specs.Prelude.{◌≡◌, ◌<◌, ◌≤◌, ◌++◌, ◌∷◌, [], length};
ghost use Rattle.sem_query.specs.Query.{IsWithinLimits};
ghost use Rattle.plan_constraints.specs.Solutions.{IsSatisfiable};
ghost use Rattle.cert_format.specs.declared.line.Line.TheVariants as line;
ghost use Rattle.cert_checker.specs.Shown.{branching_of};
ghost use Rattle.cert_maker.specs.Tree.{IsNodeOf, WalksOf};

use crate::adding::add;
use crate::against::{next_against, root_against};
use crate::branches::Branches;
use crate::error::MakeError;
use crate::leaf::add_leaf;
use crate::node::{deeper, root, with_sign};
use arrayvec::ArrayVec;
use cert_format::{Certificate, Line};
use plan_closure::Bounds;
use sem_query::{Sign, Signs};

// The line of a node that no integers meet. It has at most as many numbers as there is room for.
fn cycle_line(numbers: ArrayVec<u16, 13>) -> Line
    ensures is { result ≡ line.Infeasible numbers }
    ensures few { length numbers.items ≤ 13 }
{
    // Read for the proof alone: the call tells how many there are at most.
    let _numbers = numbers.as_slice();
    Line::Infeasible(numbers)
}

/// Adds the nodes from the one at these signs down. `parts` counts the parts that were met.
#[cycle(walk)]
pub fn walk(
    branches: &Branches,
    bounds: &Bounds,
    signs: &[Sign],
    certificate: &mut Certificate,
    parts: &mut u32,
) -> Result<(), MakeError>
    requires node { IsNodeOf branches.now signs.now bounds.now }
    requires few { parts.old ≤ 4096 }
    ensures { WalksOf result branches.now signs.now certificate.old certificate.new parts.old parts.new }
{
    match bounds.cycle() {
        Some(numbers) => add(cycle_line(numbers), certificate),
        None if signs.len() == branches.pairs.len() => {
            let attrs = branches.query.attrs().len() as u8;
            add_leaf(bounds, attrs, certificate, parts)
        }
        None => split(branches, bounds, signs, certificate, parts),
    }
}

// The same where a part may begin with the signs, and some pairs have none.
#[cycle(walk)]
fn split(
    branches: &Branches,
    bounds: &Bounds,
    signs: &[Sign],
    certificate: &mut Certificate,
    parts: &mut u32,
) -> Result<(), MakeError>
    requires node { IsNodeOf branches.now signs.now bounds.now }
    requires room { length signs.now < length branches.now.pairs.now }
    requires satisfiable { IsSatisfiable bounds.now.constraints }
    requires few { parts.old ≤ 4096 }
    ensures { WalksOf result branches.now signs.now certificate.old certificate.new parts.old parts.new }
{
    add(Line::Split(signs.len() as u16 + 1), certificate)?;
    subtree(branches, bounds, signs, Sign::Lt, certificate, parts)?;
    subtree(branches, bounds, signs, Sign::Eq, certificate, parts)?;
    subtree(branches, bounds, signs, Sign::Gt, certificate, parts)
}

// The same for these signs and one more. It is not inlined, so that each level of the tree has one copy of the bounds on the stack.
#[inline(never)]
#[cycle(walk)]
fn subtree(
    branches: &Branches,
    bounds: &Bounds,
    signs: &[Sign],
    sign: Sign,
    certificate: &mut Certificate,
    parts: &mut u32,
) -> Result<(), MakeError>
    requires node { IsNodeOf branches.now signs.now bounds.now }
    requires room { length signs.now < length branches.now.pairs.now }
    requires few { parts.old ≤ 4096 }
    ensures { WalksOf result branches.now (signs.now ++ sign ∷ []) certificate.old certificate.new parts.old parts.new }
{
    match next_against(branches, bounds, signs, sign) {
        Some(number) => add(Line::Against(number), certificate),
        None => {
            let next = deeper(branches, bounds, signs, sign);
            let longer = with_sign(signs, sign);
            walk(branches, &next, longer.as_slice(), certificate, parts)
        }
    }
}

/// Adds the nodes of the tree from the root down. `parts` counts the parts that were met.
pub fn from_root(
    branches: &Branches,
    certificate: &mut Certificate,
    parts: &mut u32,
) -> Result<(), MakeError>
    requires pairs { branches.now.pairs.now ≡ (branching_of branches.now.shown branches.now.query.now).pairs }
    requires few_pairs { length branches.now.pairs.now ≤ 114 }
    requires few { parts.old ≤ 4096 }
    ensures walks { WalksOf result branches.now [] certificate.old certificate.new parts.old parts.new }
    ensures limits { IsWithinLimits branches.now.query.now }
{
    match root_against(branches.query, branches.shown) {
        Some(number) => add(Line::Against(number), certificate),
        None => {
            let bounds = root(branches.query, branches.shown);
            let signs = Signs::new();
            walk(branches, &bounds, signs.as_slice(), certificate, parts)
        }
    }
}
