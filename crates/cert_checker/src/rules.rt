//! Whether a node of a certificate meets its rules.
ghost use Rattle.std.specs.Prelude.{◌≡◌, ◌↔◌, suc, ◌<◌, ◌≤◌, IsTrue, length, All};
ghost use Rattle.plan_constraints.specs.Solutions.{IsWithin, IsNegativeCycle};
ghost use Rattle.cert_format.specs.Nodes.{grouped};
ghost use Rattle.cert_checker.specs.Shown.{branching_of};
ghost use Rattle.cert_checker.specs.Rules.{IsRefuted, MayBePart};
ghost use Rattle.cert_checker.specs.Standing.{Stands};
ghost use Rattle.cert_checker.specs.Walking.{IsUnless, JudgesLeaf};

use crate::answer::Reason;
use crate::bounds::{bounds_of, is_closed};
use crate::chain::is_negative_cycle;
use crate::cursor::TreeCursor;
use crate::refuting::{any_refuted, refutes};
use crate::shown::{Shown, atoms_of};
use cert_format::Line;
use plan_constraints::Constraint;
use sem_query::{Pair, Query, Sign};

/// Returns the rule of a split: it is at the next pair.
pub fn judge_split(pairs: &[Pair], signs: &[Sign], pair: u16) -> Result<(), Reason>
    ensures { IsUnless ((pair ≡ suc (length signs.now)) × (length signs.now < length pairs.now)) Reason.Shape result }
{
    if signs.len() < pairs.len() && usize::from(pair) == signs.len() + 1 {
        Ok(())
    } else {
        Err(Reason::Shape)
    }
}

/// Returns the rule of an infeasible node: the constraints close a chain with a negative sum.
pub fn judge_cycle(cs: &[Constraint], numbers: &[u16]) -> Result<(), Reason>
    requires within { All (IsWithin 12) cs.now }
    requires few { length numbers.now ≤ 13 }
    ensures { IsUnless (IsNegativeCycle cs.now numbers.now) Reason.Cycle result }
{
    if is_negative_cycle(cs, numbers) {
        Ok(())
    } else {
        Err(Reason::Cycle)
    }
}

/// Returns the rule of a branch that a comparison closes: there is one with this number, and it is refuted.
pub fn judge_against(
    q: &Query,
    shown: Shown,
    pairs: &[Pair],
    signs: &[Sign],
    number: u16,
) -> Result<(), Reason>
    requires { pairs.now ≡ (branching_of shown q.now).pairs }
    ensures { IsUnless (IsRefuted (branching_of shown q.now) signs.now number) Reason.Cycle result }
{
    if refutes(atoms_of(q, shown), pairs, signs, number) {
        Ok(())
    } else {
        Err(Reason::Cycle)
    }
}

// The first rules of a leaf: each pair has its sign, and no comparison is refuted.
fn may_be_part(q: &Query, shown: Shown, pairs: &[Pair], signs: &[Sign]) -> bool
    requires { pairs.now ≡ (branching_of shown q.now).pairs }
    ensures { IsTrue result ↔ MayBePart (branching_of shown q.now) signs.now }
{
    signs.len() == pairs.len() && !any_refuted(atoms_of(q, shown), pairs, signs)
}

/// Returns the rules of a leaf, with the paths at the front of the lines behind it: the bounds that the paths give, or the first rule
/// that is broken.
pub fn judge_leaf(
    q: &Query,
    shown: Shown,
    pairs: &[Pair],
    place: &TreeCursor,
    behind: &[Line],
) -> Result<[Option<i64>; 169], Reason>
    requires pairs { pairs.now ≡ (branching_of shown q.now).pairs }
    requires stands { Stands q.now shown place.now }
    ensures { JudgesLeaf (branching_of shown q.now) place.now.signs.items (grouped behind.now).paths result }
{
    if !may_be_part(q, shown, pairs, place.signs.as_slice()) {
        return Err(Reason::Shape);
    }
    let attrs = q.attrs().len() as u8;
    let cs = place.constraints.as_slice();
    let Some(bounds) = bounds_of(attrs, cs, behind) else {
        return Err(Reason::Path);
    };
    if !is_closed(attrs, cs, &bounds) {
        return Err(Reason::Bound);
    }
    Ok(bounds)
}
