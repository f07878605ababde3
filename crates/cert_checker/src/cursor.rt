//! Where the walk over the nodes of a certificate stands.
ghost use Rattle.std.specs.Prelude.{◌≡◌, ◌<◌, ◌≤◌, ◌++◌, [], ◌∷◌, length, All};
ghost use Rattle.sem_query.specs.Query.{attrs_of, IsWithinLimits};
ghost use Rattle.plan_constraints.specs.Solutions.{IsWithin};
ghost use Rattle.cert_checker.specs.Reading.{following};
ghost use Rattle.cert_checker.specs.Branching.{HasRoom};
ghost use Rattle.cert_checker.specs.Shown.{branching_of};
ghost use Rattle.cert_checker.specs.Standing.{width, Adds, Stands, Drops, next_sign, at};

use crate::shown::Shown;
use arrayvec::ArrayVec;
use plan_constraints::{Constraint, add_each, of_query};
use plan_whole::{of_sign, system_constraints};
use sem_query::{Pair, Query, Sign, Signs};

/// The signs of the first pairs, and the constraints of the query's comparisons, of its domains, and of these signs.
#[derive(Drop)]
pub struct TreeCursor {
    pub signs: Signs,
    pub constraints: ArrayVec<Constraint, 300>,
}

// How many constraints a sign stands for.
fn width(sign: Sign) -> usize
    ensures { result ≡ width sign }
{
    match sign {
        Sign::Lt => 1,
        Sign::Eq => 2,
        Sign::Gt => 1,
    }
}

// The sign behind a sign.
fn next_sign(sign: Sign) -> Option<Sign>
    ensures { result ≡ next_sign sign }
{
    match sign {
        Sign::Lt => Some(Sign::Eq),
        Sign::Eq => Some(Sign::Gt),
        Sign::Gt => None,
    }
}

// The constraints at the first node.
fn root_constraints(q: &Query, shown: Shown) -> ArrayVec<Constraint, 300>
    ensures constraints { result.items ≡ (branching_of shown q.now).base }
    ensures within { All (IsWithin (length (attrs_of q.now.atoms))) result.items }
    ensures few { length result.items ≤ 72 }
    ensures limits { IsWithinLimits q.now }
{
    match shown {
        Shown::Plain => of_query(q),
        Shown::Whole => system_constraints(q),
        Shown::Split => system_constraints(q),
    }
}

// The constraints of the next sign.
fn sign_constraints(
    q: &Query,
    shown: Shown,
    pairs: &[Pair],
    signs: &[Sign],
    sign: Sign,
) -> ArrayVec<Constraint, 2>
    requires pairs { pairs.now ≡ (branching_of shown q.now).pairs }
    requires room { length signs.now < length pairs.now }
    ensures { Adds q.now shown signs.now sign result.items }
{
    // Read for the proof alone: the call tells that the query is within the limits.
    let _columns = q.attrs();
    let pair = pairs[signs.len()];
    of_sign(q, pair, sign)
}

impl TreeCursor {
    /// Begins at the first node: there is no sign yet.
    pub fn root(q: &Query, shown: Shown) -> TreeCursor
        requires room { HasRoom (branching_of shown q.now) }
        ensures stands { Stands q.now shown result }
        ensures signs { result.signs.items ≡ [] }
    {
        TreeCursor {
            signs: Signs::new(),
            constraints: root_constraints(q, shown),
        }
    }

    /// Goes one sign deeper.
    pub fn push(&mut self, q: &Query, shown: Shown, pairs: &[Pair], sign: Sign)
        requires pairs { pairs.now ≡ (branching_of shown q.now).pairs }
        requires stands { Stands q.now shown self.old }
        requires room { length self.old.signs.items < length pairs.now }
        ensures stands { Stands q.now shown self.new }
        ensures signs { self.new.signs.items ≡ self.old.signs.items ++ sign ∷ [] }
    {
        let added = sign_constraints(q, shown, pairs, self.signs.as_slice(), sign);
        add_each(&mut self.constraints, added.as_slice());
        self.signs.push(sign);
    }

    // Takes the last sign away.
    fn pop(&mut self) -> Option<Sign>
        ensures { Drops result self.old self.new }
    {
        let sign = self.signs.pop()?;
        let kept = self.constraints.len().saturating_sub(width(sign));
        self.constraints.truncate(kept);
        Some(sign)
    }

    /// Goes on behind all that stands below the signs. Whether there is anything.
    pub fn go_on(&mut self, q: &Query, shown: Shown, pairs: &[Pair]) -> bool
        requires pairs { pairs.now ≡ (branching_of shown q.now).pairs }
        requires stands { Stands q.now shown self.old }
        ensures stands { Stands q.now shown self.new }
        ensures at { at result self.new.signs.items ≡ following self.old.signs.items }
    {
        while let Some(sign) = self.pop() {
            if let Some(next) = next_sign(sign) {
                self.push(q, shown, pairs, next);
                return true;
            }
        }
        false
    }
}
