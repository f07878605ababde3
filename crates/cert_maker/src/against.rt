//! Comparisons that close a branch of the tree.
ghost use Rattle.std.specs.Prelude.{◌≡◌, ◌+◌, ◌<◌, ◌≤◌, ◌++◌, [], ◌∷◌, length};
ghost use Rattle.std.specs.List.{position};
ghost use Rattle.sem_query.specs.Query.{IsWithinLimits};
ghost use Rattle.plan_constraints.specs.Soft.{fails_by, denies_itself};
ghost use Rattle.cert_checker.specs.Shown.{branching_of};
ghost use Rattle.cert_maker.specs.Tree.{IsNodeOf, ClosesAgainst};

use crate::branches::Branches;
use cert_checker::Shown;
use plan_closure::Bounds;
use plan_constraints::{denies_itself, fails_by};
use sem_query::{Atom, Pair, Query, Sign};

// The place of the first comparison that is soft and false where its pair, which this is, has the sign.
fn first_failing(atoms: &[Atom], pair: Pair, sign: Sign) -> Option<usize>
    ensures { result ≡ position (λ t. fails_by t pair sign) atoms.now }
{
    atoms.iter().position(|t| fails_by(t, pair, sign))
}

// The place of the first comparison that says that an element is not itself.
fn first_denial(atoms: &[Atom]) -> Option<usize>
    ensures { result ≡ position (λ t. denies_itself t) atoms.now }
{
    atoms.iter().position(|t| denies_itself(t))
}

// A place as a number from 1.
fn number(place: usize) -> u16
    requires { place < 16 }
    ensures { result ≡ place + 1 }
{
    place as u16 + 1
}

/// Returns the number, from 1, of a comparison that closes the branch at these signs and one more.
pub fn next_against(branches: &Branches, bounds: &Bounds, signs: &[Sign], sign: Sign) -> Option<u16>
    requires node { IsNodeOf branches.now signs.now bounds.now }
    requires room { length signs.now < length branches.now.pairs.now }
    ensures { ClosesAgainst (branching_of branches.now.shown branches.now.query.now) (signs.now ++ sign ∷ []) result }
{
    // Named for the proof alone: the contract speaks of it.
    let _bounds = bounds;
    match first_failing(branches.query.atoms(), branches.pairs[signs.len()], sign) {
        Some(place) => Some(number(place)),
        None => None,
    }
}

// The comparisons that may close a branch of a tree that shows this form.
fn closing_atoms(q: &Query, shown: Shown) -> &[Atom]
    ensures value { result.now ≡ (branching_of shown q.now).atoms }
    ensures few { length result.now ≤ 16 }
    ensures limits { IsWithinLimits q.now }
{
    let atoms = q.atoms();
    match shown {
        Shown::Plain => atoms,
        Shown::Whole => &[],
        Shown::Split => atoms,
    }
}

/// Returns the number, from 1, of a comparison that closes the whole tree.
pub fn root_against(q: &Query, shown: Shown) -> Option<u16>
    ensures against { ClosesAgainst (branching_of shown q.now) [] result }
    ensures limits { IsWithinLimits q.now }
{
    match first_denial(closing_atoms(q, shown)) {
        Some(place) => Some(number(place)),
        None => None,
    }
}
