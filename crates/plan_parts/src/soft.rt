//! Soft comparisons under the signs of pairs.
ghost use Rattle.std.specs.Prelude.{◌≡◌, ◌≤◌, length, filter, slice_get};
ghost use Rattle.std.specs.List.{list_any};
ghost use Rattle.sem_query.specs.Query.{is_soft};
ghost use Rattle.sem_query.specs.Parts.{pairs};
ghost use Rattle.plan_constraints.specs.Soft.{fails_by, next_fails, denies_itself};
ghost use Rattle.plan_parts.specs.Soft.{fails_at, IsFails, AreFails};

use arrayvec::ArrayVec;
use plan_constraints::{denies_itself, fails_by};
use sem_query::{Atom, Pair, Query, Sign};

// Whether one of some comparisons is soft, names the pair, and is false where the pair has the sign.
fn some_fails(atoms: &[Atom], pair: Pair, sign: Sign) -> bool
    ensures { result ≡ list_any (λ t. fails_by t pair sign) atoms.now }
{
    atoms.iter().any(|t| fails_by(t, pair, sign))
}

/// By which signs of a pair a soft comparison of the query is false.
#[derive(Clone, Copy, Debug, Default, PartialEq, Eq)]
pub struct Fails {
    less: bool,
    equal: bool,
    greater: bool,
}

impl Fails {
    // Whether one is false by the sign.
    fn by(&self, sign: Sign) -> bool
        ensures { result ≡ fails_at self.now sign }
    {
        match sign {
            Sign::Lt => self.less,
            Sign::Eq => self.equal,
            Sign::Gt => self.greater,
        }
    }
}

// By which signs of the pair a soft comparison of the query is false.
fn fails_of(q: &Query, pair: Pair) -> Fails
    ensures { IsFails q.now pair result }
{
    Fails {
        less: some_fails(q.atoms(), pair, Sign::Lt),
        equal: some_fails(q.atoms(), pair, Sign::Eq),
        greater: some_fails(q.atoms(), pair, Sign::Gt),
    }
}

// How many comparisons of the query are soft.
fn count_soft(q: &Query) -> usize
    ensures { result ≡ length (filter (λ t. is_soft t.op) q.now.atoms) }
{
    q.atoms().iter().filter(|t| t.op.is_soft()).count()
}

/// Lists by which signs of the first pairs, in order, a soft comparison of the query is false: of at least those that soft comparisons
/// name, and of no more than there are soft comparisons.
pub fn failing_signs(q: &Query) -> ArrayVec<Fails, 114>
    ensures fails { AreFails q.now result.items }
    ensures few { length result.items ≤ length (filter (λ t. is_soft t.op) q.now.atoms) }
{
    let pairs = q.pairs();
    let pairs = pairs.as_slice();
    let mut list = ArrayVec::new();
    for i in 0..count_soft(q).min(pairs.len()) {
        list.push(fails_of(q, pairs[i]));
    }
    list
}

/// Returns whether a comparison of the query is false where the next pair has this sign.
pub fn next_fails(q: &Query, fails: &[Fails], signs: &[Sign], sign: Sign) -> bool
    requires { AreFails q.now fails.now }
    ensures { result ≡ next_fails q.now.atoms (slice_get (pairs q.now) (length signs.now)) sign }
{
    // Named for the proof alone: the contract speaks of it.
    let _query = q;
    let place = signs.len();
    if place < fails.len() {
        fails[place].by(sign)
    } else {
        false
    }
}

/// Returns whether a comparison of the query says that an element is not itself.
pub fn has_denial(q: &Query) -> bool
    ensures { result ≡ list_any (λ t. denies_itself t) q.now.atoms }
{
    q.atoms().iter().any(|t| denies_itself(t))
}
