//! Pairs added to a list, each once.
ghost use Rattle.std.specs.Prelude.{◌≡◌, ◌∷◌, []};
ghost use Rattle.std.specs.List.{list_any};
ghost use Rattle.sem_query.specs.Parts.{pair_eq, each_once};
ghost use Rattle.plan_split_pairs.specs.Listed.{IsOnce, Adds};

use arrayvec::ArrayVec;
use sem_query::{Pair, is_same_pair};

// Whether a pair is among some.
fn is_listed(pairs: &[Pair], pair: Pair) -> bool
    ensures { result ≡ list_any (λ p. pair_eq p pair) pairs.now }
{
    pairs.iter().any(|p| is_same_pair(*p, pair))
}

// Adds a pair where it is not listed, or none where there is no room for it.
fn add(list: &mut ArrayVec<Pair, 114>, pair: Pair) -> Option<()>
    requires { IsOnce list.old.items }
    ensures { Adds result list.old.items (pair ∷ []) list.new.items }
{
    if is_listed(list.as_slice(), pair) {
        return Some(());
    }
    if list.is_full() {
        return None;
    }
    list.push(pair);
    Some(())
}

/// Adds those of some pairs that are not listed, in order. None where there is no room for one.
pub fn add_each(list: &mut ArrayVec<Pair, 114>, pairs: &[Pair]) -> Option<()>
    requires { IsOnce list.old.items }
    ensures { Adds result list.old.items pairs.now list.new.items }
{
    for pair in pairs {
        add(list, *pair)?;
    }
    Some(())
}
