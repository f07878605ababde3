//! The split pairs of a query.
ghost use Rattle.std.specs.Prelude.{◌≡◌, IsTrue, MatchOption};
ghost use Rattle.sem_query.specs.Query.{attrs_of};
ghost use Rattle.plan_split_pairs.specs.Pairs.{own_pairs, split_pairs, HasManyPairs};
ghost use Rattle.plan_split_pairs.specs.Listed.{IsOnce, Adds};

use crate::columns::column_pairs;
use crate::once::add_each;
use crate::unlike::unlike_pairs;
use arrayvec::ArrayVec;
use sem_query::{Pair, Query};

// Adds the pairs of each attribute that are not listed, or none where there is no room for one.
fn add_own(list: &mut ArrayVec<Pair, 114>, q: &Query) -> Option<()>
    requires compact { IsTrue q.now.compact }
    requires once { IsOnce list.old.items }
    ensures { Adds result list.old.items (own_pairs q.now (attrs_of q.now.atoms)) list.new.items }
{
    let attrs = q.attrs();
    for (i, attr) in attrs.iter().enumerate() {
        let pairs = column_pairs(q, *attr, &attrs[i + 1..]);
        add_each(list, pairs.as_slice())?;
    }
    Some(())
}

/// Returns the split pairs of a compact query: those of each `<>`, in the order of the comparisons, and then those of the attributes. None
/// where there are more than 114.
pub fn form_pairs(q: &Query) -> Option<ArrayVec<Pair, 114>>
    requires { IsTrue q.now.compact }
    ensures { MatchOption result (HasManyPairs q.now) (λ list. list.items ≡ split_pairs q.now) }
{
    let mut list = unlike_pairs(q);
    add_own(&mut list, q)?;
    Some(list)
}
