//! Columns of one group.
ghost use Rattle.std.specs.Prelude.{◌≡◌, IsTrue};
ghost use Rattle.sem_query.specs.Groups.{same_group};
ghost use Rattle.plan_split_pairs.specs.Pairs.{are_beside};

use sem_query::{Attr, Query};

/// Returns whether two columns of a compact query are of one group.
pub fn are_joined(q: &Query, a: Attr, b: Attr) -> bool
    requires { IsTrue q.now.compact }
    ensures { result ≡ same_group q.now.atoms a b }
{
    q.are_of_one_group(a, b)
}

/// Returns whether two columns of a compact query are of one stream and of one group.
pub fn are_beside(q: &Query, a: Attr, b: Attr) -> bool
    requires { IsTrue q.now.compact }
    ensures { result ≡ are_beside q.now a b }
{
    a.stream == b.stream && are_joined(q, a, b)
}
