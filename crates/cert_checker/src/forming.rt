//! What breaks at a leaf, by the form of the tree in which it stands.
ghost use Rattle.std.specs.Prelude.{◌≡◌};
ghost use Rattle.cert_checker.specs.OnLeaf.{IsTableOf};
ghost use Rattle.cert_checker.specs.Shown.{branching_of, breaks_by, IsFirstBreakBy};

use crate::breaking::first_break;
use crate::form_break::form_break;
use crate::leaf::Leaf;
use crate::shown::Shown;
use sem_query::{Break, Pair, Query, Sign};

/// Returns the first condition that is broken at a good leaf, with the first column that shows it, or none where all are met. The table tells the
/// bounds that the paths of the leaf give.
pub fn first_break_at(
    q: &Query,
    shown: Shown,
    pairs: &[Pair],
    signs: &[Sign],
    bounds: &[Option<i64>; 169],
) -> Option<Break>
    requires pairs { pairs.now ≡ (branching_of shown q.now).pairs }
    requires table { IsTableOf (branching_of shown q.now) signs.now bounds.now }
    ensures { IsFirstBreakBy (breaks_by shown q.now signs.now) result }
{
    // Read for the proof alone: the call tells that the query is within the limits.
    let _columns = q.select();
    match shown {
        Shown::Plain => first_break(&Leaf {
            query: q,
            signs,
            bounds,
        }),
        Shown::Whole => form_break(q, pairs, signs, bounds),
        Shown::Split => form_break(q, pairs, signs, bounds),
    }
}
