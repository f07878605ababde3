//! The first condition that the form of a leaf breaks.
ghost use Rattle.sem_whole.specs.Signed.{with_signs, AreSignedPairs};
ghost use Rattle.plan_whole.specs.Closed.{IsClosedSystem};
ghost use Rattle.cert_checker.specs.Shown.{FormBreaks, IsFirstBreakBy};

use plan_whole::{closed_at, links_of};
use plan_whole_form::first_break;
use sem_query::{Break, Pair, Query, Sign};

/// Returns the first condition that the whole form of a query with the signs of some of its pairs breaks, and the first column that shows it, by the
/// table of the least bounds between its nodes, 13 to a row. None where it breaks no condition.
#[tactic(auto, using(crate::proofs::FormDecided::first_form_break))]
pub fn form_break(
    q: &Query,
    pairs: &[Pair],
    signs: &[Sign],
    bounds: &[Option<i64>; 169],
) -> Option<Break>
    requires signed { AreSignedPairs q.now pairs.now signs.now }
    requires closed { IsClosedSystem (with_signs pairs.now signs.now q.now) bounds.now }
    ensures { IsFirstBreakBy (FormBreaks pairs.now q.now signs.now) result }
{
    let closed = closed_at(q, pairs, signs, bounds);
    let links = links_of(&closed);
    first_break(&closed, links.as_slice())
}
