//! The split parts of a query.
ghost use Rattle.std.specs.Prelude.{◌≡◌, ◌≤◌, length, IfOk};
ghost use Rattle.plan_split_pairs.specs.Pairs.{split_pairs};
ghost use Rattle.plan_split_pairs.specs.SplitParts.{AreSplitParts, HasMoreSplitParts};
ghost use Rattle.plan_split_parts.specs.Parts.{OnTooMany};
ghost use Rattle.plan_split_parts.specs.Fronts.{fronts_of, AreFronts, AreSplitPairs};

use crate::error::PartsError;
use crate::front::Front;
use crate::fronts::{first_fronts, next_fronts};
use plan_split_pairs::unlike_pairs;
use sem_query::{Pair, Query};
use std::alloc::Global;

// The fronts of all pairs.
fn all_fronts(
    alloc: Global,
    q: &Query,
    pairs: &[Pair],
    unlikes: usize,
) -> Result<Vec<Front>, PartsError>
    requires pairs { AreSplitPairs q.now pairs.now unlikes }
    ensures fronts { IfOk result (λ fronts. AreFronts q.now (length pairs.now) fronts.items) }
    ensures over { OnTooMany result (HasMoreSplitParts q.now 4096) }
{
    let mut fronts = match first_fronts(alloc, q) {
        Ok(fronts) => fronts,
        Err(_) => return Err(PartsError::Memory),
    };
    for place in 0..pairs.len() {
        match next_fronts(alloc, q, pairs, unlikes, place, fronts.as_slice()) {
            Ok(next) => fronts = next,
            Err(why) => return Err(why),
        }
    }
    Ok(fronts)
}

/// Returns the fronts of all split pairs of a compact query, whose signs are its split parts, ascending: at most 4,096. `TooManyParts` where there
/// are more; `Memory` where the list finds none.
pub fn form_fronts(alloc: Global, q: &Query, pairs: &[Pair]) -> Result<Vec<Front>, PartsError>
    requires pairs { pairs.now ≡ split_pairs q.now }
    requires few { length pairs.now ≤ 114 }
    ensures fronts { IfOk result (λ fronts. AreFronts q.now (length pairs.now) fronts.items) }
    ensures parts { IfOk result (λ fronts. AreSplitParts q.now (fronts_of fronts.items)) }
    ensures few { IfOk result (λ fronts. length fronts.items ≤ 4096) }
    ensures over { OnTooMany result (HasMoreSplitParts q.now 4096) }
{
    let unlikes = unlike_pairs(q);
    match all_fronts(alloc, q, pairs, unlikes.len()) {
        Ok(fronts) => Ok(fronts),
        Err(why) => Err(why),
    }
}
