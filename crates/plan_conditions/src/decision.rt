//! The decision on a query.
ghost use Rattle.std.specs.Prelude.{◌≡◌, ◌<◌, ◌^◌, length};
ghost use Rattle.sem_query.specs.Parts.{IsPart, AreParts, sign_lists};
ghost use Rattle.sem_query.specs.Verdict.{IsDecision};
ghost use Rattle.sem_query.specs.FirstBreak.{IsFirstBreak};
ghost use Rattle.plan_links.specs.Known.{IsBasis, AreBegun};

use crate::breaking::violation_of;
use plan_links::{Basis, PartDistances, refs};
use sem_query::{Break, Decision, Part, Query};

// The first condition that a part breaks.
fn break_of<'a>(
    q: &Query,
    p: &'a Part,
    basis: &Basis,
    distances: &mut PartDistances<'a>,
) -> Option<Break>
    requires part { IsPart q.now p.now.signs.items }
    requires basis { IsBasis q.now basis.now }
    requires begun { AreBegun q.now distances.old }
    ensures found { IsFirstBreak q.now p.now.signs.items result }
    ensures begun { AreBegun q.now distances.new }
{
    let refs = refs(q, p, basis, distances);
    violation_of(q, p, &refs)
}

/// Returns what the parts of a query say: all conditions are met, or the first part that breaks one, in it the first condition,
/// and for it the first column. A filter meets all.
pub fn decide(q: &Query, parts: &[Part]) -> Decision
    requires parts { AreParts q.now (sign_lists parts.now) }
    requires few { length parts.now < 2 ^ 32 }
    ensures { IsDecision q.now result }
{
    if q.is_filter() {
        return Decision::Bounded;
    }
    let basis = Basis::new(q);
    let mut distances = basis.begin();
    for i in 0..parts.len() {
        match break_of(q, &parts[i], &basis, &mut distances) {
            Some(found) => {
                return Decision::Violation {
                    part: (i + 1) as u32,
                    condition: found.condition,
                    attr: found.attr,
                };
            }
            None => {}
        }
    }
    Decision::Bounded
}
