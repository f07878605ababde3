//! The decision on the leaves of a certificate, which are read one after another.
ghost use Rattle.std.specs.Prelude.{◌≡◌};
ghost use Rattle.sem_query.specs.declared.decision.Decision.TheVariants as decision;
ghost use Rattle.cert_checker.specs.SoFar.{decision_at, plain_decision};
ghost use Rattle.cert_checker.specs.Walking.{Finishes};

use crate::shown::Shown;
use sem_query::{Break, Decision, Query};

/// The decision on the leaves that were read so far: each meets all conditions, or the first that breaks one.
#[derive(Clone, Copy)]
pub struct DecisionSoFar {
    pub decision: Decision,
}

impl DecisionSoFar {
    /// Begins before the first leaf.
    pub fn new() -> DecisionSoFar
        ensures { result.decision ≡ decision.Bounded }
    {
        DecisionSoFar {
            decision: Decision::Bounded,
        }
    }

    /// Returns the decision where the leaf with this number, from 1, is the first that may break a condition.
    pub fn at(number: u32, found: Option<Break>) -> DecisionSoFar
        ensures { result.decision ≡ decision_at number found }
    {
        let decision = match found {
            Some(found) => Decision::Violation {
                part: number,
                condition: found.condition,
                attr: found.attr,
            },
            None => Decision::Bounded,
        };
        DecisionSoFar { decision }
    }

    /// Returns the decision on the query, once all leaves of a good tree were read.
    pub fn finish(self, q: &Query, shown: Shown) -> Decision
        ensures { Finishes q.now shown self result }
    {
        // Read for the proof alone: the call tells that the query is within the limits.
        let _columns = q.select();
        match shown {
            Shown::Plain => self.of_parts(q),
            Shown::Whole => self.decision,
            Shown::Split => self.decision,
        }
    }

    // The decision on a query by its parts: a filter is bounded.
    fn of_parts(self, q: &Query) -> Decision
        ensures { result ≡ plain_decision q.now self.decision }
    {
        if q.is_filter() {
            Decision::Bounded
        } else {
            self.decision
        }
    }
}
