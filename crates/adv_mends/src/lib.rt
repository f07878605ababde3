//! What would mend a query that is refused, or make it cheaper.
//!
//! A mend is a change to the query: DISTINCT, two comparisons or a domain on each of some columns, one comparison more, COMPACT, shared cells. Each is tried by
//! the decision on the query with the change, and what is answered here is proved of that very query. Sets of columns are tried from the smallest
//! on, and those that contain a set that mends are passed over, so that each one found is a least one. The bounds and the domains that are tried are the widest
//! that can be written, which must leave the query a part, and two close together, below and above all integers that it names: the widest alone would bound the
//! other columns too, since no value is beyond them. A change that leaves no part of the query mends nothing.
//!
//! Of a query that a condition refuses it is also told what the part orders that breaks it; of one that keeps cells in several parts, or too many, which parts keep most.
//! Where a limit refuses a query and neither a comparison with its own constants nor another change lifts that, the range of each column is halved until it does.
#![tactic(auto)]

mod advising;
mod comparing;
mod dearest;
mod judging;
mod meeting;
mod mend;
mod narrowing;
mod searching;
mod writing;

pub use adv_order::{Chain, Step};
pub use advising::{QueryAdvice, advise};
pub use comparing::{BestComparisons, Cheaper, best_comparisons};
pub use dearest::{DearPart, dearest_for};
pub use judging::{Judgement, judge, numbers_with};
pub use meeting::{meets, never_meets, stands};
pub use mend::{ChangeKind, ColumnSet, Ends, Mend};
pub use narrowing::narrowings;
pub use searching::{LeastSets, least_sets};
pub use writing::{mends, stays_met, written};
