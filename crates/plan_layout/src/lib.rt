//! The plan that an accepted query is given, with its numbers; or the first part that breaks a condition.
//!
//! For each part, `refs` tells the ranges, the classes, the links and the references, once for both. `violation_of` says
//! whether the part breaks a condition; where it does not, from what was told come the dims and the kind of each stream,
//! its number of cells, and what the part adds to the answers and to the work. The numbers are kept as far as 64 bits
//! go, so that each is known to the end even where it is far above its limit.
//!
//! Where cells are shared, the boxes are set anew once all parts are there: the different ones are listed with a code each, and
//! a box begins where the same one that is listed does.
#![tactic(auto)]

mod alike;
mod boxes;
mod classes;
mod codes;
mod dims;
mod draft;
mod error;
mod kinds;
mod limits;
mod lookup;
mod placing;
mod plan;
mod ranges;
mod selecting;
mod shares;
mod sizes;

pub use draft::{PlanDraft, cells_over, narrowed};
pub use error::LayoutError;
pub use plan::{lay_out, part_plans, parts_of, planned, violation_at, with_shared};
