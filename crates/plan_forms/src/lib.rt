//! The plan of a query that is no filter: of a compact one its whole form where that fits, and else that of its parts. `form_plan` gives it.
//!
//! `plan_whole_form` tells a form: its links, what the rows of each stream are asked, and which classes each stream keeps. `made_of` makes of it what a part
//! of a plan keeps, but for where its boxes begin: the conditions in order (`ascending`), each class with its own range, an equality for each two classes of
//! different streams that are equal in each solution (`equal_dims`), the other links by their operators, and the numbers. `whole_form` gives it as the plan
//! of a compact query, its boxes one after another, where all ranges have both ends and no number is above its limit.
//!
//! `parts_plan` gives the plan by parts. Those of a query that is not compact are told by `plan_parts`, and `plan_layout` plans them. Those of a compact query
//! are the parts of its split form, which `form_pairs` and `form_fronts` tell: of each, `part_of` makes the whole form of the query with the signs of the part
//! as further comparisons, or tells what it breaks, and `split_drafts` puts these together, with what they come to. A tuple that several parts have is
//! counted once: there are no more answers than tuples in the least ranges that hold those of all parts (`joined`).
#![tactic(auto)]

mod boxing;
mod drafting;
mod equating;
mod error;
mod few;
mod fitting;
mod form;
mod hulls;
mod linking;
mod making;
mod one;
mod ordering;
mod own;
mod parts;
mod placing;
mod plain;
mod split;
mod whole;

pub use error::PartsRefusal;
pub use form::form_plan;
pub use parts::{parts_drafts, parts_plan};
pub use whole::whole_form;
