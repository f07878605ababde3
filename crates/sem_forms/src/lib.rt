//! The plan of any query: of a compact one its whole form where that fits, and else its parts.
//!
//! A compact query is planned as one part where that part is within its limits. Where it is not, it is cut by the signs of its split pairs:
//! the plan of each split part is that of the whole form of the query with these signs as comparisons. The parts of each other query are
//! ordered parts, which `plan_layout` plans. Here stand the definitions and what holds of them; `plan_forms` makes the plans.
#![tactic(auto)]

pub mod laws;
