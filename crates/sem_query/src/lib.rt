//! Queries over streams, and what they mean.
//!
//! The definitions in `specs/` fix the meaning of every query: the assignments of integers to columns, the atoms that
//! hold of one, the answers over all rows so far, and what one more row adds to them. These keep every row and know no
//! part, cell or count. Beside them stand the parts of a query, the order and the links that hold in each, and the
//! violation of a query, with the laws of these; and then what is kept in place of the rows: the plan of a query with
//! its numbers, the verdict, the cells of a history, and what cells and table tell of the answers to come. All that runs
//! is proved against them. The laws on plans and cells stand in `sem_laws`.
#![tactic(auto)]

mod alone;
mod atom;
mod boxes;
mod cell;
mod condition;
mod decision;
mod dims;
mod first_break;
mod groups;
pub mod laws;
mod naming;
mod part;
mod plan;
mod query;
mod row;
mod signs;

pub use alone::{value_alone, value_at};
pub use atom::{Atom, Attr, Domain, Element, Op, is_before, is_same, is_same_element};
pub use boxes::{cell_index, place_of, size_of, values_at};
pub use cell::Cell;
pub use condition::Condition;
pub use decision::{Decision, Which};
pub use dims::dims_at;
pub use first_break::{Break, first_of_three, sooner_if};
pub use naming::{put_attr, put_element};
pub use part::{Pair, Part, Sign, Signs, is_same_pair};
pub use plan::{
    Dim, Kind, Link, LocalCondition, Locals, Numbers, PartPlan, PartPlans, Plan, SoftLink,
    StreamPlan,
};
pub use query::Query;
pub use row::{Row, Tuple};
pub use signs::{is_same_sign, is_within};
