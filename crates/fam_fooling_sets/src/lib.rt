//! Families of rows that show why a query is refused: whatever set of the rows of a family came before, the answers tell the set.
//!
//! The decision names a part and a column that is not bounded in it. Each number from 0 on has a value of that column, counted up from its least
//! value or down from its greatest, and a solution of the part's bounds with this value: its row of the column's stream, and the rows of all other
//! streams that ask for it. Nothing is claimed where the part breaks the second condition while a pair lies between streams.
//!
//! Where the part breaks the third condition, one solution is taken, and what lies beyond the constants is moved away from them, farther for each
//! number: so the sides of a link pass each other, and a row fails with what asks for other numbers. With DISTINCT two links are needed that do so in
//! both directions. Nothing is claimed of compact queries, of domains, and of pairs between streams.
//!
//! `moved_family` goes by no part: it takes the assignments of `fam_motions`, of which no mixtures satisfy the query, whatever the query is, or finds none.
#![tactic(auto)]

mod across;
mod error;
mod family;
mod ground;
pub mod laws;
mod lowering;
mod making;
mod motion;
mod moved;
mod passing;
mod point;
mod searching;

pub use error::LowerError;
pub use family::{Asked, Family};
pub use lowering::family_over;
pub use moved::{FoundFamily, moved_family};
