//! The command `lower`.
//!
//! It reads a script of one query, and writes rows that show why the query is refused: a family of as many rows as are asked for, for the first two
//! conditions or for all three. Where the query has none, it says why. It writes nothing before all is known.
#![tactic(auto)]

mod finding;
mod form;
mod lines;
mod lower_command;
mod printing;

pub use finding::{LowerFinding, NoFamily};
pub use form::{Families, LowerForm};
pub use lower_command::lower;
