//! What is wrong with a line, by facts.
//!
//! A line is read as a session reads it, over the streams and the names of the live queries alone. What is wrong with it is told by
//! the fault, of which the session's word is one part: where the grammar is left and what may stand there, which name is not there, how
//! many fields are wanted, which of them is no integer. In a session that is locked, a line that the lock does not let is told with the
//! line that locked.
#![tactic(auto)]

mod diagnosis;
mod fault;
mod marks;
mod names;
mod passing;
mod rows;
mod statements;

pub use diagnosis::{diagnose, diagnose_locked};
pub use fault::{Asks, Diagnosis, Fault, Known, Lock, word_of};
pub use marks::place_of;
pub use names::names_of_columns;
pub use rows::fields_text;
