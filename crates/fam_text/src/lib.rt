//! Families over the streams of a catalog: their rows are rows that a session with these streams takes.
#![tactic(auto)]

mod blank;
mod making;
mod printing;

pub use making::{family, found_family};
pub use printing::write_rows;
