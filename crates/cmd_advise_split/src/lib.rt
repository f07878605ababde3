//! The command `advise --split`.
//!
//! It reads a script to its end, and writes the least choices of keys for its streams, with how the shards answer each query under each of them. It
//! writes nothing before all is known.
#![tactic(auto)]

mod command;
mod finding;
mod lines;
mod printing;
mod ranges;
mod reading;
mod state;
mod taking;
mod told;

pub use command::split_script;
pub use finding::{Finding, Found};
pub use state::{Splitting, Stop};
pub use told::ToldChoice;
