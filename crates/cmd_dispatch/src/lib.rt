//! The top call: all that the program does.
//!
//! `run` takes the words after the program's name, the input, the file that the words name, where they name one, and a sink, and answers
//! with a status. Its clauses say of each status what was read and written, and why it came.
#![tactic(auto)]

mod certificate_words;
mod command;
mod ended;
mod help;
mod help_words;
pub mod laws;
mod load;
mod load_words;
mod lower_words;
mod program;
mod session;
mod summary;
mod words;

pub use command::name_file;
pub use ended::Ended;
pub use io_streams::Status;
pub use program::run;
