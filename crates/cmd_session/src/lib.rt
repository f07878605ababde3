//! A session: one line after another to its reply.
//!
//! A session stands for a state: the streams, the live queries with all rows since they were created, and the numbers of
//! rows and lines. What a line asks for follows from state and line; a query that is asked for comes to a verdict. The reply and
//! the next state are functions of state and answer. The session keeps no row. A checkpoint is a reply whose lines lead a fresh
//! session to a state that keeps the same. Under a lock only empty lines, comments, rows of the open streams and the UNLOCK of its number
//! are taken.
//!
//! `take_turn` answers the next line of a source, and `run_lines` one after another: what is held is written before the source is read, so no
//! reply waits while the program waits for input. `Session::front_ahead` takes the rows at the front of a text at once, as long as each live query
//! refuses them by their streams.
#![tactic(auto)]

mod announced;
mod checkpoint;
mod counting;
mod create_query;
mod fetch;
mod front;
pub mod laws;
mod lock;
mod one_turn;
mod outcome;
mod resume_line;
mod resuming;
mod run;
mod session;
mod words;

pub use announced::Announced;
pub use counting::CountedRows;
pub use front::Front;
pub use io_row_reader::OpenStreams;
pub use lock::Lock;
pub use one_turn::{Turn, take_turn};
pub use outcome::LineOutcome;
pub use run::{Ending, run_lines};
pub use session::Session;
pub use words::{is_word, read_number, read_row_limit};
