//! Scripts of one query: lines that create streams, and then the line of the query, between blank lines and comments.
//!
//! `read_script` reads a script up to the line of its query, or up to the first line that is refused. Behind that line `read_blank`
//! wants blank lines alone, and `next_text` gives the lines that say something, one after another; `next_given` gives each line of a source. `print_script` writes the
//! statements of a script in printed form.
#![tactic(auto)]

mod creation;
mod end;
mod ending;
mod given;
pub mod laws;
mod printing;
mod script;
mod texts;

pub use end::ScriptEnd;
pub use ending::end_early;
pub use given::{NextGiven, next_given};
pub use printing::print_script;
pub use script::{Script, name_of, read_script};
pub use texts::{TextAnswer, next_text, read_blank, text};
