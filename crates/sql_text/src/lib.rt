//! Names, integers and lines, as bytes.
//!
//! A text is a list of bytes. A name is a word that is not reserved, of at most 24 bytes; a value is an integer of 64 bits
//! with an optional sign; a text is cut into lines at each LF; an answer is a line with a name and values.
#![tactic(auto)]

mod blank;
mod key;
pub mod laws;
mod line;
mod name;
mod tuple;
mod value;
mod word;

pub use blank::{is_blank, trim, trim_end, trim_start};
pub use key::{Key, key_of};
pub use line::cut;
pub use name::Name;
pub use tuple::put_tuple;
pub use value::{leading_i64, read_i64};
pub use word::{begins_word, is_letter, is_word, is_word_byte, split_word};
