//! The answers of one query with how often each waits to be written: different tuples in ascending order.
//!
//! Tuples stand in order of arrival in one list of values, and never move. Two lists of their numbers, of 4 bytes each,
//! stand in ascending order of tuples: one of all entries, one of those that wait. A tuple that `add_upto` brings to an empty
//! table is kept beside the lists until another comes. So with n entries of which w wait:
//!
//! | call | cost |
//! |---|---|
//! | `has` | at most log2 n + 2 comparisons of tuples |
//! | `add_upto` of a tuple behind all others | at most one comparison of tuples, and no number moves; the first one moves into no list |
//! | `add`, `add_upto`, `add_new` | at most log2 n + 3 comparisons of tuples; a new tuple moves at most 512 + n / 256 numbers |
//! | and where the entry begins to wait | at most log2 w + 2 comparisons more, and at most 512 + w / 256 numbers moved |
//! | and where it ceases to wait, by a limit of 0 | a look at each of n counts |
//! | `entry`, `waiting_entry`, `lone_entry` | one lookup |
//! | `settle` | w counts |
//! | `clear`, `set_only` | a byte stored for each 256 entries of each list |
//! | `len`, `waiting_len` | the same for any n |
//!
//! Both lists are tiered vectors, of blocks of 256 numbers. At 65,536 entries a tuple is found by at most 18 comparisons, and adding one
//! moves at most 768 numbers of a list. Room for all entries is taken in `Answers::new`: for each, 24 bytes and 8 for each value; and for each list a
//! byte for each block.
#![tactic(auto)]

mod columns;
mod lone;
mod rows;
mod search;
mod sorted;
mod table;
mod tiered;

pub use table::Answers;
