//! The least choices of keys for the streams of a script that leave each of its queries exact.
//!
//! A choice names the key column of each stream, or none where the stream is broadcast. It is exact where no query has two keys that are not seen to be
//! equal. One choice is at most another where it leaves no query worse, of which one at home is worse than one deduped, and that than one apart, and
//! broadcasts no other stream. All exact choices are found stream by stream, and of these the least ones are kept.
#![tactic(auto)]

mod choice;
mod counting;
mod exact;
mod extending;
mod least;
mod order;

pub use choice::{Choice, KeyedQuery};
pub use counting::has_many_choices;
pub use exact::is_exact;
pub use least::least_choices;
