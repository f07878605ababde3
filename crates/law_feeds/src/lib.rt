//! Laws of feeds behind a script, as public functions without a body: the clause is the law.
//!
//! Behind a script feeds give rows alone, each of the streams that its word opens. What is answered to rows then depends on the rows that are
//! taken, and on nothing else that a feed says.
#![tactic(auto)]

pub mod laws;
