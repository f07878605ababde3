//! Laws of the lock of a session, as public functions without a body: the clause is the law.
//!
//! Under a lock only empty lines, comments, rows of the open streams and the UNLOCK of its number are taken. What is answered to rows then
//! depends on the rows of open streams that are taken, and on nothing else that anyone sends.
#![tactic(auto)]

pub mod laws;
