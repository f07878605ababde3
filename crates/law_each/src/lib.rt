//! Laws of replies that are joined to one line, as public functions without a body: the clause is the law.
//!
//! No reply has a `;`, and no line of a reply is empty. So a line in which the lines of a reply are joined by `;` comes apart again, and nothing
//! is lost.
#![tactic(auto)]

pub mod laws;
