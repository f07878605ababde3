//! Laws of plans and synopses, over the definitions of `sem_query`.
//!
//! Each law is a public function without a body, and its clause is the law. The first says that the synopsis suffices:
//! the cells of a history and the tuples printed so far tell the answers to every next row. The others say what cells,
//! tables and numbers must be for a program that keeps them and no row.
#![tactic(auto)]

pub mod laws;
