//! Statements: their grammar, and how they are read.
//!
//! A line is first classified. What is left of a statement line is cut into tokens, and one pass over them walks a table of states
//! and fills a draft. The grammar itself is a definition from statements to tokens (`specs/Grammar.antt`); the table is a means of
//! the code, and the proofs show that both say the same.
#![tactic(auto)]

mod domains;
mod draft;
mod head;
pub mod laws;
mod limits;
mod line;
mod outline;
mod parsing;
mod plain;
mod reading;
mod resolution;
mod transitions;
mod tree;
mod unlocking;

pub use line::{LineKind, classify, stripped};
pub use parsing::{ParseError, What, parse};
pub use plain::{PlainReading, PlainStatement, parse_plain};
pub use resolution::{ResolveError, resolve};
pub use tree::{AtomAst, ColumnAst, OperandAst, SelectAst, Statement};
pub use unlocking::may_unlock;
