//! The tokens of a statement line.
//!
//! A token is a word, an integer or a symbol. At each place the longest text that is a token is taken; spaces and tabs stand
//! between tokens and say nothing else.
#![tactic(auto)]

pub mod laws;
mod lexing;
mod token;

pub use lexing::{lex, next_token};
pub use sql_text::Key;
pub use token::{LexError, Token, TokenKind, Tokens};
