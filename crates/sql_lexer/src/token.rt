//! Tokens.
use arrayvec::ArrayVec;
use sql_text::Key;
use thiserror::Error;

/// What a token is. A reserved word is its key; a word is any other one.
#[derive(Clone, Copy, Debug, PartialEq, Eq)]
pub enum TokenKind {
    Word,
    Reserved(Key),
    Integer,
    Comma,
    Point,
    Open,
    Close,
    Less,
    Equal,
    Greater,
    LessEqual,
    GreaterEqual,
    Unequal,
    Semi,
}

/// A token and the bytes of the line that it takes, from `from` to before `to`.
#[derive(Clone, Copy, Debug, PartialEq, Eq)]
pub struct Token {
    pub kind: TokenKind,
    pub from: u16,
    pub to: u16,
}

/// The token that fills places of an array that no clause speaks of.
impl Default for Token {
    fn default() -> Token {
        Token {
            kind: TokenKind::Semi,
            from: 0,
            to: 0,
        }
    }
}

/// The tokens of a line. Each has a byte at least, so a line of 1,024 bytes has no more.
pub type Tokens = ArrayVec<Token, 1024>;

/// No token begins at `at`.
#[derive(Clone, Copy, Debug, PartialEq, Eq, Error)]
#[error("no token begins at byte {at}")]
pub struct LexError {
    pub at: u16,
}
