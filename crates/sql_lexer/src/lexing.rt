//! Lines, cut into tokens.
ghost use Rattle.std.specs.Prelude.{◌≡◌, ◌≤◌, ◌<◌, ◌↔◌, ◌⊎◌, Option, Result, Ok, Err, Some, false, length, get_or, MatchResult, IfOk, IsTrue, IfSome};
ghost use Rattle.sql_text.specs.Blank.{is_blank};
ghost use Rattle.std.specs.List.{prefix_len};
ghost use Rattle.sql_text.specs.Word.{is_word_byte, is_digit};
ghost use Rattle.sql_lexer.specs.Tokens.{longest, tokens, symbol_of, symbol_pair, front_pair, word_kind};
ghost use Rattle.sql_lexer.specs.Standing.{StandFrom, IsNext};
ghost use Rattle.sql_text.specs.Key.{key_of};

use crate::token::{LexError, Token, TokenKind, Tokens};
use arrayvec::ArrayVec;
use sql_text::is_blank;

// The symbol that a byte is.
fn symbol(byte: u8) -> Option<TokenKind>
    ensures { result ≡ symbol_of byte }
{
    match byte {
        b',' => Some(TokenKind::Comma),
        b'.' => Some(TokenKind::Point),
        b'(' => Some(TokenKind::Open),
        b')' => Some(TokenKind::Close),
        b'<' => Some(TokenKind::Less),
        b'=' => Some(TokenKind::Equal),
        b'>' => Some(TokenKind::Greater),
        b';' => Some(TokenKind::Semi),
        _ => None,
    }
}

// The symbol that two bytes are.
fn double_symbol(first: u8, second: u8) -> Option<TokenKind>
    ensures { result ≡ symbol_pair first second }
{
    match (first, second) {
        (b'<', b'=') => Some(TokenKind::LessEqual),
        (b'>', b'=') => Some(TokenKind::GreaterEqual),
        (b'<', b'>') => Some(TokenKind::Unequal),
        _ => None,
    }
}

// The symbol that the first two bytes are.
fn front_double(bytes: &[u8]) -> Option<TokenKind>
    ensures { result ≡ front_pair bytes.now }
{
    if bytes.len() < 2 {
        return None;
    }
    double_symbol(bytes[0], bytes[1])
}

// How many bytes from the front on belong to a word.
fn word_len(bytes: &[u8]) -> usize
    ensures { result ≡ prefix_len is_word_byte bytes.now }
{
    bytes
        .iter()
        .take_while(|b| sql_text::is_word_byte(**b))
        .count()
}

// How many bytes from the front on are digits.
fn digits_len(bytes: &[u8]) -> usize
    ensures { result ≡ prefix_len is_digit bytes.now }
{
    bytes.iter().take_while(|b| b.is_ascii_digit()).count()
}

// Whether the byte is a sign.
fn is_sign(byte: u8) -> bool
    ensures { IsTrue result ↔ ((byte ≡ 43) ⊎ (byte ≡ 45)) }
{
    byte == b'+' || byte == b'-'
}

// The token that a word is.
fn word_token(word: &[u8]) -> TokenKind
    ensures { result ≡ word_kind (key_of word.now) }
{
    match sql_text::key_of(word) {
        Some(key) => TokenKind::Reserved(key),
        None => TokenKind::Word,
    }
}

// The longest token at the front, and how many bytes it has.
fn first_token(bytes: &[u8]) -> Option<(TokenKind, usize)>
    requires { (0 < length bytes.now) × (length bytes.now ≤ 1024) }
    ensures longest { result ≡ longest bytes.now }
    ensures fits { IfSome result (λ found. (0 < found.1) × (found.1 ≤ length bytes.now)) }
{
    let first = bytes[0];
    if sql_text::is_letter(first) {
        let len = word_len(bytes);
        return Some((word_token(bytes.split_at(len).0), len));
    }
    if first.is_ascii_digit() {
        return Some((TokenKind::Integer, digits_len(bytes)));
    }
    if is_sign(first) {
        let len = digits_len(bytes.split_at(1).1);
        return if len == 0 {
            None
        } else {
            Some((TokenKind::Integer, len + 1))
        };
    }
    match front_double(bytes) {
        Some(kind) => Some((kind, 2)),
        None => match symbol(first) {
            Some(kind) => Some((kind, 1)),
            None => None,
        },
    }
}

// The token that begins at a place at which no blank stands.
fn token_at(line: &[u8], at: usize) -> Result<Option<Token>, LexError>
    requires short { length line.now ≤ 1024 }
    requires inside { at < length line.now }
    requires solid { is_blank (get_or line.now at 0) ≡ false }
    ensures { IsNext line.now at result }
{
    match first_token(line.split_at(at).1) {
        None => Err(LexError { at: at as u16 }),
        Some((kind, len)) => Ok(Some(Token {
            kind,
            from: at as u16,
            to: (at + len) as u16,
        })),
    }
}

/// Returns the next token of a line from a place on, or `None` where blanks alone are left; or the place at which no token begins.
pub fn next_token(line: &[u8], place: u16) -> Result<Option<Token>, LexError>
    requires short { length line.now ≤ 1024 }
    requires inside { place ≤ length line.now }
    ensures { IsNext line.now place result }
{
    let mut at = usize::from(place);
    while at < line.len() {
        if !is_blank(line[at]) {
            return token_at(line, at);
        }
        at += 1;
    }
    Ok(None)
}

/// Returns the tokens of a line, in order; or the first place at which no token begins.
pub fn lex(line: &[u8]) -> Result<Tokens, LexError>
    requires { length line.now ≤ 1024 }
    ensures tokens { MatchResult result (λ found. tokens line.now ≡ Ok found.items) (λ fault. tokens line.now ≡ Err fault.at) }
    ensures stand { IfOk result (λ found. StandFrom line.now 0 found.items) }
{
    let mut tokens = ArrayVec::new();
    let mut at = 0;
    while at < line.len() {
        if is_blank(line[at]) {
            at += 1;
        } else {
            match first_token(line.split_at(at).1) {
                None => return Err(LexError { at: at as u16 }),
                Some((kind, len)) => {
                    let from = at as u16;
                    at += len;
                    tokens.push(Token {
                        kind,
                        from,
                        to: at as u16,
                    });
                }
            }
        }
    }
    Ok(tokens)
}
