//! The place of a fault in its text, below which a mark stands.
ghost use Rattle.std.specs.Prelude.{◌≡◌, ◌≤◌, length, option_copied, slice_range};
ghost use Rattle.std.specs.List.{find};
ghost use Rattle.sql_text.specs.Blank.{without_blanks_before};
ghost use Rattle.sql_lexer.specs.Tokens.{tokens};
ghost use Rattle.sql_parser.specs.DraftLimits.{is_long_token};
ghost use Rattle.adv_diagnosis.specs.Marks as marks;

use crate::fault::Fault;
use adv_hints::{front_of, rest_of};
use sql_lexer::{Token, TokenKind, lex};
use sql_parser::{ColumnAst, What};
use sql_text::{Key, Name, read_i64, trim_start};

/// The most bytes of a text.
const MOST_BYTES: usize = 1024;

/// The greatest integer of a statement that is no line of a checkpoint; the least one is its negative.
const FARTHEST: i64 = 999_999_999_999_999;

/// Behind which token a name is looked for.
#[derive(Clone, Copy, Debug, PartialEq, Eq)]
pub enum Anchor {
    From,
    Query,
    Opening,
    Where,
    Word,
}

/// Returns the bytes of a line that a token takes.
pub fn piece_of<'a>(line: &'a [u8], token: &Token) -> &'a [u8]
    ensures { result.now ≡ slice_range line.now token.now.from token.now.to }
{
    front_of(
        rest_of(line, token.from),
        token.to.saturating_sub(token.from),
    )
}

// Whether a token is these bytes.
fn is_piece(line: &[u8], token: &Token, name: &Name) -> bool
    ensures { result ≡ marks.is_piece line.now token.now name.now }
{
    *piece_of(line, token) == *name.bytes()
}

// The first of these tokens that is a name.
fn named<'a>(line: &[u8], name: &Name, tokens: &'a [Token]) -> Option<&'a Token>
    ensures { option_copied result ≡ marks.named line.now name.now tokens.now }
{
    tokens.iter().find(|token| is_piece(line, token, name))
}

// The tokens behind the first that is a name.
fn behind_named<'a>(line: &[u8], name: &Name, tokens: &'a [Token]) -> &'a [Token]
    ensures { result.now ≡ marks.behind_named line.now name.now tokens.now }
{
    match tokens {
        [] => &[],
        [first, others @ ..] => {
            if is_piece(line, first, name) {
                others
            } else {
                behind_named(line, name, others)
            }
        }
    }
}

/// Returns whether a token is a point.
pub fn is_point(kind: TokenKind) -> bool
    ensures { result ≡ marks.is_point kind }
{
    matches!(kind, TokenKind::Point)
}

/// Returns whether names are looked for behind a token.
pub fn is_anchor(anchor: Anchor, kind: TokenKind) -> bool
    ensures { result ≡ marks.is_anchor anchor kind }
{
    match anchor {
        Anchor::From => matches!(kind, TokenKind::Reserved(Key::FromKey)),
        Anchor::Query => matches!(kind, TokenKind::Reserved(Key::QueryKey)),
        Anchor::Opening => matches!(kind, TokenKind::Open),
        Anchor::Where => matches!(kind, TokenKind::Reserved(Key::WhereKey)),
        Anchor::Word => matches!(kind, TokenKind::Word),
    }
}

/// Returns the tokens behind the first one of a kind, or none.
pub fn behind_anchor(anchor: Anchor, tokens: &[Token]) -> &[Token]
    ensures behind { result.now ≡ marks.behind_anchor anchor tokens.now }
    ensures short { length result.now ≤ length tokens.now }
{
    match tokens {
        [] => &[],
        [first, others @ ..] => {
            if is_anchor(anchor, first.kind) {
                others
            } else {
                behind_anchor(anchor, others)
            }
        }
    }
}

// The second of these tokens that is a name.
fn named_again<'a>(line: &[u8], name: &Name, tokens: &'a [Token]) -> Option<&'a Token>
    ensures { option_copied result ≡ marks.named_again line.now name.now tokens.now }
{
    named(line, name, behind_named(line, name, tokens))
}

// Whether a column stands here: its stream, a point and its name.
fn is_column(line: &[u8], column: &ColumnAst, tokens: &[Token]) -> bool
    ensures { result ≡ marks.is_column line.now column.now tokens.now }
{
    match tokens {
        [first, point, last, ..] => {
            is_piece(line, first, &column.stream)
                && is_point(point.kind)
                && is_piece(line, last, &column.column)
        }
        _ => false,
    }
}

// The first of these tokens with which a column begins.
fn column_named<'a>(line: &[u8], column: &ColumnAst, tokens: &'a [Token]) -> Option<&'a Token>
    ensures { option_copied result ≡ marks.column_named line.now column.now tokens.now }
{
    match tokens {
        [] => None,
        [first, others @ ..] => {
            if is_column(line, column, tokens) {
                Some(first)
            } else {
                column_named(line, column, others)
            }
        }
    }
}

// Whether a token is a word that is too long for a name.
fn is_long(token: &Token) -> bool
    ensures { result ≡ is_long_token token.now }
{
    match token.kind {
        TokenKind::Word => usize::from(token.from) + Name::MOST_BYTES < usize::from(token.to),
        _ => false,
    }
}

/// Returns the first word that is too long for a name.
pub fn long_word(tokens: &[Token]) -> Option<&Token>
    ensures { option_copied result ≡ find is_long_token tokens.now }
{
    tokens.iter().find(|token| is_long(token))
}

// Whether a token is an integer that a statement may not have, by whether it may have all of 64 bits.
fn is_beyond_at(line: &[u8], wide: bool, token: &Token) -> bool
    ensures { result ≡ marks.is_beyond_at line.now wide token.now }
{
    match token.kind {
        TokenKind::Integer => match read_i64(piece_of(line, token)) {
            Some(value) => !wide && (value < -FARTHEST || FARTHEST < value),
            None => true,
        },
        _ => false,
    }
}

// The first integer that a statement may not have.
fn far_integer<'a>(line: &[u8], wide: bool, tokens: &'a [Token]) -> Option<&'a Token>
    ensures { option_copied result ≡ find (marks.is_beyond_at line.now wide) tokens.now }
{
    tokens.iter().find(|token| is_beyond_at(line, wide, token))
}

// Whether these are the tokens of a line of a checkpoint, which begins with RESUME, or of a lock, which begins with a word that is not
// reserved.
fn has_wide(tokens: &[Token]) -> bool
    ensures { result ≡ marks.has_wide tokens.now }
{
    match tokens {
        [] => false,
        [first, ..] => matches!(
            first.kind,
            TokenKind::Reserved(Key::ResumeKey) | TokenKind::Word
        ),
    }
}

// The tokens behind TO, which is the second word of a lock.
fn behind_to(tokens: &[Token]) -> &[Token]
    ensures { result.now ≡ marks.behind_to tokens.now }
{
    behind_anchor(Anchor::Word, behind_anchor(Anchor::Word, tokens))
}

// The token that passes a limit.
fn token_beyond<'a>(line: &[u8], what: What, tokens: &'a [Token]) -> Option<&'a Token>
    ensures { option_copied result ≡ marks.token_beyond line.now what tokens.now }
{
    match what {
        What::Name => long_word(tokens),
        What::Value => far_integer(line, has_wide(tokens), tokens),
        _ => None,
    }
}

// The token of a fault of a statement, where its sentence is of one name.
fn token_of<'a>(line: &[u8], fault: &Fault, tokens: &'a [Token]) -> Option<&'a Token>
    ensures { option_copied result ≡ marks.token_of line.now fault.now tokens.now }
{
    match fault {
        Fault::Limit { what, .. } => token_beyond(line, *what, tokens),
        Fault::DuplicateStream { name } => named(line, name, tokens),
        Fault::DuplicateColumn { name } => {
            named_again(line, name, behind_anchor(Anchor::Opening, tokens))
        }
        Fault::DuplicateQuery { name } => named(line, name, behind_anchor(Anchor::Query, tokens)),
        Fault::NoStream { name } => named(line, name, behind_anchor(Anchor::From, tokens)),
        Fault::NotInFrom { column } => column_named(line, column, tokens),
        Fault::NoColumn { column } => column_named(line, column, tokens),
        Fault::SelfJoin { name } => named_again(line, name, behind_anchor(Anchor::From, tokens)),
        Fault::NoQuery { name } => named(line, name, tokens),
        Fault::LockTwice { name } => named_again(line, name, behind_to(tokens)),
        Fault::LockNoStream { name } => named(line, name, behind_to(tokens)),
        _ => None,
    }
}

// The place of a fault of a statement in its text.
fn statement_place(text: &[u8], fault: &Fault) -> Option<u16>
    requires { length text.now ≤ 1024 }
    ensures { result ≡ marks.place_by text.now fault.now (tokens text.now) }
{
    match lex(text) {
        Ok(tokens) => Some(token_of(text, fault, tokens.as_slice())?.from),
        Err(_) => None,
    }
}

// What stands behind so many commas.
fn behind_commas(commas: u32, text: &[u8]) -> &[u8]
    ensures behind { result.now ≡ marks.behind_commas commas text.now }
    ensures short { length result.now ≤ length text.now }
{
    if commas == 0 {
        return text;
    }
    match text {
        [] => &[],
        [first, others @ ..] => {
            if *first == b',' {
                behind_commas(commas - 1, others)
            } else {
                behind_commas(commas, others)
            }
        }
    }
}

// Where a field of a row line begins, by its number from 0.
fn field_place(line: &[u8], field: u16) -> u16
    requires { length line.now ≤ 1024 }
    ensures { result ≡ marks.field_place line.now field }
{
    let behind = trim_start(behind_commas(u32::from(field) + 1, line));
    line.len().saturating_sub(behind.len()) as u16
}

/// Returns the place of a fault in its text, where there is one.
pub fn place_of(text: &[u8], fault: &Fault) -> Option<u16>
    ensures { result ≡ marks.place_of text.now fault.now }
{
    if MOST_BYTES < text.len() {
        return None;
    }
    match fault {
        Fault::Syntax { at, .. } => Some(*at),
        Fault::RowKey
        | Fault::RowName { .. }
        | Fault::RowStream
        | Fault::Locked { .. }
        | Fault::NoLock => Some(0),
        Fault::Arity { .. } => Some(text.len() as u16),
        Fault::Value { field } => Some(field_place(text, *field)),
        Fault::Domain { field, .. } => Some(field_place(text, u16::from(*field))),
        _ => statement_place(text, fault),
    }
}
