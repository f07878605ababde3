//! How many a statement has of what a limit is on, as its tokens tell.
//!
//! A comparison has one sign, each of its two sides is an integer or a column, and a column has one point. Commas stand between columns
//! and between streams alone. So the numbers of these tokens tell how many columns, streams and comparisons there are.
ghost use Rattle.std.specs.Prelude.{◌≡◌, ◌≤◌, ◌+◌, ◌++◌, Some, length};
ghost use Rattle.std.specs.Ordering.{int_eq};
ghost use Rattle.std.specs.List.{list_any};
ghost use Rattle.sql_parser.specs.Limits.{limit_of, same_column, number_of_different};
ghost use Rattle.sql_parser.specs.declared.tree.Statement.{Statement};
ghost use Rattle.sql_parser.specs.Syntax.{IsStatement};
ghost use Rattle.adv_diagnosis.specs.Compared as compared;
ghost use Rattle.adv_diagnosis.specs.Counted as counts;
ghost use Rattle.adv_diagnosis.specs.Counted.{count_of, selected_number, from_number, integer_with, integers_at, found_by};
ghost use Rattle.adv_diagnosis.specs.Passed.{found_in};

use crate::marks::{Anchor, behind_anchor, is_anchor, is_point, long_word, piece_of};
use arrayvec::ArrayVec;
use sql_lexer::{Token, TokenKind, lex};
use sql_parser::What;
use sql_text::read_i64;

/// What tokens are counted.
#[derive(Clone, Copy)]
pub enum Counted {
    Comma,
    Point,
    Integer,
    /// The sign of a soft comparison.
    SoftSign,
    /// The sign of any comparison.
    Comparison,
}

// Whether a token is one of those that are counted.
fn is_counted(counted: Counted, kind: TokenKind) -> bool
    ensures { result ≡ counts.is_counted counted kind }
{
    match counted {
        Counted::Comma => matches!(kind, TokenKind::Comma),
        Counted::Point => is_point(kind),
        Counted::Integer => matches!(kind, TokenKind::Integer),
        Counted::SoftSign => matches!(
            kind,
            TokenKind::LessEqual | TokenKind::GreaterEqual | TokenKind::Unequal
        ),
        Counted::Comparison => matches!(
            kind,
            TokenKind::Less
                | TokenKind::Equal
                | TokenKind::Greater
                | TokenKind::LessEqual
                | TokenKind::GreaterEqual
                | TokenKind::Unequal
        ),
    }
}

// How many there are.
#[tactic(auto, using(crate::proofs::Counting::few))]
fn count(counted: Counted, tokens: &[Token]) -> u16
    requires { length tokens.now ≤ 1024 }
    ensures number { result ≡ count_of (counts.is_counted counted) tokens.now }
    ensures few { result ≤ 1024 }
{
    tokens
        .iter()
        .filter(|token| is_counted(counted, token.kind))
        .count() as u16
}

// How many columns a query selects.
fn selected(tokens: &[Token]) -> u16
    requires { length tokens.now ≤ 1024 }
    ensures { result ≡ selected_number tokens.now }
{
    (count(Counted::Point, tokens) + count(Counted::Integer, tokens)).saturating_sub(
        2 * count(Counted::Comparison, tokens),
    )
}

// How many streams FROM names.
fn from_streams(tokens: &[Token]) -> u16
    requires { length tokens.now ≤ 1024 }
    ensures { result ≡ from_number tokens.now }
{
    (count(Counted::Comma, tokens) + 2).saturating_sub(selected(tokens))
}

// Adds the integer that a token is.
fn put_value(values: &mut ArrayVec<i64, 1024>, line: &[u8], token: &Token)
    requires { length values.old.items ≤ 1023 }
    ensures items { values.new.items ≡ values.old.items ++ integer_with line.now token.now }
    ensures short { length values.new.items ≤ length values.old.items + 1 }
{
    if is_counted(Counted::Integer, token.kind) {
        values.push(read_i64(piece_of(line, token)).unwrap_or(0));
    }
}

// The integers among tokens.
fn values_at(line: &[u8], tokens: &[Token]) -> ArrayVec<i64, 1024>
    requires { length tokens.now ≤ 1024 }
    ensures items { result.items ≡ integers_at line.now tokens.now }
    ensures few { length result.items ≤ 1024 }
{
    let mut values = ArrayVec::new();
    for token in tokens {
        put_value(&mut values, line, token);
    }
    values
}

// Whether an integer stands among others.
fn is_among(value: i64, others: &[i64]) -> bool
    ensures { result ≡ list_any (int_eq value) others.now }
{
    others.iter().any(|other| value == *other)
}

// How many different integers there are.
fn different(values: &[i64]) -> u16
    requires { length values.now ≤ 1024 }
    ensures { result ≡ number_of_different int_eq values.now }
{
    let mut count: u16 = 0;
    let mut rest = values;
    'counting: while let [value, others @ ..] = rest {
        if !is_among(*value, others) {
            count += 1;
        }
        rest = others;
    }
    count
}

// How many bytes the first word has that is too long for a name.
fn long_bytes(tokens: &[Token]) -> Option<u16>
    ensures { result ≡ counts.long_bytes tokens.now }
{
    let word = long_word(tokens)?;
    Some(word.to.saturating_sub(word.from))
}

/// The tokens of the two names of a column.
#[derive(Clone, Copy)]
pub struct ColumnTokens {
    pub stream: Token,
    pub column: Token,
}

// The column that begins with a token: a name, and behind it a point and a name.
fn column_with(first: &Token, others: &[Token]) -> Option<ColumnTokens>
    ensures { result ≡ compared.column_with first.now others.now }
{
    match others {
        [point, last, ..] => {
            if is_anchor(Anchor::Word, first.kind)
                && is_point(point.kind)
                && is_anchor(Anchor::Word, last.kind)
            {
                Some(ColumnTokens {
                    stream: *first,
                    column: *last,
                })
            } else {
                None
            }
        }
        _ => None,
    }
}

// Whether two columns have the same names.
fn is_same(line: &[u8], a: &ColumnTokens, b: &ColumnTokens) -> bool
    ensures { result ≡ same_column (compared.column_of line.now a.now) (compared.column_of line.now b.now) }
{
    *piece_of(line, &a.stream) == *piece_of(line, &b.stream)
        && *piece_of(line, &a.column) == *piece_of(line, &b.column)
}

// Whether a column stands among tokens.
fn stands_among(line: &[u8], column: &ColumnTokens, tokens: &[Token]) -> bool
    ensures { result ≡ list_any (same_column (compared.column_of line.now column.now)) (compared.columns_at line.now tokens.now) }
{
    match tokens {
        [] => false,
        [first, others @ ..] => match column_with(first, others) {
            Some(other) => is_same(line, column, &other) || stands_among(line, column, others),
            None => stands_among(line, column, others),
        },
    }
}

// How many different columns stand among tokens: each counts where it stands last.
fn count_different(line: &[u8], tokens: &[Token]) -> u16
    requires { length tokens.now ≤ 1024 }
    ensures number { result ≡ number_of_different same_column (compared.columns_at line.now tokens.now) }
    ensures few { result ≤ length tokens.now }
{
    match tokens {
        [] => 0,
        [first, others @ ..] => match column_with(first, others) {
            Some(column) => {
                if stands_among(line, &column, others) {
                    count_different(line, others)
                } else {
                    count_different(line, others) + 1
                }
            }
            None => count_different(line, others),
        },
    }
}

// How many the tokens of a line tell of what a limit is on.
fn number_found(what: What, line: &[u8], tokens: &[Token]) -> Option<u16>
    requires { length tokens.now ≤ 1024 }
    ensures { result ≡ found_by what line.now tokens.now }
{
    match what {
        What::Name => long_bytes(tokens),
        What::Columns => Some(count(Counted::Comma, tokens) + 1),
        What::Select => Some(selected(tokens)),
        What::From => Some(from_streams(tokens)),
        What::Atoms => Some(count(Counted::Comparison, tokens)),
        What::Soft => Some(count(Counted::SoftSign, tokens)),
        What::Attrs => Some(count_different(line, behind_anchor(Anchor::Where, tokens))),
        What::Consts => Some(different(values_at(line, tokens).as_slice())),
        What::Tuple => Some(count(Counted::Integer, tokens)),
        What::Streams => Some(count(Counted::Comma, tokens) + 1),
        What::Value | What::Domain => None,
    }
}

/// Returns how many a statement has of what it passes a limit on, where the limit is on a number.
pub fn found_of(what: What, text: &[u8]) -> Option<u16>
    requires { length text.now ≤ 1024 }
    ensures { (s : Statement) → IsStatement text.now s → limit_of s ≡ Some what → result ≡ found_in what s }
{
    match lex(text) {
        Ok(tokens) => number_found(what, text, tokens.as_slice()),
        Err(_) => None,
    }
}
