//! What a statement most likely meant where it leaves the grammar, by the bytes around that place and by what may stand there.
ghost use Rattle.std.specs.Prelude.{◌≡◌};
ghost use Rattle.std.specs.List.{slice_index_or};
ghost use Rattle.adv_hints.specs.Hints as hints;
ghost use Rattle.adv_hints.specs.Bytes as bytes;

use crate::candidates::{Candidate, Group, wants};
use sql_catalog::Catalog;
use sql_text::{is_letter, key_of, split_word, trim};

/// What a statement most likely meant where it leaves the grammar.
#[derive(Clone, Copy, Debug, PartialEq, Eq)]
pub enum Hint {
    ByteOrderMark,
    Quoted,
    Unequal,
    Star,
    AtMost,
    AtLeast,
    Equal,
    Decimal,
    Or,
    BareColumn,
    ReservedName,
    BareRow,
    Comment,
    Interval,
    Arithmetic,
    Hyphen,
    CommaAtEnd,
    Function,
    Parenthesis,
    Negation,
    Between,
    Pattern,
    Null,
    Order,
    Join,
    Clause,
    Choice,
    BareQuery,
    Alias,
    Typed,
    Chained,
    Streamless,
    Exponent,
    DropStream,
    ExplainQuery,
    Replace,
    Show,
    Continued,
}

/// What stands at a place of a statement.
#[derive(Clone, Copy, Debug, PartialEq, Eq)]
pub enum Standing {
    End,
    Word,
    Reserved,
    Integer,
    Sign,
    Strange,
}

// The byte at a place, 0 where there is none.
fn byte_at(text: &[u8], place: usize) -> u8
    ensures { result ≡ slice_index_or text.now place 0 }
{
    if place < text.len() { text[place] } else { 0 }
}

// The last byte, 0 where there is none.
fn last_byte(text: &[u8]) -> u8
    ensures { result ≡ bytes.last_byte text.now }
{
    text.last().copied().unwrap_or(0)
}

/// Returns whether a byte is a quotation mark.
pub fn is_quote(byte: u8) -> bool
    ensures { result ≡ bytes.is_quote byte }
{
    byte == b'"' || byte == b'\'' || byte == b'`'
}

// Whether a byte is a digit.
fn is_digit(byte: u8) -> bool
    ensures { result ≡ bytes.is_digit byte }
{
    byte.is_ascii_digit()
}

// Whether a comment begins so.
fn begins_comment(first: u8, second: u8) -> bool
    ensures { result ≡ hints.begins_comment first second }
{
    first == b'#'
        || ((first == b'/' && (second == b'/' || second == b'*'))
            || (first == b'-' && second == b'-'))
}

// Whether a byte is the sign of a sum, difference, product, quotient or remainder.
fn is_operator(byte: u8) -> bool
    ensures { result ≡ hints.is_operator byte }
{
    matches!(byte, b'+' | b'-' | b'*' | b'/' | b'%')
}

// Whether arithmetic stands there. Where the statement goes wrong before it, no candidate tells: then it stands behind a name or an integer, and is no
// hyphen.
fn is_arithmetic(before: u8, first: u8, next: &[Candidate]) -> bool
    ensures { result ≡ hints.is_arithmetic before first next.now }
{
    if next.is_empty() {
        is_operator(first) && (first != b'-' && (is_letter(before) || is_digit(before)))
    } else {
        is_operator(first) && (wants(Group::BehindOperand, next) || wants(Group::Operand, next))
    }
}

// Whether a comparison goes on with a third side.
fn is_chained(first: u8, next: &[Candidate]) -> bool
    ensures { result ≡ hints.is_chained first next.now }
{
    (first == b'<' || first == b'=' || first == b'>')
        && !wants(Group::Comparison, next)
        && !wants(Group::Comma, next)
        && wants(Group::BehindOperand, next)
}

// What is meant by a sign that a name or an integer may have around it, and the bytes around it.
fn mark_hint(before: u8, first: u8, second: u8, next: &[Candidate]) -> Option<Hint>
    ensures { result ≡ hints.mark_hint before first second next.now }
{
    match first {
        b'*' if before == b'(' => Some(Hint::Function),
        b'*' if wants(Group::Column, next) => Some(Hint::BareColumn),
        b'*' => Some(Hint::Star),
        b'-' if !is_digit(second) => Some(Hint::Hyphen),
        b'.' if is_digit(before) && is_digit(second) => Some(Hint::Decimal),
        b')' if before == b',' => Some(Hint::CommaAtEnd),
        b'(' if wants(Group::Column, next) => Some(Hint::Function),
        b'(' if !wants(Group::Operand, next) => None,
        b'(' if wants(Group::Name, next) => Some(Hint::Parenthesis),
        b'(' => Some(Hint::Interval),
        b'<' if before == b'=' => Some(Hint::AtMost),
        b'>' if before == b'=' => Some(Hint::AtLeast),
        b'=' if before == b'=' => Some(Hint::Equal),
        _ => None,
    }
}

// What is meant by the byte before the place, the first and second there, and what may stand there.
fn sign_hint(before: u8, first: u8, second: u8, next: &[Candidate]) -> Option<Hint>
    ensures { result ≡ hints.sign_hint before first second next.now }
{
    match first {
        239 if second == 187 => Some(Hint::ByteOrderMark),
        b'!' => Some(Hint::Unequal),
        _ if is_quote(first) => Some(Hint::Quoted),
        _ if begins_comment(first, second) => Some(Hint::Comment),
        _ if wants(Group::Interval, next) => Some(Hint::Interval),
        _ if is_arithmetic(before, first, next) => Some(Hint::Arithmetic),
        _ if is_chained(first, next) => Some(Hint::Chained),
        _ => mark_hint(before, first, second, next),
    }
}

// What is meant by a word alone.
#[tactic(auto, unfolding(crate::specs::Hints::spelled_hint, crate::specs::Hints::is_join, crate::specs::Hints::is_clause))]
fn spelled_hint(word: &[u8]) -> Option<Hint>
    ensures { result ≡ hints.spelled_hint word.now }
{
    if word.eq_ignore_ascii_case(b"BETWEEN") {
        Some(Hint::Between)
    } else if word.eq_ignore_ascii_case(b"LIKE") {
        Some(Hint::Pattern)
    } else if word.eq_ignore_ascii_case(b"IS") {
        Some(Hint::Null)
    } else if word.eq_ignore_ascii_case(b"SHARED") {
        Some(Hint::Order)
    } else if word.eq_ignore_ascii_case(b"JOIN")
        || word.eq_ignore_ascii_case(b"INNER")
        || word.eq_ignore_ascii_case(b"LEFT")
        || word.eq_ignore_ascii_case(b"ON")
    {
        Some(Hint::Join)
    } else if word.eq_ignore_ascii_case(b"ORDER")
        || word.eq_ignore_ascii_case(b"GROUP")
        || word.eq_ignore_ascii_case(b"HAVING")
        || word.eq_ignore_ascii_case(b"LIMIT")
        || word.eq_ignore_ascii_case(b"WINDOW")
    {
        Some(Hint::Clause)
    } else {
        None
    }
}

// What is meant by a reserved word, the byte before it, and what may stand there.
#[tactic(auto, unfolding(crate::specs::Hints::reserved_hint, crate::specs::Hints::ends_list))]
fn reserved_hint(word: &[u8], before: u8, next: &[Candidate]) -> Option<Hint>
    ensures { result ≡ hints.reserved_hint word.now before next.now }
{
    if word.eq_ignore_ascii_case(b"IN") && wants(Group::Comparison, next) {
        Some(Hint::Choice)
    } else if word.eq_ignore_ascii_case(b"SELECT") && wants(Group::Create, next) {
        Some(Hint::BareQuery)
    } else if word.eq_ignore_ascii_case(b"AS") && wants(Group::Comma, next) {
        Some(Hint::Alias)
    } else if before == b','
        && (word.eq_ignore_ascii_case(b"FROM") || word.eq_ignore_ascii_case(b"WHERE"))
    {
        Some(Hint::CommaAtEnd)
    } else {
        wants(Group::Name, next).then_some(Hint::ReservedName)
    }
}

// What is meant by a word that stands there, and what may stand there.
fn placed_hint(word: &[u8], before: u8, next: &[Candidate]) -> Option<Hint>
    ensures { result ≡ hints.placed_hint word.now before next.now }
{
    if word.is_empty() {
        None
    } else if key_of(word).is_some() {
        reserved_hint(word, before, next)
    } else if wants(Group::Domain, next) {
        Some(Hint::Typed)
    } else {
        wants(Group::Where, next).then_some(Hint::Alias)
    }
}

// Whether a text ends with the word NOT behind a space.
#[tactic(auto, unfolding(crate::specs::Hints::ends_with_not))]
fn ends_with_not(text: &[u8]) -> bool
    ensures { result ≡ hints.ends_with_not text.now }
{
    let end = text.split_at(text.len().saturating_sub(4)).1;
    end.eq_ignore_ascii_case(b" NOT")
}

// What is meant by OR or NOT where comparisons stand, and where the stream of a column is missed.
#[tactic(auto, unfolding(crate::specs::Hints::logical_hint))]
fn logical_hint(word: &[u8], next: &[Candidate]) -> Option<Hint>
    ensures { result ≡ hints.logical_hint word.now next.now }
{
    if word.eq_ignore_ascii_case(b"OR") && wants(Group::BehindOperand, next) {
        Some(Hint::Or)
    } else if word.eq_ignore_ascii_case(b"NOT") && wants(Group::Comparison, next) {
        Some(Hint::Negation)
    } else {
        wants(Group::Column, next).then_some(Hint::BareColumn)
    }
}

// Whether a word is the name of a stream, or INSERT.
#[tactic(auto, unfolding(crate::specs::Hints::begins_row))]
fn begins_row(word: &[u8], catalog: &Catalog) -> bool
    ensures { result ≡ hints.begins_row word.now catalog.now }
{
    word.eq_ignore_ascii_case(b"INSERT") || catalog.find_bytes(word).is_some()
}

// What is meant where a line begins as a row does.
fn row_hint(front: &[u8], rest: &[u8], catalog: &Catalog) -> Option<Hint>
    ensures { result ≡ hints.row_hint front.now rest.now catalog.now }
{
    let (first, second) = (byte_at(rest, 0), byte_at(rest, 1));
    if !front.is_empty() {
        None
    } else if begins_row(split_word(rest).0, catalog) {
        Some(Hint::BareRow)
    } else if first == b',' || begins_integer(first, second) {
        Some(Hint::Streamless)
    } else {
        None
    }
}

// Whether an integer has an exponent: a digit stands right before the place, and an E and a digit there.
fn is_exponent(before: u8, first: u8, second: u8) -> bool
    ensures { result ≡ hints.is_exponent before first second }
{
    is_digit(before) && ((first == b'e' || first == b'E') && is_digit(second))
}

// What is meant by the first word of a line, or by a word behind a front of one.
#[tactic(auto, unfolding(crate::specs::Hints::begun_hint, crate::specs::Hints::goes_on_with))]
fn begun_hint(front: &[u8], word: &[u8]) -> Option<Hint>
    ensures { result ≡ hints.begun_hint front.now word.now }
{
    if front.is_empty() && word.eq_ignore_ascii_case(b"SHOW") {
        Some(Hint::Show)
    } else if front.is_empty()
        && (word.eq_ignore_ascii_case(b"FROM")
            || word.eq_ignore_ascii_case(b"WHERE")
            || word.eq_ignore_ascii_case(b"AND"))
    {
        Some(Hint::Continued)
    } else if front.eq_ignore_ascii_case(b"DROP") && word.eq_ignore_ascii_case(b"STREAM") {
        Some(Hint::DropStream)
    } else if front.eq_ignore_ascii_case(b"EXPLAIN") && word.eq_ignore_ascii_case(b"SELECT") {
        Some(Hint::ExplainQuery)
    } else if front.eq_ignore_ascii_case(b"CREATE") && word.eq_ignore_ascii_case(b"OR") {
        Some(Hint::Replace)
    } else {
        None
    }
}

// What is meant, by signs, by the streams, by the first two words of a line, and by one by itself.
fn placed_by(front: &[u8], rest: &[u8], next: &[Candidate], catalog: &Catalog) -> Option<Hint>
    ensures { result ≡ hints.placed_by front.now rest.now next.now catalog.now }
{
    let (line, word) = (trim(front), split_word(rest).0);
    let before = last_byte(line);
    sign_hint(before, byte_at(rest, 0), byte_at(rest, 1), next)
        .or(row_hint(front, rest, catalog))
        .or(begun_hint(line, word))
        .or(logical_hint(word, next))
        .or(spelled_hint(word))
        .or(placed_hint(word, before, next))
}

/// Returns what is meant, by what stands before the place and from there on, and by what may stand there.
pub fn hint_of(front: &[u8], rest: &[u8], next: &[Candidate], catalog: &Catalog) -> Option<Hint>
    ensures { result ≡ hints.hint_of front.now rest.now next.now catalog.now }
{
    if is_exponent(last_byte(front), byte_at(rest, 0), byte_at(rest, 1)) {
        Some(Hint::Exponent)
    } else if wants(Group::Column, next) && ends_with_not(trim(front)) {
        Some(Hint::Negation)
    } else {
        placed_by(front, rest, next, catalog)
    }
}

// Whether a byte is a sign of one byte, or the first of one of two.
fn is_sign(byte: u8) -> bool
    ensures { result ≡ bytes.is_sign byte }
{
    matches!(byte, b',' | b'.' | b'(' | b')' | b'<' | b'=' | b'>' | b';')
}

// Whether an integer begins so.
fn begins_integer(first: u8, second: u8) -> bool
    ensures { result ≡ bytes.begins_integer first second }
{
    is_digit(first) || ((first == b'+' || first == b'-') && is_digit(second))
}

/// Returns what stands at the front of a text.
pub fn standing_of(rest: &[u8]) -> Standing
    ensures { result ≡ hints.standing_of rest.now }
{
    let first = byte_at(rest, 0);
    if rest.is_empty() {
        Standing::End
    } else if is_letter(first) {
        if key_of(split_word(rest).0).is_some() {
            Standing::Reserved
        } else {
            Standing::Word
        }
    } else if begins_integer(first, byte_at(rest, 1)) {
        Standing::Integer
    } else if is_sign(first) {
        Standing::Sign
    } else {
        Standing::Strange
    }
}
