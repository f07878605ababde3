//! RESUME lines as checkpoints have them: reserved words in capitals, one space between two tokens, and integers in their shortest form.
//! Such a line is read in one pass; any other is read as a statement in general.
ghost use Rattle.std.specs.Prelude.{◌≡◌, ◌++◌, ◌<◌, ◌≤◌, codes, length, IfSome, IsTrue};
ghost use Rattle.std.specs.Fmt.{signed_decimal};
ghost use Rattle.sql_text.specs.Value.{fits_i64};
ghost use Rattle.sql_printer.specs.PrintedParts.{content_text, each_behind, values_text};
ghost use Rattle.cmd_session.specs.ResumeLines.{AllFit, IsResumeText};

use itoa::Buffer;
use sem_query::Tuple;
use sql_text::{Name, leading_i64};

/// What a line sets of the query of a name: the content of a cell, or a tuple that counts as printed.
#[derive(Drop)]
pub enum ResumeLine {
    Cell {
        name: Name,
        index: i64,
        content: i64,
    },
    Tuple {
        name: Name,
        values: Tuple,
    },
}

// What stands behind these bytes, where a text begins with them.
#[tactic(auto, using(crate::proofs::ResumeTexts::begins))]
fn behind<'a>(text: &'a [u8], front: &[u8]) -> Option<&'a [u8]>
    ensures { IfSome result (λ rest. text.now ≡ front.now ++ rest.now) }
{
    if text.len() < front.len() {
        return None;
    }
    let (head, rest) = text.split_at(front.len());
    if *head == *front { Some(rest) } else { None }
}

// How many bytes stand before the first space.
fn len_before_space(text: &[u8]) -> usize
    ensures { result ≤ length text.now }
{
    text.iter().take_while(|b| **b != b' ').count()
}

// The text before the first space, and what stands from there on.
#[tactic(auto, using(crate::proofs::ResumeTexts::halves))]
fn cut_at_space(text: &[u8]) -> (&[u8], &[u8])
    ensures { text.now ≡ result.0.now ++ result.1.now }
{
    text.split_at(len_before_space(text))
}

// The integer in its shortest form that stands behind a space at the front of a text, and what stands behind the integer.
fn spaced_integer(text: &[u8]) -> Option<(i64, &[u8])>
    ensures text { IfSome result (λ found. text.now ≡ (codes " " ++ signed_decimal found.0) ++ found.1.now) }
    ensures fits { IfSome result (λ found. IsTrue (fits_i64 found.0)) }
    ensures shorter { IfSome result (λ found. length found.1.now < length text.now) }
{
    let digits = behind(text, b" ")?;
    let value = leading_i64(digits).0?;
    let mut buffer = Buffer::new();
    let rest = behind(digits, buffer.format(value).as_bytes())?;
    Some((value, rest))
}

// The number of a cell and its content, which is all that stands behind the name.
fn cell_behind(text: &[u8]) -> Option<(i64, i64)>
    ensures text { IfSome result (λ cell. text.now ≡ content_text cell.0 cell.1) }
    ensures fits { IfSome result (λ cell. IsTrue (fits_i64 cell.0) × IsTrue (fits_i64 cell.1)) }
{
    let (index, fields) = spaced_integer(behind(text, b" FROM")?)?;
    let (content, rest) = spaced_integer(fields)?;
    if rest.is_empty() {
        Some((index, content))
    } else {
        None
    }
}

// The integers of a text, each behind a space, where these are 1 to 8 and no other byte stands there.
fn spaced_integers(text: &[u8]) -> Option<Tuple>
    ensures text { IfSome result (λ values. text.now ≡ each_behind (codes " ") signed_decimal values.items) }
    ensures fit { IfSome result (λ values. AllFit values.items) }
    ensures some { IfSome result (λ values. 0 < length values.items) }
    ensures few { IfSome result (λ values. length values.items ≤ 8) }
{
    let mut values = Tuple::new();
    let mut rest = text;
    while !rest.is_empty() {
        if values.is_full() {
            return None;
        }
        let (value, others) = spaced_integer(rest)?;
        values.push(value);
        rest = others;
    }
    if values.is_empty() {
        None
    } else {
        Some(values)
    }
}

// The integers of a tuple, which are all that stands behind the name.
fn tuple_behind(text: &[u8]) -> Option<Tuple>
    ensures text { IfSome result (λ values. text.now ≡ values_text values.items) }
    ensures fit { IfSome result (λ values. AllFit values.items) }
    ensures some { IfSome result (λ values. 0 < length values.items) }
    ensures few { IfSome result (λ values. length values.items ≤ 8) }
{
    spaced_integers(behind(text, b" SELECT")?)
}

/// Returns what a text sets of a query, where the text is the printed form of a RESUME line with a cell or a tuple.
pub fn read_resume_line(text: &[u8]) -> Option<ResumeLine>
    ensures { IfSome result (λ line. IsResumeText text.now line) }
{
    let (word, fields) = cut_at_space(behind(text, b"RESUME ")?);
    let name = Name::read(word)?;
    match cell_behind(fields) {
        Some((index, content)) => Some(ResumeLine::Cell {
            name,
            index,
            content,
        }),
        None => match tuple_behind(fields) {
            Some(values) => Some(ResumeLine::Tuple { name, values }),
            None => None,
        },
    }
}
