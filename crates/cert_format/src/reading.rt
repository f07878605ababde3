//! The line that a text is.
ghost use Rattle.std.specs.Prelude.{◌≡◌};
ghost use Rattle.std.specs.List.{list_all};
ghost use Rattle.std.specs.Option.{option_map};
ghost use Rattle.sql_text.specs.Word.{is_digit};
ghost use Rattle.sql_text.specs.Lines.{parts_behind};
ghost use Rattle.cert_format.specs.Text.{words, IsReading};
ghost use Rattle.cert_format.specs.Spelling as spelling;
ghost use Rattle.cert_format.specs.Spelling.{small, number_of, chain_of, split_of, infeasible_of, against_of, leaf_of, path_of, line_of};

use crate::line::{Line, Path};
use arrayvec::ArrayVec;
use sql_text::{cut, read_i64};

// The word with which a line begins.
#[derive(Clone, Copy)]
enum Keyword {
    Split,
    Infeasible,
    Against,
    Leaf,
    Path,
}

// The keyword that a word is.
#[tactic(auto, unfolding(crate::specs::Spelling::keyword_of))]
fn keyword_of(word: &[u8]) -> Option<Keyword>
    ensures { result ≡ spelling.keyword_of word.now }
{
    if *word == *b"split".as_slice() {
        return Some(Keyword::Split);
    }
    if *word == *b"infeasible".as_slice() {
        return Some(Keyword::Infeasible);
    }
    if *word == *b"against".as_slice() {
        return Some(Keyword::Against);
    }
    if *word == *b"leaf".as_slice() {
        return Some(Keyword::Leaf);
    }
    if *word == *b"path".as_slice() {
        return Some(Keyword::Path);
    }
    None
}

// Whether all bytes are digits.
fn are_digits(word: &[u8]) -> bool
    ensures { result ≡ list_all is_digit word.now }
{
    word.iter().all(|b| b.is_ascii_digit())
}

// The same number, where it is at most 65,535 and not negative.
fn small(value: i64) -> Option<u16>
    ensures { result ≡ small value }
{
    u16::try_from(value).ok()
}

// The number that a word is: one digit or more, of at most 65,535.
#[tactic(auto, using(crate::proofs::Numbers::number_no_digits, crate::proofs::Numbers::number_by_value))]
fn read_number(word: &[u8]) -> Option<u16>
    ensures { result ≡ number_of word.now }
{
    if !are_digits(word) {
        return None;
    }
    small(read_i64(word)?)
}

// The numbers that the words of a text are, at least one and at most so many.
fn read_numbers<const MOST: usize>(text: Option<&[u8]>) -> Option<ArrayVec<u16, MOST>>
    ensures { option_map (λ numbers. numbers.items) result ≡ chain_of MOST (parts_behind 32 text.entry) }
{
    let mut numbers = ArrayVec::new();
    let mut rest = text;
    while let Some(words) = rest {
        if numbers.is_full() {
            return None;
        }
        let (word, behind) = cut(words, b' ');
        numbers.push(read_number(word)?);
        rest = behind;
    }
    if numbers.is_empty() {
        return None;
    }
    Some(numbers)
}

// The split whose number is what stands behind its keyword.
fn read_split(behind: Option<&[u8]>) -> Option<Line>
    ensures { result ≡ split_of (parts_behind 32 behind.entry) }
{
    let (word, others) = cut(behind?, b' ');
    if others.is_some() {
        return None;
    }
    Some(Line::Split(read_number(word)?))
}

// The infeasible node whose numbers stand behind its keyword.
fn read_infeasible(behind: Option<&[u8]>) -> Option<Line>
    ensures { result ≡ infeasible_of (parts_behind 32 behind.entry) }
{
    Some(Line::Infeasible(read_numbers(behind)?))
}

// The branch closed by the comparison whose number is what stands behind its keyword.
fn read_against(behind: Option<&[u8]>) -> Option<Line>
    ensures { result ≡ against_of (parts_behind 32 behind.entry) }
{
    let (word, others) = cut(behind?, b' ');
    if others.is_some() {
        return None;
    }
    Some(Line::Against(read_number(word)?))
}

// The leaf, behind whose keyword nothing stands.
fn read_leaf(behind: Option<&[u8]>) -> Option<Line>
    ensures { result ≡ leaf_of (parts_behind 32 behind.entry) }
{
    match behind {
        Some(_) => None,
        None => Some(Line::Leaf),
    }
}

// The path whose ends and numbers stand behind its keyword.
fn read_path(behind: Option<&[u8]>) -> Option<Line>
    ensures { result ≡ path_of (parts_behind 32 behind.entry) }
{
    let (from_word, behind_from) = cut(behind?, b' ');
    let (to_word, behind_to) = cut(behind_from?, b' ');
    Some(Line::Path(Path {
        from: read_number(from_word)?,
        to: read_number(to_word)?,
        numbers: read_numbers(behind_to)?,
    }))
}

/// Returns the line of a certificate that a text is, or none where it is no line.
#[tactic(auto, using(crate::proofs::Spelled::reading_of))]
pub fn read_line(text: &[u8]) -> Option<Line>
    ensures { IsReading text.now result }
{
    let (word, behind) = cut(text, b' ');
    match keyword_of(word)? {
        Keyword::Split => read_split(behind),
        Keyword::Infeasible => read_infeasible(behind),
        Keyword::Against => read_against(behind),
        Keyword::Leaf => read_leaf(behind),
        Keyword::Path => read_path(behind),
    }
}
