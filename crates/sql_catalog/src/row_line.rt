//! Row lines.
ghost use Rattle.std.specs.Prelude.{◌≡◌, ◌∷◌, ◌<◌, length, IfSome};
ghost use Rattle.std.specs.List.{slice_split};
ghost use Rattle.sql_text.specs.Blank.{without_blanks_before};
ghost use Rattle.sql_text.specs.Lines.{parts_behind};
ghost use Rattle.sql_text.specs.Word.{word_of};
ghost use Rattle.sql_catalog.specs.Rows as rows;

use sql_text::{begins_word, cut, split_word, trim_start};

// Whether a comma stands here.
fn begins_comma(text: &[u8]) -> bool
    ensures { result ≡ rows.begins_comma text.now }
{
    match text {
        [] => false,
        [first, ..] => *first == b',',
    }
}

/// Returns whether a text is a row line: one word, blanks or none, and then a comma. `Catalog::read_row` reads such lines.
pub fn is_row_line(text: &[u8]) -> bool
    ensures { result ≡ rows.is_row_line text.now }
{
    let (_, rest) = split_word(text);
    begins_word(text) && begins_comma(trim_start(rest))
}

/// Returns a text without the blanks at its front, up to its first comma, and what stands behind that comma. Mostly the text begins with the
/// comma, or nothing is left of it.
pub fn cut_behind(text: &[u8]) -> (&[u8], Option<&[u8]>)
    ensures parts { slice_split rows.is_comma (without_blanks_before text.now) ≡ result.0.now ∷ parts_behind 44 result.1 }
    ensures shorter { IfSome result.1 (λ rest. length rest.now < length text.now) }
{
    match text {
        [] => (text, None),
        [first, others @ ..] => {
            if *first == b',' {
                (&[], Some(others))
            } else {
                cut(trim_start(text), b',')
            }
        }
    }
}

/// Returns the word at the front of a line, and the text of the fields behind it, which is cut at commas.
pub fn split_fields(line: &[u8]) -> (&[u8], Option<&[u8]>)
    ensures word { result.0.now ≡ word_of line.now }
    ensures fields { rows.fields_of line.now ≡ parts_behind 44 result.1 }
{
    let (word, behind) = split_word(line);
    (word, cut_behind(behind).1)
}
