//! The fields of a row line.
ghost use Rattle.std.specs.Prelude.{◌≡◌, ℕ, [], ◌∷◌, ◌≤◌, ◌<◌, length, IfOk, IfSome, IsTrue};
ghost use Rattle.std.specs.List.{slice_split, before_first};
ghost use Rattle.std.specs.Result.{result_map_both};
ghost use Rattle.sql_text.specs.Blank.{trimmed};
ghost use Rattle.sql_text.specs.Lines.{parts_behind};
ghost use Rattle.sql_text.specs.Value.{value_of};
ghost use Rattle.sql_catalog.specs.Rows.{is_comma, entry, row_with};
ghost use Rattle.sql_catalog.specs.Streams.{lie_within};

use crate::columns::Columns;
use crate::row_error::RowError;
use crate::row_line::cut_behind;
use sem_query::Row;
use sql_text::{leading_i64, trim_start};

// The value that the first field of a text is without the blanks at its ends, and the text behind the comma that ends it.
fn read_field(text: &[u8]) -> (Option<i64>, Option<&[u8]>)
    ensures value { result.0 ≡ value_of (trimmed (before_first is_comma text.now)) }
    ensures parts { slice_split is_comma text.now ≡ before_first is_comma text.now ∷ parts_behind 44 result.1 }
    ensures shorter { IfSome result.1 (λ rest. length rest.now < length text.now) }
{
    let (value, behind) = leading_i64(trim_start(text));
    let (left, others) = cut_behind(behind);
    if left.is_empty() {
        (value, others)
    } else {
        (None, others)
    }
}

/// Puts the values of the fields of a text into a row in place of what it holds, one for each of at most 8 columns, in their domains.
/// Each field is read once. Where the fields are no row, the row is left with any values.
pub fn read_fields(row: &mut Row, columns: &Columns, fields: Option<&[u8]>) -> Result<(), RowError>
    requires width { length columns.now ≤ 8 }
    ensures row { (stream : ℕ) → result_map_both (λ done. entry stream row.new.items) (λ error. error) result ≡ row_with stream columns.now (parts_behind 44 fields.entry) }
    ensures width { IfOk result (λ done. length row.new.items ≡ length columns.now) }
    ensures domains { IfOk result (λ done. IsTrue (lie_within columns.now row.new.items)) }
{
    let width = columns.as_slice().len();
    row.clear();
    let mut all_values = true;
    let mut rest = fields;
    while let Some(text) = rest {
        if row.len() == width {
            return Err(RowError::Arity);
        }
        let (value, others) = read_field(text);
        all_values = all_values && value.is_some();
        row.push(value.unwrap_or(0));
        rest = others;
    }
    if row.len() != width {
        return Err(RowError::Arity);
    }
    if !all_values {
        return Err(RowError::Value);
    }
    if !columns.keep(row.as_slice()) {
        return Err(RowError::Domain);
    }
    Ok(())
}
