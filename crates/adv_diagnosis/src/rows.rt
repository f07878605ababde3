//! What is wrong with a row, and with its fields.
ghost use Rattle.std.specs.Prelude.{◌≡◌, ◌≤◌, ◌<◌, ◌+◌, length, IfSome, IfOk};
ghost use Rattle.sql_text.specs.Lines.{parts_behind};
ghost use Rattle.sql_catalog.specs.Rows.{fields_of};
ghost use Rattle.adv_diagnosis.specs.Faults.{IsReady};
ghost use Rattle.adv_diagnosis.specs.Locked.{IsRowDiagnosis};
ghost use Rattle.adv_diagnosis.specs.RowFaults as faults;
ghost use Rattle.adv_diagnosis.specs.RowFaults.{no_value_from, outside_from, IsFieldsFault};

use crate::fault::{Asks, Diagnosis, Fault};
use sql_catalog::{Catalog, ColumnDef};
use sql_text::{Name, cut, key_of, read_i64, split_word, trim};

// Whether the value of a field, 0 where it has none, lies outside the domain of a column, where there is one.
fn is_outside(column: &ColumnDef, field: &[u8]) -> bool
    ensures { result ≡ faults.is_outside column.now field.now }
{
    let value = read_i64(trim(field)).unwrap_or(0);
    match column.domain {
        Some((lo, hi)) => value < lo || hi < value,
        None => false,
    }
}

/// Returns the text behind the first comma of a row line, where there is one: its fields, with commas between them.
pub fn fields_text(line: &[u8]) -> Option<&[u8]>
    ensures fields { fields_of line.now ≡ parts_behind 44 result }
    ensures shorter { IfSome result (λ rest. length rest.now < length line.now) }
{
    cut(line, b',').1
}

/// Returns how many fields there are, behind so many others.
pub fn count_fields(before: u16, fields: Option<&[u8]>) -> u16
    requires { IfSome fields (λ text. before + length text.now < 1025) }
    ensures { result ≡ before + length (parts_behind 44 fields.entry) }
{
    match fields {
        None => before,
        Some(text) => count_fields(before + 1, cut(text, b',').1),
    }
}

/// Returns the place of the first field that is no integer of 64 bits, where the first field stands at the given place.
pub fn first_no_value(place: u16, fields: Option<&[u8]>) -> Option<u16>
    requires { IfSome fields (λ text. place + length text.now < 1025) }
    ensures { result ≡ no_value_from place (parts_behind 44 fields.entry) }
{
    let text = fields?;
    let (field, others) = cut(text, b',');
    if read_i64(trim(field)).is_none() {
        Some(place)
    } else {
        first_no_value(place + 1, others)
    }
}

/// Returns the place of the first field whose value lies outside the domain of its column, where the first field and the first of these
/// columns stand at the given place.
pub fn first_outside(place: u8, columns: &[ColumnDef], fields: Option<&[u8]>) -> Option<u8>
    requires { place + length columns.now ≤ 8 }
    ensures { result ≡ outside_from place columns.now (parts_behind 44 fields.entry) }
{
    match columns {
        [] => None,
        [column, others @ ..] => {
            let text = fields?;
            let (field, rest) = cut(text, b',');
            if is_outside(column, field) {
                Some(place)
            } else {
                first_outside(place + 1, others, rest)
            }
        }
    }
}

// What is wrong with the fields of a row of a stream.
#[tactic(auto, using(crate::proofs::RowTests::wrong_count, crate::proofs::RowTests::no_integer, crate::proofs::RowTests::outside_domain, crate::proofs::RowTests::good_row))]
fn fields_fault(text: &[u8], stream: u8, catalog: &Catalog) -> Option<Fault>
    requires short { length text.now ≤ 1024 }
    requires there { stream < length catalog.now }
    ensures { IsFieldsFault catalog.now stream (fields_of text.now) result }
{
    let columns = catalog.columns(stream).as_slice();
    let fields = fields_text(text);
    let count = count_fields(0, fields);
    let found = usize::from(count);
    if found != columns.len() {
        return Some(Fault::Arity {
            stream,
            wanted: columns.len() as u8,
            found: count,
        });
    }
    if let Some(field) = first_no_value(0, fields) {
        return Some(Fault::Value { field });
    }
    let field = first_outside(0, columns, fields)?;
    Some(Fault::Domain { stream, field })
}

/// Returns that a row line of at most 1,024 bytes asks for a row, or what is wrong with it.
pub fn diagnose_row(text: &[u8], catalog: &Catalog) -> Diagnosis
    requires { length text.now ≤ 1024 }
    ensures found { IsRowDiagnosis catalog.now text.now result }
    ensures ready { IfOk result (IsReady catalog.now) }
{
    let (word, _) = split_word(text);
    if key_of(word).is_some() {
        return Err(Fault::RowKey);
    }
    if Name::MOST_BYTES < word.len() {
        return Err(Fault::RowName {
            bytes: word.len() as u16,
        });
    }
    let Some(stream) = catalog.find_bytes(word) else {
        return Err(Fault::RowStream);
    };
    match fields_fault(text, stream, catalog) {
        Some(fault) => Err(fault),
        None => Ok(Asks::Row),
    }
}
