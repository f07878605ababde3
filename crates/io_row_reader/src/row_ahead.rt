//! Rows as they mostly come, read straight from what a reader has ahead. The last byte of such a text is LF, so that names and digits end
//! before it, and no place is compared with a length.
ghost use Rattle.std.specs.Prelude.{◌≡◌, ℕ, [], ◌+◌, ◌*◌, ◌≤◌, ◌<◌, ◌^◌, length, take, drop, false, IfSome, IsTrue, MatchOption};
ghost use Rattle.std.specs.List.{prefix_len};
ghost use Rattle.sql_catalog.specs.Rows.{IsNamed, is_named};
ghost use Rattle.sql_catalog.specs.Streams.{IsName, shape_at};
ghost use Rattle.sql_text.specs.Value.{amount};
ghost use Rattle.sql_text.specs.Word.{is_digit};
ghost use Rattle.io_row_reader.specs.Ahead.{AddsAt, AreFields, BeginsStream, EndsLine, FieldsTo, IsEnded, IsRowAhead};
ghost use Rattle.io_row_reader.specs.Open.{is_open};
ghost use Rattle.io_row_reader.specs.ReadFields.{ReadsFields};

use crate::indexed_catalog::IndexedCatalog;
use crate::lanes::{LANES, first_digits, short_amount_at};
use crate::pairs::pair_at;
use sem_query::Row;
use sql_catalog::Catalog;
use sql_text::leading_i64;

// How many bytes a name and the comma behind it have, where a text begins with them.
pub(crate) fn named_len(text: &[u8], name: &[u8]) -> Option<usize>
    requires ended { IsEnded text.now }
    requires name { IsName name.now }
    ensures { MatchOption result (is_named name.now text.now ≡ false) (λ len. (len ≡ length name.now + 1) × (len < length text.now) × IsNamed name.now text.now (drop len text.now)) }
{
    if text[0] != name[0] {
        return None;
    }
    let mut place = 1;
    'comparing: while place < name.len() {
        if text[place] != name[place] {
            return None;
        }
        place += 1;
    }
    if text[place] != b',' {
        return None;
    }
    Some(place + 1)
}

// The number of the stream with whose name and a comma a text begins, where that is this number or above. It is not inlined, so that a
// row of the first stream whose name begins so pays nothing for it.
#[cold]
#[inline(never)]
pub(crate) fn later_stream_ahead(catalog: &Catalog, first: u8, text: &[u8]) -> Option<u8>
    requires { IsEnded text.now }
    ensures begins { IfSome result (λ stream. BeginsStream catalog.now text.now stream (length (shape_at catalog.now stream).name + 1)) }
    ensures inside { IfSome result (λ stream. stream < length catalog.now) }
{
    for stream in first..catalog.len() {
        let name = catalog.stream_name(stream).bytes();
        if let Some(_len) = named_len(text, name) {
            return Some(stream);
        }
    }
    None
}

// What `digits_at` gives, digit by digit behind the first sixteen.
fn all_digits_at(text: &[u8], start: usize) -> (u64, usize)
    requires ended { IsEnded text.now }
    requires here { start < length text.now }
    ensures len { result.1 ≡ prefix_len is_digit (drop start text.now) }
    ensures within { start + result.1 < length text.now }
    ensures amount { result.1 ≤ 19 → result.0 ≡ amount (take result.1 (drop start text.now)) }
    ensures small { result.1 ≤ 18 → result.0 < 10 ^ 18 }
{
    let (mut amount, mut len) = first_digits(text, start);
    'digits: loop {
        let byte = text[start + len];
        if !byte.is_ascii_digit() {
            return (amount, len);
        }
        amount = amount.wrapping_mul(10).wrapping_add(u64::from(byte - b'0'));
        len += 1;
    }
}

// The amount that the digits from a place of a text on write, where these are at most 19, and how many they are.
#[inline(always)]
fn digits_at(text: &[u8], start: usize) -> (u64, usize)
    requires ended { IsEnded text.now }
    requires here { start < length text.now }
    ensures len { result.1 ≡ prefix_len is_digit (drop start text.now) }
    ensures within { start + result.1 < length text.now }
    ensures amount { result.1 ≤ 19 → result.0 ≡ amount (take result.1 (drop start text.now)) }
    ensures small { result.1 ≤ 18 → result.0 < 10 ^ 18 }
{
    if LANES <= text.len() - start {
        if let Some(found) = short_amount_at(text, start) {
            return found;
        }
    }
    all_digits_at(text, start)
}

// Whether so many digits are some and at most 18, so that their amount is an integer of 64 bits whatever they are.
pub(crate) fn are_short(digits: usize) -> bool
    ensures { IsTrue result → (0 < digits) × (digits ≤ 18) }
{
    digits.wrapping_sub(1) < 18
}

// Whether so many digits are some and at most 19, and their amount is an integer of 64 bits.
fn are_few(digits: usize, amount: u64) -> bool
    ensures { IsTrue result → (0 < digits) × (digits ≤ 19) × (amount < 2 ^ 63) }
{
    0 < digits && digits <= 19 && amount < 1 << 63
}

// Adds the integer at a place of a text to a row, and gives the place behind it, where one of 64 bits and of at most 24 bytes is there.
#[cold]
#[inline(never)]
fn add_any_at(row: &mut Row, text: &[u8], start: usize) -> Option<usize>
    requires room { length row.old.items < 8 }
    requires here { start < length text.now }
    ensures { IfSome result (λ end. AddsAt text.now start end row.old.items row.new.items) }
{
    let rest = text.split_at(start).1;
    let (value, behind) = leading_i64(rest);
    let Some(value) = value else {
        return None;
    };
    let len = rest.len() - behind.len();
    if len == 0 || 24 < len || text.len() - start <= len {
        return None;
    }
    row.push(value);
    Some(start + len)
}

// The same, at once where the integer has no plus and at most 19 digits.
#[tactic(auto, using(crate::proofs::NamesAhead::behind_minus))]
fn add_integer_at(row: &mut Row, text: &[u8], start: usize) -> Option<usize>
    requires room { length row.old.items < 8 }
    requires ended { IsEnded text.now }
    requires here { start < length text.now }
    ensures { IfSome result (λ end. AddsAt text.now start end row.old.items row.new.items) }
{
    if text[start] == b'-' {
        let (amount, digits) = digits_at(text, start + 1);
        if are_few(digits, amount) {
            row.push(-(amount as i64));
            return Some(start + 1 + digits);
        }
    } else {
        let (amount, digits) = digits_at(text, start);
        if are_few(digits, amount) {
            row.push(amount as i64);
            return Some(start + digits);
        }
    }
    add_any_at(row, text, start)
}

// Puts the integers between commas from a place of a text on behind the values of a row, where there are just so many with these, at most
// 8; and gives the place behind the last one. Where there are not, the row is left with any values.
#[inline(always)]
fn read_other_fields_at(row: &mut Row, width: usize, text: &[u8], start: usize) -> Option<usize>
    requires width { width ≤ 8 }
    requires ended { IsEnded text.now }
    requires here { start < length text.now }
    ensures fields { IfSome result (λ end. (from : ℕ) → FieldsTo text.now from start row.old.items → AreFields text.now from end row.new.items) }
    ensures within { IfSome result (λ end. end < length text.now) }
    ensures width { IfSome result (λ end. length row.new.items ≡ width) }
{
    let mut place = start;
    'fields: while row.len() < width {
        let Some(end) = add_integer_at(row, text, place) else {
            return None;
        };
        if text[end] != b',' {
            return if row.len() == width { Some(end) } else { None };
        }
        place = end + 1;
    }
    None
}

/// How far the fields of a row were read: all of them, with the place behind the last one; or those before a place at which no integer of
/// 1 to 15 digits stands; or they are no such fields.
#[derive(Clone, Copy)]
pub(crate) enum Fields {
    All(usize),
    Before(usize),
    Others,
}

// Puts the integers between commas from a place of a text on into an empty row, where there are just so many, at most 8, and as many bytes
// stand there as these take at most with 15 digits each. What follows an integer with a sign or of more digits is left to be read apart, so
// that nothing of this loop lies in memory for it. Else the row is left with any values.
#[inline(always)]
fn read_fields_at(row: &mut Row, width: usize, text: &[u8], start: usize) -> Fields
    requires empty { row.old.items ≡ [] }
    requires some { 0 < width }
    requires width { width ≤ 8 }
    requires ended { IsEnded text.now }
    requires room { start + 16 * width + 2 ≤ length text.now }
    ensures { ReadsFields result text.now start width row.new.items }
{
    let mut place = start;
    'fields: loop {
        // Two that follow one another are read together, where the row lacks two and these are short.
        let pair = if row.len() + 1 < width {
            pair_at(text, place)
        } else {
            None
        };
        let end = if let Some(pair) = pair {
            row.push(pair.amounts[0] as i64);
            row.push(pair.amounts[1] as i64);
            place + pair.len
        } else if let Some((amount, digits)) = short_amount_at(text, place) {
            row.push(amount as i64);
            place + digits
        } else {
            return Fields::Before(place);
        };
        if row.len() == width {
            return Fields::All(end);
        }
        if text[end] != b',' {
            return Fields::Others;
        }
        place = end + 1;
    }
}

// The length of the line that ends at a place, with an LF or with CR and LF.
pub(crate) fn line_len(text: &[u8], place: usize) -> Option<usize>
    requires ended { IsEnded text.now }
    requires here { place < length text.now }
    ensures { IfSome result (λ len. EndsLine text.now place len) }
{
    if text[place] == b'\n' {
        return Some(place);
    }
    if text[place] == b'\r' && text[place + 1] == b'\n' {
        return Some(place + 1);
    }
    None
}

// The length of the line that is a row of a stream, of which the fields before a place are in the row. It is not inlined, so that rows with
// integers of 1 to 15 digits pay nothing for it.
#[cold]
#[inline(never)]
fn read_rest_at(
    streams: &IndexedCatalog,
    stream: u8,
    text: &[u8],
    place: usize,
    row: &mut Row,
) -> Option<usize>
    requires known { stream < length streams.now.streams }
    requires ended { IsEnded text.now }
    requires here { place < length text.now }
    ensures { IfSome result (λ len. (start : ℕ) → BeginsStream streams.now.streams text.now stream start → FieldsTo text.now start place row.old.items → IsRowAhead streams.now.streams text.now stream len row.new.items) }
{
    // What begins with no sign and no digit is no integer, which is told at once.
    let first = text[place];
    if first != b'-' && first != b'+' && !first.is_ascii_digit() {
        return None;
    }
    let columns = streams.all().columns(stream);
    let Some(end) = read_other_fields_at(row, columns.as_slice().len(), text, place) else {
        return None;
    };
    if !columns.keep(row.as_slice()) {
        return None;
    }
    let Some(len) = line_len(text, end) else {
        return None;
    };
    if text.len() <= len + 1 {
        return None;
    }
    Some(len)
}

/// Puts the row of a stream that the first line of a text is into an empty `row`, and gives the length of the line, where the line is a row,
/// each value in the domain of its column, written without blanks. The text begins with the name of the stream and a comma, and `start` is the
/// place behind these. One CR may stand at the line's end. The last byte of the text is LF, and is not the one that ends the line. Where it
/// gives nothing, `row` is left with any values.
#[inline(always)] // into the loops over lines, with what it calls
pub fn read_row_at(
    streams: &IndexedCatalog,
    stream: u8,
    text: &[u8],
    start: usize,
    row: &mut Row,
) -> Option<usize>
    requires empty { row.old.items ≡ [] }
    requires begins { BeginsStream streams.now.streams text.now stream start }
    requires ended { IsEnded text.now }
    ensures { IfSome result (λ len. IsRowAhead streams.now.streams text.now stream len row.new.items) }
{
    let noted = streams.noted(stream);
    if text.len() < usize::from(noted.room) {
        return read_rest_at(streams, stream, text, start, row);
    }
    match read_fields_at(row, usize::from(noted.width), text, start) {
        Fields::All(end) => {
            if !noted.is_free && !streams.all().columns(stream).keep(row.as_slice()) {
                return None;
            }
            line_len(text, end)
        }
        Fields::Before(place) => read_rest_at(streams, stream, text, place, row),
        Fields::Others => None,
    }
}

/// Puts the row that the first line of a text is into an empty `row`, and gives the number of its stream and the length of the line,
/// where the line is a row of an open stream, each value in the domain of its column, written without blanks. One CR may stand at its end. The
/// last byte of the text is LF, and is not the one that ends the line. Where it gives nothing, `row` is left with any values.
#[inline(always)] // into the loops over lines, with what it calls
pub fn read_row_ahead(streams: &IndexedCatalog, text: &[u8], row: &mut Row) -> Option<(u8, usize)>
    requires empty { row.old.items ≡ [] }
    requires ended { IsEnded text.now }
    ensures row { IfSome result (λ found. IsRowAhead streams.now.streams text.now found.0 found.1 row.new.items) }
    ensures opens { IfSome result (λ found. IsTrue (is_open streams.now.opened found.0)) }
{
    let Some(found) = streams.stream_ahead(text) else {
        return None;
    };
    let (stream, start) = found;
    match read_row_at(streams, stream, text, start, row) {
        Some(len) => Some((stream, len)),
        None => None,
    }
}
