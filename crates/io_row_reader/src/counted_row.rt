//! Rows that are only counted, since nobody asks for their values and no column of their stream has a domain. Their values are not formed.
ghost use Rattle.std.specs.Prelude.{◌≡◌, ◌+◌, ◌<◌, length, drop, IfSome};
ghost use Rattle.std.specs.List.{prefix_len};
ghost use Rattle.sql_text.specs.Word.{is_digit};
ghost use Rattle.io_row_reader.specs.Ahead.{BeginsStream, IsEnded};
ghost use Rattle.io_row_reader.specs.Counted.{HasFields, IsSomeInteger, IsSomeRowOf};

use crate::indexed_catalog::IndexedCatalog;
use crate::lanes::{LANES, digits_ahead, marks_of};
use crate::row_ahead::{are_short, line_len};
use std::simd::prelude::*;

// Where the digits from a place of a text on end. Two are looked at in a turn, which is one step of the place for both.
fn digits_end(text: &[u8], start: usize) -> usize
    requires ended { IsEnded text.now }
    requires here { start < length text.now }
    ensures end { result ≡ start + prefix_len is_digit (drop start text.now) }
    ensures within { result < length text.now }
{
    let mut place = start;
    'digits: loop {
        if !text[place].is_ascii_digit() {
            return place;
        }
        if !text[place + 1].is_ascii_digit() {
            return place + 1;
        }
        place += 2;
    }
}

// What `integer_end` gives, whatever stands at the place. It is not inlined, so that few digits pay nothing for it.
#[cold]
#[inline(never)]
#[tactic(auto, using(crate::proofs::NamesAhead::behind_minus))]
fn any_integer_end(text: &[u8], start: usize) -> Option<usize>
    requires ended { IsEnded text.now }
    requires here { start < length text.now }
    ensures { IfSome result (λ end. IsSomeInteger text.now start end) }
{
    if text[start] != b'-' {
        let end = digits_end(text, start);
        return if are_short(end - start) {
            Some(end)
        } else {
            None
        };
    }
    if let Some(digits) = digits_ahead(text, start + 1) {
        return Some(start + 1 + digits);
    }
    let end = digits_end(text, start + 1);
    if are_short(end - start - 1) {
        Some(end)
    } else {
        None
    }
}

// The place behind the integer at a place of a text, where it is at most 18 digits, with a minus or no sign before them.
#[inline(always)]
fn integer_end(text: &[u8], start: usize) -> Option<usize>
    requires ended { IsEnded text.now }
    requires here { start < length text.now }
    ensures { IfSome result (λ end. IsSomeInteger text.now start end) }
{
    if let Some(digits) = digits_ahead(text, start) {
        return Some(start + digits);
    }
    any_integer_end(text, start)
}

// What `fields_end` gives, whatever the integers are. It is not inlined, so that integers of few digits pay nothing for it.
#[cold]
#[inline(never)]
fn any_fields_end(width: usize, text: &[u8], start: usize) -> Option<usize>
    requires ended { IsEnded text.now }
    requires here { start < length text.now }
    ensures { IfSome result (λ end. HasFields text.now start end width) }
{
    let mut place = start;
    let mut read = 0;
    'fields: while read < width {
        let Some(end) = integer_end(text, place) else {
            return None;
        };
        read += 1;
        if text[end] != b',' {
            return if read == width { Some(end) } else { None };
        }
        place = end + 1;
    }
    None
}

// The place behind the last of so many integers between commas from a place of a text on, where there are just so many, each a minus or
// no sign and at most 18 digits. Sixteen bytes are looked at once.
#[inline(always)]
fn fields_end(width: usize, text: &[u8], start: usize) -> Option<usize>
    requires ended { IsEnded text.now }
    requires here { start < length text.now }
    ensures { IfSome result (λ end. HasFields text.now start end width) }
{
    if text.len() - start < LANES {
        return any_fields_end(width, text, start);
    }
    let mut marks = marks_of(u8x16::from_slice(&text[start..]));
    let mut place = 0;
    let mut read = 0;
    'fields: while read < width {
        if marks == 0 {
            return any_fields_end(width - read, text, start + place);
        }
        let end = marks.trailing_zeros() as usize;
        if end == place {
            return any_fields_end(width - read, text, start + place);
        }
        read += 1;
        if text[start + end] != b',' {
            return if read == width {
                Some(start + end)
            } else {
                None
            };
        }
        marks &= marks.wrapping_sub(1);
        place = end + 1;
    }
    None
}

/// Returns the length of the first line of a text, where that line is a row of a stream of which no column has a domain, written without
/// blanks and plus signs, with at most 18 digits a value. The text begins with the name of the stream and a comma, and `start` is the place
/// behind these. One CR may stand at the line's end. The last byte of the text is LF, and is not the one that ends the line.
#[inline(always)] // into the loops over lines
pub fn counted_len(streams: &IndexedCatalog, stream: u8, text: &[u8], start: usize) -> Option<usize>
    requires begins { BeginsStream streams.now.streams text.now stream start }
    requires ended { IsEnded text.now }
    ensures { IfSome result (λ len. IsSomeRowOf streams.now.streams text.now stream len) }
{
    let noted = streams.noted(stream);
    if !noted.is_free {
        return None;
    }
    let Some(end) = fields_end(usize::from(noted.width), text, start) else {
        return None;
    };
    let Some(len) = line_len(text, end) else {
        return None;
    };
    if text.len() <= len + 1 {
        return None;
    }
    Some(len)
}
