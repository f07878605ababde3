//! Two integers that follow one another in a text, read together.
ghost use Rattle.std.specs.Prelude.{◌+◌, ◌≤◌, length, slice_index, IfSome};
ghost use Rattle.io_row_reader.specs.Short.{ArePair};

use crate::lanes::{LANES, marks_of, numbers_of};
use crate::orders::ORDERS;
use std::simd::prelude::*;

/// Two integers with a comma between them: the amounts, how many bytes stand before the comma, and how many in all.
#[derive(Clone, Copy)]
pub(crate) struct DigitPair {
    pub(crate) amounts: [u64; 2],
    pub(crate) comma: usize,
    pub(crate) len: usize,
}

/// Returns the amounts that the digits before and behind a comma at a place of a text write, where these are 1 to 8 each, and all, with the
/// byte behind them, stand in the 16 bytes from there on.
#[inline(always)]
pub(crate) fn pair_at(text: &[u8], start: usize) -> Option<DigitPair>
    requires { start + LANES ≤ length text.now }
    ensures { IfSome result (λ pair. ArePair text.now start pair.comma pair.len (slice_index pair.amounts 0) (slice_index pair.amounts 1)) }
{
    let lanes = u8x16::from_slice(&text[start..]);
    let marks = marks_of(lanes);
    let later = marks & marks.wrapping_sub(1);
    if later == 0 {
        return None;
    }
    let comma = marks.trailing_zeros() as usize;
    let len = later.trailing_zeros() as usize;
    if text[start + comma] != b',' {
        return None;
    }
    // The order for these places puts both integers behind zeros, each into a half of the lanes. It ends with 0 where one of them has no
    // digit or more than 8.
    let order = &ORDERS[16 * comma + len];
    if order[15] == 0 {
        return None;
    }
    let digits = (lanes - u8x16::splat(b'0')).swizzle_dyn(u8x16::from_slice(order));
    Some(DigitPair {
        amounts: numbers_of(digits),
        comma,
        len,
    })
}
