//! Digits of a text, looked at sixteen at a time.
ghost use Rattle.std.specs.Prelude.{◌≡◌, ◌+◌, ◌≤◌, ◌<◌, ◌^◌, length, map, not, take, drop, slice_index, IfSome};
ghost use Rattle.std.specs.Int.Digits.{AllBelowBase, number_from_digits};
ghost use Rattle.std.specs.List.{prefix_len};
ghost use Rattle.std.specs.Simd.Lanes.{mask_l};
ghost use Rattle.sql_text.specs.Value.{amount};
ghost use Rattle.sql_text.specs.Word.{is_digit};

use std::simd::prelude::*;

// How many bytes are looked at together.
pub(crate) const LANES: usize = 16;

// A bit for each lane, the lowest for the first: whether another byte than a digit stands there.
#[inline(always)]
pub(crate) fn marks_of(lanes: u8x16) -> u64
    ensures { result ≡ mask_l (map (λ b. not (is_digit b)) lanes) }
{
    (lanes - u8x16::splat(b'0'))
        .simd_ge(u8x16::splat(10))
        .to_bitmask()
}

// How many digits stand before the first byte that is none.
#[inline(always)]
fn digits_in(lanes: u8x16) -> usize
    ensures { result ≡ prefix_len is_digit lanes }
{
    let others = marks_of(lanes);
    if others == 0 {
        LANES
    } else {
        others.trailing_zeros() as usize
    }
}

// The numbers that the digits of each half of the lanes write, eight digits each.
#[inline(always)]
pub(crate) fn numbers_of(digits: u8x16) -> [u64; 2]
    requires { AllBelowBase 10 digits }
    ensures first { slice_index result 0 ≡ number_from_digits 10 (take 8 digits) }
    ensures second { slice_index result 1 ≡ number_from_digits 10 (drop 8 digits) }
{
    let twos = (u16x8::from_le_bytes(digits) * u16x8::splat(2561)) >> u16x8::splat(8);
    let fours = (u32x4::from_le_bytes(twos.to_le_bytes()) * u32x4::splat(6_553_601))
        >> u32x4::splat(16);
    let words = u64x2::from_le_bytes(fours.to_le_bytes());
    let eights = (words & u64x2::splat(0xFFFF_FFFF)) * u64x2::splat(10_000)
        + (words >> u64x2::splat(32));
    eights.to_array()
}

// The places of sixteen lanes, behind as many that stand for zero.
static PLACES: [u8; 32] = [
    128, 128, 128, 128, 128, 128, 128, 128, 128, 128, 128, 128, 128, 128, 128, 128, 0, 1, 2, 3, 4,
    5, 6, 7, 8, 9, 10, 11, 12, 13, 14, 15,
];

// The amount that so many digits write, which stand in front.
#[inline(always)]
fn amount_of(lanes: u8x16, digits: usize) -> u64
    requires few { digits ≤ 16 }
    requires digits { digits ≤ prefix_len is_digit lanes }
    ensures { result ≡ amount (take digits lanes) }
{
    let places = u8x16::from_slice(&PLACES[digits..]);
    let [first, second] = numbers_of((lanes - u8x16::splat(b'0')).swizzle_dyn(places));
    first.wrapping_mul(100_000_000).wrapping_add(second)
}

/// Returns how many digits stand at a place of a text, where these are 1 to 15 and 16 bytes stand there.
#[inline(always)]
pub(crate) fn digits_ahead(text: &[u8], start: usize) -> Option<usize>
    requires { start < length text.now }
    ensures digits { IfSome result (λ digits. digits ≡ prefix_len is_digit (drop start text.now)) }
    ensures some { IfSome result (λ digits. 0 < digits) }
    ensures few { IfSome result (λ digits. digits ≤ 15) }
    ensures within { IfSome result (λ digits. start + digits < length text.now) }
{
    if text.len() - start < LANES {
        return None;
    }
    let digits = digits_in(u8x16::from_slice(&text[start..]));
    if digits == 0 || digits == LANES {
        return None;
    }
    Some(digits)
}

/// Returns the amount that the digits at a place of a text write, and how many they are, where these are 1 to 15. 16 bytes stand there.
#[inline(always)]
pub(crate) fn short_amount_at(text: &[u8], start: usize) -> Option<(u64, usize)>
    requires { start + LANES ≤ length text.now }
    ensures digits { IfSome result (λ found. found.1 ≡ prefix_len is_digit (drop start text.now)) }
    ensures some { IfSome result (λ found. 0 < found.1) }
    ensures few { IfSome result (λ found. found.1 ≤ 15) }
    ensures within { IfSome result (λ found. start + found.1 < length text.now) }
    ensures amount { IfSome result (λ found. found.0 ≡ amount (take found.1 (drop start text.now))) }
    ensures small { IfSome result (λ found. found.0 < 10 ^ 18) }
{
    let lanes = u8x16::from_slice(&text[start..]);
    let digits = digits_in(lanes);
    if 15 <= digits.wrapping_sub(1) {
        return None;
    }
    Some((amount_of(lanes, digits), digits))
}

/// Returns the amount of the first 16 digits at a place of a text, and 16, where so many stand there, and a byte behind them; else nothing
/// of none.
#[inline(always)]
pub(crate) fn first_digits(text: &[u8], start: usize) -> (u64, usize)
    requires { start < length text.now }
    ensures digits { result.1 ≤ prefix_len is_digit (drop start text.now) }
    ensures few { result.1 ≤ 16 }
    ensures within { start + result.1 < length text.now }
    ensures amount { result.0 ≡ amount (take result.1 (drop start text.now)) }
{
    if text.len() - start <= LANES {
        return (0, 0);
    }
    let lanes = u8x16::from_slice(&text[start..]);
    if digits_in(lanes) < LANES {
        return (0, 0);
    }
    (amount_of(lanes, LANES), LANES)
}
