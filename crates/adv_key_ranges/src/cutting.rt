//! The values between two ends, cut into ranges that follow each other.
ghost use Rattle.std.specs.Prelude.{◌≡◌, ◌-◌, ◌^◌, ◌<◌, ◌≤◌, ◌+ℤ◌, ◌≤ℤ◌, neg_ℤ, pos};
ghost use Rattle.adv_mends.specs.Mended.{AreEnds};
ghost use Rattle.adv_key_ranges.specs.Cutting.{value_count, begins, range_at, most_ranges};

use adv_mends::Ends;

/// The most ranges that are tried.
const MOST_RANGES: u64 = 64;

/// Returns how many values there are between two ends, both included.
pub(crate) fn value_count(ends: Ends) -> u64
    requires { AreEnds ends }
    ensures count { result ≡ value_count ends }
    ensures some { 0 < result }
    ensures few { result < 2 ^ 51 }
{
    ends.hi.abs_diff(ends.lo) + 1
}

/// Returns how many ranges are tried at most: 64, and no more than there are values.
pub(crate) fn most_ranges(ends: Ends) -> u64
    requires { AreEnds ends }
    ensures most { result ≡ most_ranges ends }
    ensures few { result ≤ 64 }
    ensures within { result ≤ value_count ends }
{
    let count = value_count(ends);
    if count < MOST_RANGES {
        count
    } else {
        MOST_RANGES
    }
}

// How many of so many values stand before one of so many ranges.
#[tactic(auto, using(crate::proofs::Cuts::few_product, crate::proofs::Cuts::begins_within, crate::proofs::Cuts::begins_some), unfolding(crate::specs::Cutting::begins))]
fn begins(values: u64, ranges: u64, number: u64) -> u64
    requires values { values < 2 ^ 51 }
    requires some { 0 < ranges }
    requires few { ranges ≤ 64 }
    requires number { number ≤ ranges }
    ensures begins { result ≡ begins values ranges number }
    ensures within { result ≤ values }
    ensures some { 0 < number → ranges ≤ values → 0 < result }
{
    (number * values + (ranges - 1)) / ranges
}

// The integer so many above the first of two ends.
fn above(ends: Ends, values: u64) -> i64
    requires low { neg_ℤ (pos 999999999999999) ≤ℤ ends.lo }
    requires high { ends.lo ≤ℤ pos 999999999999999 }
    requires few { values < 2 ^ 51 }
    ensures { result ≡ ends.lo +ℤ pos values }
{
    ends.lo + values as i64
}

/// Returns one of so many ranges, by its number from 0.
pub(crate) fn range_at(ends: Ends, ranges: u64, number: u64) -> Ends
    requires ends { AreEnds ends }
    requires few { ranges ≤ most_ranges ends }
    requires number { number < ranges }
    ensures range { result ≡ range_at ends ranges number }
    ensures ends { AreEnds result }
{
    let count = value_count(ends);
    let before = begins(count, ranges, number);
    let behind = begins(count, ranges, number + 1);
    Ends {
        lo: above(ends, before),
        hi: above(ends, behind - 1),
    }
}
