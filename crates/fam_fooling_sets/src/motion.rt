//! Values of a solution that move away from the constants of a query, number by number.
ghost use Rattle.std.specs.Prelude.{◌≡◌, ◌+◌, ◌<◌, ◌≤◌, ◌≤ℤ◌, ◌<ℤ◌, ◌+ℤ◌, ◌-ℤ◌, ◌&&◌, not, cond, int_lt, length, map, pos};
ghost use Rattle.std.specs.List.{All};
ghost use Rattle.sem_query.specs.Query.{IsShort};
ghost use Rattle.fam_fooling_sets.specs.Moving as moving;
ghost use Rattle.fam_fooling_sets.specs.Moving.{IsNearby, IsMotion, AreEnds, Widens, Spans, ReachNoFarther};

use arrayvec::ArrayVec;

/// The values of a solution of a part's bounds, one for each attribute; the ends, between which nothing moves; the cuts, beyond which a value
/// moves back; and for how many numbers.
#[derive(Drop)]
pub struct Motion {
    pub values: ArrayVec<i128, 12>,
    pub low: i128,
    pub high: i128,
    pub lower_cut: i128,
    pub upper_cut: i128,
    pub n: u16,
}

/// Between which integers all constants lie.
#[derive(Clone, Copy, Debug, PartialEq, Eq)]
pub struct ConstantEnds {
    pub low: i128,
    pub high: i128,
}

// How far is moved for a number: out in equal steps, or from twice as far back again.
fn reach(back: bool, n: u16, number: u16) -> u32
    requires { number < n }
    ensures value { result ≡ moving.reach back n number }
    ensures small { result < 2097152 }
{
    if back {
        16 * (2 * u32::from(n) - u32::from(number))
    } else {
        16 * u32::from(number)
    }
}

// An end, and a value beyond it.
#[derive(Clone, Copy)]
struct Beyond {
    end: i128,
    value: i128,
}

// Whether a value lies above the end, and not above the value there.
fn lies_above(beyond: &Beyond, v: i128) -> bool
    ensures { result ≡ int_lt beyond.now.end v && not (int_lt beyond.now.value v) }
{
    beyond.end < v && v <= beyond.value
}

// Whether a value lies below the end, and not below the value there.
fn lies_below(beyond: &Beyond, v: i128) -> bool
    ensures { result ≡ int_lt v beyond.now.end && not (int_lt v beyond.now.value) }
{
    v < beyond.end && beyond.value <= v
}

// One more where a test is passed.
fn counted(rank: u8, passes: bool) -> u8
    requires { rank < 12 }
    ensures { result ≡ rank + cond passes 1 0 }
{
    if passes { rank + 1 } else { rank }
}

// How many of the values lie above an end, and not above one of them.
fn rank_above(values: &[i128], beyond: &Beyond) -> u8
    requires { length values.now ≤ 12 }
    ensures value { result ≡ moving.rank_above values.now beyond.now.end beyond.now.value }
    ensures small { result ≤ 12 }
{
    let mut rank = 0;
    for i in 0..values.len() {
        rank = counted(rank, lies_above(beyond, values[i]));
    }
    rank
}

// How many lie below an end, and not below one of them.
fn rank_below(values: &[i128], beyond: &Beyond) -> u8
    requires { length values.now ≤ 12 }
    ensures value { result ≡ moving.rank_below values.now beyond.now.end beyond.now.value }
    ensures small { result ≤ 12 }
{
    let mut rank = 0;
    for i in 0..values.len() {
        rank = counted(rank, lies_below(beyond, values[i]));
    }
    rank
}

// An integer so far above an end.
fn above(end: i128, rank: u8, far: u32) -> i128
    requires low { (pos 0 -ℤ pos 300000000000000000) ≤ℤ end }
    requires high { end ≤ℤ pos 300000000000000000 }
    ensures { result ≡ end +ℤ pos (rank + far) }
{
    end + i128::from(rank) + i128::from(far)
}

// An integer so far below an end.
fn below(end: i128, rank: u8, far: u32) -> i128
    requires low { (pos 0 -ℤ pos 300000000000000000) ≤ℤ end }
    requires high { end ≤ℤ pos 300000000000000000 }
    ensures { result ≡ end -ℤ pos (rank + far) }
{
    end - i128::from(rank) - i128::from(far)
}

// What a value is moved to for a number.
fn moved(motion: &Motion, value: i128, number: u16) -> i128
    requires motion { IsMotion motion.now }
    requires number { number < motion.now.n }
    ensures { result ≡ moving.moved motion.now number value }
{
    let values = motion.values.as_slice();
    if motion.high < value {
        let far = reach(motion.upper_cut < value, motion.n, number);
        let beyond = Beyond {
            end: motion.high,
            value,
        };
        return above(motion.high, rank_above(values, &beyond), far);
    }
    if value < motion.low {
        let far = reach(value < motion.lower_cut, motion.n, number);
        let beyond = Beyond {
            end: motion.low,
            value,
        };
        return below(motion.low, rank_below(values, &beyond), far);
    }
    value
}

/// Returns what the values are moved to for a number.
pub fn moved_values(motion: &Motion, number: u16) -> ArrayVec<i128, 12>
    requires motion { IsMotion motion.now }
    requires number { number < motion.now.n }
    ensures { result.items ≡ map (moving.moved motion.now number) motion.now.values.items }
{
    let values = motion.values.as_slice();
    let mut list = ArrayVec::new();
    for i in 0..values.len() {
        list.push(moved(motion, values[i], number));
    }
    list
}

// The lesser of two values.
fn lesser(a: i128, b: i128) -> i128
    requires left { IsNearby a }
    requires right { IsNearby b }
    ensures nearby { IsNearby result }
    ensures left { result ≤ℤ a }
    ensures right { result ≤ℤ b }
{
    if b < a { b } else { a }
}

// The least of some values.
fn least(values: &[i128]) -> i128
    requires { All IsNearby values.now }
    ensures nearby { IsNearby result }
    ensures least { All (λ v. result ≤ℤ v) values.now }
{
    let mut least = 250_000_000_000_000_000;
    for i in 0..values.len() {
        least = lesser(least, values[i]);
    }
    least
}

// The ends that reach as far as an integer, too.
fn widened(ends: ConstantEnds, k: i128) -> ConstantEnds
    requires { ends.low ≤ℤ ends.high }
    ensures { Widens ends k result }
{
    if k < ends.low {
        ConstantEnds {
            low: k,
            high: ends.high,
        }
    } else if ends.high < k {
        ConstantEnds {
            low: ends.low,
            high: k,
        }
    } else {
        ends
    }
}

// The least and the greatest of some integers.
fn span(consts: &[i64]) -> ConstantEnds
    requires { 0 < length consts.now }
    ensures { Spans consts.now consts.now result }
{
    let first = i128::from(consts[0]);
    let mut ends = ConstantEnds {
        low: first,
        high: first,
    };
    for i in 0..consts.len() {
        ends = widened(ends, i128::from(consts[i]));
    }
    ends
}

/// Returns the least and the greatest of the constants, or where there are none an integer below all values, twice.
pub fn ends_of(consts: &[i64], values: &[i128]) -> ConstantEnds
    requires short { All IsShort consts.now }
    requires values { All IsNearby values.now }
    ensures ends { AreEnds consts.now result }
    ensures near { ReachNoFarther consts.now values.now result }
{
    if consts.is_empty() {
        let end = least(values) - 1;
        ConstantEnds {
            low: end,
            high: end,
        }
    } else {
        span(consts)
    }
}
