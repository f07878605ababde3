//! Comparisons between streams whose sides can both be moved away.
use crate::block::{Difference, Taken, is_free, meet, taken_with};
use crate::drift::Block;
use arrayvec::ArrayVec;
use plan_constraints::place_of;
use sem_query::Query;

/// A difference between streams, whether its sides are moved up or down, and what moves along.
#[derive(Clone, Copy, Default)]
pub struct Way {
    pub difference: Difference,
    pub up: bool,
    pub taken: Taken,
}

/// All of a place of FROM.
pub type Ways = ArrayVec<Way, 64>;

// Whether a difference lies between streams, with one side at a place.
fn is_at(difference: Difference, place: u8) -> bool {
    let left = difference.left.stream;
    let right = difference.right.stream;
    left != right && (left == place || right == place)
}

// Adds a difference that can be moved up, or down.
fn add_way(
    q: &Query,
    differences: &[Difference],
    difference: Difference,
    up: bool,
    ways: &mut Ways,
) {
    let from = if up {
        difference.left
    } else {
        difference.right
    };
    let taken = taken_with(q, differences, from, up);
    if is_free(q, &taken, up) {
        // Two for each of at most 32 differences: there is room.
        let _full = ways.try_push(Way {
            difference,
            up,
            taken,
        });
    }
}

/// Returns the differences with one side at a place that can be moved.
pub fn ways_at(q: &Query, differences: &[Difference], place: u8) -> Ways {
    let mut ways = Ways::new();
    for difference in differences {
        if is_at(*difference, place) {
            add_way(q, differences, *difference, true, &mut ways);
            add_way(q, differences, *difference, false, &mut ways);
        }
    }
    ways
}

/// Returns so far up, or down.
pub fn along(up: bool, stride: i128) -> i128 {
    if up {
        stride
    } else {
        0_i128.saturating_sub(stride)
    }
}

/// Returns the block of a way: it moves by one stride for each number.
pub fn first_block(way: &Way, stride: i128) -> Block {
    Block {
        taken: way.taken,
        start: 0,
        step: along(way.up, stride),
    }
}

// Whether a side of one way moves with another.
fn is_taken(q: &Query, one: &Way, other: &Way) -> bool {
    let attrs = q.attrs();
    other.taken[place_of(attrs, one.difference.left)]
        || other.taken[place_of(attrs, one.difference.right)]
}

// Whether both have the same side at a place.
fn are_on_one_side(one: &Way, other: &Way, place: u8) -> bool {
    (one.difference.left.stream == place) == (other.difference.left.stream == place)
}

// Whether two blocks can move as they must: to different ends apart from each other, on one side to one end so that the second passes the first.
fn go_together(q: &Query, one: &Way, other: &Way, place: u8) -> bool {
    if one.up != other.up {
        !meet(&one.taken, &other.taken)
    } else if are_on_one_side(one, other, place) {
        !is_taken(q, one, other)
    } else {
        true
    }
}

// Moves a block back from so far out.
fn back(block: Block, n: u16) -> Block {
    let taken = block.taken;
    Block {
        taken,
        start: block.step.saturating_mul(i128::from(n)).saturating_mul(2),
        step: 0_i128.saturating_sub(block.step),
    }
}

/// Returns the block of a second way, by which and by that of the first the rows of a place may be kept apart. Where their sides at the place are the
/// same and they move to one end, or both are different, the second comes back from far out.
pub fn second_block(
    q: &Query,
    one: &Way,
    other: &Way,
    place: u8,
    stride: i128,
    n: u16,
) -> Option<Block> {
    if !go_together(q, one, other, place) {
        return None;
    }
    let block = first_block(other, stride);
    if are_on_one_side(one, other, place) == (one.up == other.up) {
        Some(back(block, n))
    } else {
        Some(block)
    }
}
