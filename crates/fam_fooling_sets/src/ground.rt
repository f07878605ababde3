//! What all rows of a family are made from.
ghost use Rattle.std.specs.Prelude.{◌≡◌};
ghost use Rattle.plan_closure.specs.Answers.{IsSmall, IsSolvedAt};
ghost use Rattle.fam_fooling_sets.specs.Members.{value_for, target_for, IsGround, IsFarWithin};

use arrayvec::ArrayVec;
use plan_closure::Bounds;
use sem_query::{Attr, Row};

/// The attributes of a query and its streams of FROM, for each of these a row of which nothing is asked, the bounds of a part, the
/// column in which the rows differ, its node, which is 0 where it is no attribute, and its least and its greatest value.
#[derive(Drop)]
pub struct Ground<'a> {
    pub attrs: &'a [Attr],
    pub from: &'a [u8],
    pub blanks: &'a [Row],
    pub bounds: &'a Bounds,
    pub named: Attr,
    pub node: u8,
    pub low: Option<i128>,
    pub high: Option<i128>,
}

/// Returns the value of a number: so far above the least value, or below the greatest where there is no least, or the number itself.
pub fn value_of(low: Option<i128>, high: Option<i128>, number: u16) -> i128
    requires low { IsSmall low }
    requires high { IsSmall high }
    ensures value { result ≡ value_for low high number }
    ensures within { IsFarWithin result }
{
    match low {
        Some(low) => low + i128::from(number),
        None => match high {
            Some(high) => high - i128::from(number),
            None => i128::from(number),
        },
    }
}

// What is asked of the node: the value, and 0 of the node of no attribute.
fn target(node: u8, value: i128) -> i128
    requires { IsFarWithin value }
    ensures value { result ≡ target_for node value }
    ensures within { IsFarWithin result }
{
    if node == 0 { 0 } else { value }
}

/// Returns a solution of the bounds in which the column has the value of a number.
pub fn solution(ground: &Ground, number: u16) -> ArrayVec<i128, 12>
    requires { IsGround ground.now }
    ensures { IsSolvedAt ground.now.bounds.now.attrs ground.now.bounds.now.constraints ground.now.node (target_for ground.now.node (value_for ground.now.low ground.now.high number)) result.items }
{
    let value = target(ground.node, value_of(ground.low, ground.high, number));
    match ground.bounds.solve_at(ground.node, value) {
        Some(values) => values,
        None => unreachable!(),
    }
}
