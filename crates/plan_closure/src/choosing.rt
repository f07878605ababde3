//! The constraints that the pairs of a query add, worked out once.
ghost use Rattle.std.specs.Prelude.{◌≡◌};
ghost use Rattle.sem_query.specs.Order.{IsElement};
ghost use Rattle.sem_query.specs.declared.atom.Element.TheVariants as element;
ghost use Rattle.plan_closure.specs.Choices.{IsChoice, AreChoices, chosen};

use arrayvec::ArrayVec;
use plan_constraints::{Constraint, constraints};
use sem_query::{Element, Pair, Query, Sign};
use std::marker::Model;

/// The constraints that a pair adds by each sign that it may have. A clause sees three lists.
#[derive(Drop, Default)]
pub struct Choice {
    less: ArrayVec<Constraint, 2>,
    equal: ArrayVec<Constraint, 2>,
    greater: ArrayVec<Constraint, 2>,
}

impl Model for Choice {
    ghost use Rattle.plan_closure.specs.ChoiceValue.{ChoiceValue};

    ghost Value = { ChoiceValue };

    ghost view = { λ c. record { less = c.less.items; equal = c.equal.items; greater = c.greater.items } };
}

impl Choice {
    /// Returns the constraints that the pair adds by a sign.
    pub fn by(&self, sign: Sign) -> &[Constraint]
        ensures { result.now ≡ chosen self.now sign }
    {
        match sign {
            Sign::Lt => self.less.as_slice(),
            Sign::Eq => self.equal.as_slice(),
            Sign::Gt => self.greater.as_slice(),
        }
    }
}

// What a pair adds.
fn choice_of(q: &Query, pair: Pair) -> Choice
    requires left { IsElement q.now (element.Attr pair.left) }
    requires right { IsElement q.now pair.right }
    ensures { IsChoice q.now pair result }
{
    let left = Element::Attr(pair.left);
    Choice {
        less: constraints(left, Sign::Lt, pair.right, q),
        equal: constraints(left, Sign::Eq, pair.right, q),
        greater: constraints(left, Sign::Gt, pair.right, q),
    }
}

/// Returns what each pair of the query adds, in order.
pub fn choices(q: &Query) -> ArrayVec<Choice, 114>
    ensures { AreChoices q.now result.items }
{
    let pairs = q.pairs();
    let pairs = pairs.as_slice();
    let mut list = ArrayVec::new();
    for i in 0..pairs.len() {
        list.push(choice_of(q, pairs[i]));
    }
    list
}
