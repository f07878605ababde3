//! The first condition that a part breaks, chosen among the first columns that show it.
ghost use Rattle.std.specs.Prelude.{◌≡◌};
ghost use Rattle.sem_query.specs.FirstBreak.{sooner, sooner_if, first_of_three};

use crate::atom::{Attr, is_before};
use crate::condition::Condition;

/// A condition that a part breaks, and the column that shows it.
#[derive(Clone, Copy, Debug, PartialEq, Eq)]
pub struct Break {
    pub condition: Condition,
    pub attr: Attr,
}

// The column found, or another that comes before it.
fn sooner(found: Option<Attr>, attr: Attr) -> Option<Attr>
    ensures { result ≡ sooner found attr }
{
    match found {
        None => Some(attr),
        Some(other) => {
            if is_before(attr, other) {
                Some(attr)
            } else {
                Some(other)
            }
        }
    }
}

/// Returns the column found or, where another counts and comes before it, the other.
pub fn sooner_if(counts: bool, found: Option<Attr>, attr: Attr) -> Option<Attr>
    ensures { result ≡ sooner_if counts found attr }
{
    if counts { sooner(found, attr) } else { found }
}

/// Returns the first of three columns that is there, with the condition that it shows: C1, C2 and C3, in this order.
pub fn first_of_three(
    first: Option<Attr>,
    second: Option<Attr>,
    third: Option<Attr>,
) -> Option<Break>
    ensures { result ≡ first_of_three first second third }
{
    match first {
        Some(attr) => Some(Break {
            condition: Condition::C1,
            attr,
        }),
        None => match second {
            Some(attr) => Some(Break {
                condition: Condition::C2,
                attr,
            }),
            None => match third {
                Some(attr) => Some(Break {
                    condition: Condition::C3,
                    attr,
                }),
                None => None,
            },
        },
    }
}
