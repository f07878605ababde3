//! The pairs of one stream, and signs that are the same.
ghost use Rattle.std.specs.Prelude.{◌≡◌};
ghost use Rattle.sem_query.specs.Parts.{is_within};
ghost use Rattle.sem_query.specs.Admission.{sign_eq};

use crate::atom::Element;
use crate::part::{Pair, Sign};

/// Returns whether all columns of a pair are of the stream at a place of FROM.
pub fn is_within(place: usize, pair: Pair) -> bool
    ensures { result ≡ is_within place pair.left pair.right }
{
    match pair.right {
        Element::Attr(right) => {
            usize::from(pair.left.stream) == place && usize::from(right.stream) == place
        }
        Element::Const(_) => usize::from(pair.left.stream) == place,
    }
}

/// Returns whether two signs are the same.
pub fn is_same_sign(s: Sign, t: Sign) -> bool
    ensures { result ≡ sign_eq s t }
{
    s == t
}
