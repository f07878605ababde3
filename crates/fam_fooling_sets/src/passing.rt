//! Which links of a part keep the rows of a place apart in a motion.
ghost use Rattle.std.specs.Prelude.{◌≡◌, ◌↔◌, IsTrue, Contains};
ghost use Rattle.std.specs.List.{All};
ghost use Rattle.sem_query.specs.Query.{attrs_of};
ghost use Rattle.sem_query.specs.Links.{IsInequality};
ghost use Rattle.fam_fooling_sets.specs.Moving.{IsNearby, IsMotionOf};
ghost use Rattle.fam_fooling_sets.specs.Passing.{value_in, LieBeyond, IsLeft, IsRight, HasLeft, HasRight, AreOnOneSide};

use crate::motion::Motion;
use plan_constraints::place_of;
use sem_query::{Attr, Link, Part, Query};

/// Returns the value of an attribute in a motion.
pub fn value_in(q: &Query, p: &Part, motion: &Motion, attr: Attr) -> i128
    requires motion { IsMotionOf q.now p.now.signs.items motion.now }
    requires named { Contains (attrs_of q.now.atoms) attr }
    ensures value { result ≡ value_in q.now motion.now attr }
    ensures nearby { IsNearby result }
{
    // Named for the proof alone: the contract speaks of it.
    let _part = p;
    let values = motion.values.as_slice();
    let place = place_of(q.attrs(), attr);
    values[place]
}

/// Returns whether both sides of a link lie beyond one end of a motion.
pub fn lie_beyond(q: &Query, p: &Part, motion: &Motion, link: Link) -> bool
    requires motion { IsMotionOf q.now p.now.signs.items motion.now }
    requires link { IsInequality q.now p.now.signs.items link.left link.right }
    ensures { IsTrue result ↔ LieBeyond q.now motion.now link.left link.right }
{
    let left = value_in(q, p, motion, link.left);
    let right = value_in(q, p, motion, link.right);
    motion.high < left || right < motion.low
}

// Whether the left side of a link is of a place, and the link lies beyond an end.
fn is_left(q: &Query, p: &Part, motion: &Motion, link: Link, place: u8) -> bool
    requires motion { IsMotionOf q.now p.now.signs.items motion.now }
    requires link { IsInequality q.now p.now.signs.items link.left link.right }
    ensures { IsTrue result ↔ IsLeft q.now motion.now place link }
{
    link.left.stream == place && lie_beyond(q, p, motion, link)
}

// Whether its right side is, and the link lies beyond an end.
fn is_right(q: &Query, p: &Part, motion: &Motion, link: Link, place: u8) -> bool
    requires motion { IsMotionOf q.now p.now.signs.items motion.now }
    requires link { IsInequality q.now p.now.signs.items link.left link.right }
    ensures { IsTrue result ↔ IsRight q.now motion.now place link }
{
    link.right.stream == place && lie_beyond(q, p, motion, link)
}

/// Returns whether the left side of some link that lies beyond an end is of a place.
pub fn has_left(q: &Query, p: &Part, motion: &Motion, links: &[Link], place: u8) -> bool
    requires motion { IsMotionOf q.now p.now.signs.items motion.now }
    requires links { All (λ l. IsInequality q.now p.now.signs.items l.left l.right) links.now }
    ensures { IsTrue result ↔ HasLeft q.now motion.now links.now place }
{
    for i in 0..links.len() {
        if is_left(q, p, motion, links[i], place) {
            return true;
        }
    }
    false
}

/// Returns whether the right side of some link that lies beyond an end is of a place.
pub fn has_right(q: &Query, p: &Part, motion: &Motion, links: &[Link], place: u8) -> bool
    requires motion { IsMotionOf q.now p.now.signs.items motion.now }
    requires links { All (λ l. IsInequality q.now p.now.signs.items l.left l.right) links.now }
    ensures { IsTrue result ↔ HasRight q.now motion.now links.now place }
{
    for i in 0..links.len() {
        if is_right(q, p, motion, links[i], place) {
            return true;
        }
    }
    false
}

/// Returns whether the left sides of both links are of a place, or the right sides of both.
pub fn are_on_one_side(place: u8, first: Link, second: Link) -> bool
    ensures { IsTrue result ↔ AreOnOneSide place first second }
{
    (first.left.stream == place && second.left.stream == place)
        || (first.right.stream == place && second.right.stream == place)
}
