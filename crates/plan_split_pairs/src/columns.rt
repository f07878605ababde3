//! The pairs of a column of a query.
ghost use Rattle.std.specs.Prelude.{◌≡◌, ◌+◌, ◌≤◌, ◌++◌, length, map, filter, IsTrue};
ghost use Rattle.sem_query.specs.declared.atom.Element.TheVariants as element;
ghost use Rattle.sem_query.specs.Parts.{pair};
ghost use Rattle.plan_split_pairs.specs.Outer.{outer_integers};
ghost use Rattle.plan_split_pairs.specs.Pairs.{are_beside, column_pairs};

use crate::ends::has_both_ends;
use crate::groups::are_beside;
use crate::integers::outer_integers;
use arrayvec::ArrayVec;
use sem_query::{Attr, Element, Pair, Query};

// Adds the pairs of a column with some integers.
fn push_integers(list: &mut ArrayVec<Pair, 68>, attr: Attr, integers: &[i64])
    requires { length list.old.items + length integers.now ≤ 68 }
    ensures { list.new.items ≡ list.old.items ++ map (λ k. pair attr (element.Const k)) integers.now }
{
    for integer in integers {
        list.push(Pair {
            left: attr,
            right: Element::Const(*integer),
        });
    }
}

// Adds the pairs of a column with those of some columns that are of its stream and group.
fn push_columns(list: &mut ArrayVec<Pair, 68>, q: &Query, attr: Attr, others: &[Attr])
    requires compact { IsTrue q.now.compact }
    requires room { length list.old.items + length others.now ≤ 68 }
    ensures { list.new.items ≡ list.old.items ++ map (λ b. pair attr (element.Attr b)) (filter (are_beside q.now attr) others.now) }
{
    'columns: for other in others {
        if are_beside(q, attr, *other) {
            list.push(Pair {
                left: attr,
                right: Element::Attr(*other),
            });
        }
    }
}

// The pairs of a column with its outer integers, and then with those of some later columns that are of its stream and group.
fn all_column_pairs(q: &Query, attr: Attr, later: &[Attr]) -> ArrayVec<Pair, 68>
    requires compact { IsTrue q.now.compact }
    requires few { length later.now ≤ 12 }
    ensures { result.items ≡ map (λ k. pair attr (element.Const k)) (outer_integers q.now attr) ++ map (λ b. pair attr (element.Attr b)) (filter (are_beside q.now attr) later.now) }
{
    let mut list = ArrayVec::new();
    push_integers(&mut list, attr, outer_integers(q, attr).as_slice());
    push_columns(&mut list, q, attr, later);
    list
}

/// Returns the pairs of a column of a compact query: none where it has both ends, and else with each of its outer integers, and then with each of
/// some later columns that is of its stream and group.
pub fn column_pairs(q: &Query, attr: Attr, later: &[Attr]) -> ArrayVec<Pair, 68>
    requires compact { IsTrue q.now.compact }
    requires few { length later.now ≤ 12 }
    ensures { result.items ≡ column_pairs q.now attr later.now }
{
    if has_both_ends(q, attr) {
        ArrayVec::new()
    } else {
        all_column_pairs(q, attr, later)
    }
}
