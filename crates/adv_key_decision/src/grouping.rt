//! Classes of columns that are equal in every assignment that counts.
ghost use Rattle.std.specs.Prelude.{◌≡◌, ◌↔◌, ◌<◌, IsTrue, Contains, length, slice_index_or};
ghost use Rattle.std.specs.List.{AllZip};
ghost use Rattle.sem_query.specs.declared.atom.Attr.{Attr};
ghost use Rattle.sem_query.specs.Query.{attrs_of};
ghost use Rattle.sem_query.specs.Parts.{AreParts, sign_lists};
ghost use Rattle.plan_links.specs.Known.{IsBasis};
ghost use Rattle.adv_key_decision.specs.Equal.{AreEqual, NamesClass, IsClassOf, AreSeenEqual};

use crate::equal::are_equal_in_all;
use arrayvec::ArrayVec;
use plan_links::Basis;
use sem_query::{Attr, Part, Query};

// The place of the first column that is equal to the one at a place.
fn class_at(q: &Query, parts: &[Part], basis: &Basis, i: usize) -> u8
    requires parts { AreParts q.now (sign_lists parts.now) }
    requires basis { IsBasis q.now basis.now }
    requires place { i < length (attrs_of q.now.atoms) }
    ensures { (d : Attr) → NamesClass q.now (slice_index_or (attrs_of q.now.atoms) i d) result }
{
    let attrs = q.attrs();
    for j in 0..i {
        if are_equal_in_all(q, parts, basis, attrs[j], attrs[i]) {
            return j as u8;
        }
    }
    i as u8
}

/// Returns for each column that comparisons name the place of the first one that is equal to it in every assignment that counts.
pub fn classes(q: &Query, parts: &[Part]) -> ArrayVec<u8, 12>
    requires { AreParts q.now (sign_lists parts.now) }
    ensures { AllZip (NamesClass q.now) (attrs_of q.now.atoms) result.items }
{
    let basis = Basis::new(q);
    let attrs = q.attrs();
    let mut list = ArrayVec::new();
    for i in 0..attrs.len() {
        list.push(class_at(q, parts, &basis, i));
    }
    list
}

// The class of a column, or none where no comparison names it.
fn class_of(q: &Query, classes: &[u8], a: Attr) -> Option<u8>
    requires { AllZip (NamesClass q.now) (attrs_of q.now.atoms) classes.now }
    ensures { IsClassOf q.now a result }
{
    let attrs = q.attrs();
    for i in 0..attrs.len() {
        if attrs[i] == a {
            return Some(classes[i]);
        }
    }
    None
}

// Whether two columns that comparisons name are of one class.
fn are_one_class(q: &Query, classes: &[u8], a: Attr, b: Attr) -> bool
    requires { AllZip (NamesClass q.now) (attrs_of q.now.atoms) classes.now }
    ensures { IsTrue result ↔ (Contains (attrs_of q.now.atoms) a × Contains (attrs_of q.now.atoms) b × AreEqual q.now a b) }
{
    match class_of(q, classes, a) {
        Some(left) => match class_of(q, classes, b) {
            Some(right) => left == right,
            None => false,
        },
        None => false,
    }
}

/// Returns whether two columns are the same, or comparisons name both and they are equal in every assignment that counts.
pub fn are_equal(q: &Query, classes: &[u8], a: Attr, b: Attr) -> bool
    requires { AllZip (NamesClass q.now) (attrs_of q.now.atoms) classes.now }
    ensures { IsTrue result ↔ AreSeenEqual q.now a b }
{
    if a == b {
        true
    } else {
        are_one_class(q, classes, a, b)
    }
}
