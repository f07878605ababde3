//! The classes of attributes of one stream that are equal in a part.
ghost use Rattle.std.specs.Prelude.{◌↔◌, IsTrue};
ghost use Rattle.std.specs.List.{AllZip};
ghost use Rattle.sem_query.specs.Query.{attrs_of};
ghost use Rattle.sem_query.specs.Plan.{AreOneClass};
ghost use Rattle.plan_links.specs.Known.{AreKnown};
ghost use Rattle.plan_links.specs.Placed.{IsNamed};
ghost use Rattle.plan_links.specs.Refs.{IsClassPlace};

use crate::order::is_equal;
use crate::placed::{NamedAttr, as_element, named_at};
use arrayvec::ArrayVec;
use plan_closure::Distances;
use sem_query::{Part, Query};

// Whether two attributes are of one class.
fn are_one_class(q: &Query, p: &Part, bounds: &Distances, a: NamedAttr, b: NamedAttr) -> bool
    requires known { AreKnown q.now p.now.signs.items bounds.now }
    requires left { IsNamed q.now a }
    requires right { IsNamed q.now b }
    ensures { IsTrue result ↔ AreOneClass q.now p.now.signs.items a.attr b.attr }
{
    a.attr.stream == b.attr.stream && is_equal(q, p, bounds, as_element(q, a), as_element(q, b))
}

// The place of the attribute that names the class of another.
fn class_of(q: &Query, p: &Part, bounds: &Distances, a: NamedAttr) -> u8
    requires known { AreKnown q.now p.now.signs.items bounds.now }
    requires among { IsNamed q.now a }
    ensures { IsClassPlace q.now p.now.signs.items a.attr result }
{
    let attrs = q.attrs();
    for i in 0..attrs.len() {
        if are_one_class(q, p, bounds, named_at(q, i), a) {
            return i as u8;
        }
    }
    0
}

/// Returns for each attribute the place of the attribute that names its class.
pub fn classes(q: &Query, p: &Part, bounds: &Distances) -> ArrayVec<u8, 12>
    requires { AreKnown q.now p.now.signs.items bounds.now }
    ensures { AllZip (IsClassPlace q.now p.now.signs.items) (attrs_of q.now.atoms) result.items }
{
    let attrs = q.attrs();
    let mut list = ArrayVec::new();
    for i in 0..attrs.len() {
        list.push(class_of(q, p, bounds, named_at(q, i)));
    }
    list
}
