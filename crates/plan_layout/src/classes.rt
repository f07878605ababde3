//! The classes of attributes, by what is told of the part.
ghost use Rattle.std.specs.Prelude.{◌↔◌, ◌<◌, IsTrue, length};
ghost use Rattle.sem_query.specs.Query.{attrs_of};
ghost use Rattle.sem_query.specs.Plan.{AreOneClass, NamesClass};
ghost use Rattle.plan_links.specs.Refs.{AreRefs};
ghost use Rattle.plan_layout.specs.ColumnPlaces.{attr_at};
ghost use Rattle.plan_layout.specs.Classes.{NamesOf};

use crate::lookup::attr_at;
use plan_links::Refs;
use sem_query::{Part, Query};

/// Returns whether the attributes at two places are of one class.
pub fn are_one_class(q: &Query, p: &Part, refs: &Refs, i: usize, j: usize) -> bool
    requires refs { AreRefs q.now p.now.signs.items refs.now }
    requires left { i < length (attrs_of q.now.atoms) }
    requires right { j < length (attrs_of q.now.atoms) }
    ensures { IsTrue result ↔ AreOneClass q.now p.now.signs.items (attr_at q.now i) (attr_at q.now j) }
{
    refs.class.as_slice()[i] == refs.class.as_slice()[j]
}

// Whether the attribute at a place names its class.
fn names_class(q: &Query, p: &Part, refs: &Refs, i: usize) -> bool
    requires refs { AreRefs q.now p.now.signs.items refs.now }
    requires place { i < length (attrs_of q.now.atoms) }
    ensures { IsTrue result ↔ NamesClass q.now p.now.signs.items (attr_at q.now i) }
{
    usize::from(refs.class.as_slice()[i]) == i
}

/// Returns whether the attribute at a place names a class of the stream at a place of FROM.
pub fn names_of(q: &Query, p: &Part, refs: &Refs, place: usize, i: usize) -> bool
    requires refs { AreRefs q.now p.now.signs.items refs.now }
    requires place { i < length (attrs_of q.now.atoms) }
    ensures { IsTrue result ↔ NamesOf q.now p.now.signs.items place (attr_at q.now i) }
{
    usize::from(attr_at(q, i).stream) == place && names_class(q, p, refs, i)
}
