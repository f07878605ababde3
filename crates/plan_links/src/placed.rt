//! Elements with their nodes, so that a node is looked for once.
ghost use Rattle.std.specs.Prelude.{◌≡◌, ◌<◌, Contains, length, slice_index_or};
ghost use Rattle.sem_query.specs.declared.atom.Attr.{Attr};
ghost use Rattle.sem_query.specs.declared.atom.Element.TheVariants as element;
ghost use Rattle.sem_query.specs.Query.{attrs_of};
ghost use Rattle.sem_query.specs.Order.{IsElement};
ghost use Rattle.plan_links.specs.Placed.{IsPlaced, IsNamed};

use plan_constraints::node;
use sem_query::{Attr, Element, Query};

/// An element of a query with its node.
#[derive(Clone, Copy)]
pub struct Placed {
    pub element: Element,
    pub node: u8,
}

/// An attribute of a query with its node.
#[derive(Clone, Copy)]
pub struct NamedAttr {
    pub attr: Attr,
    pub node: u8,
}

/// Returns an element with its node.
pub fn with_node(q: &Query, element: Element) -> Placed
    requires { IsElement q.now element }
    ensures element { result.element ≡ element }
    ensures placed { IsPlaced q.now result }
{
    Placed {
        element,
        node: node(q.attrs(), element),
    }
}

/// Returns an attribute with its node.
pub fn attr_with_node(q: &Query, attr: Attr) -> NamedAttr
    requires { Contains (attrs_of q.now.atoms) attr }
    ensures attr { result.attr ≡ attr }
    ensures named { IsNamed q.now result }
{
    NamedAttr {
        attr,
        node: node(q.attrs(), Element::Attr(attr)),
    }
}

/// Returns the attribute at a place with its node, which is not looked for.
pub fn named_at(q: &Query, i: usize) -> NamedAttr
    requires { i < length (attrs_of q.now.atoms) }
    ensures attr { (d : Attr) → result.attr ≡ slice_index_or (attrs_of q.now.atoms) i d }
    ensures named { IsNamed q.now result }
{
    let attrs = q.attrs();
    NamedAttr {
        attr: attrs[i],
        node: i as u8 + 1,
    }
}

/// Returns the attribute as an element.
pub fn as_element(q: &Query, a: NamedAttr) -> Placed
    requires { IsNamed q.now a }
    ensures element { result.element ≡ element.Attr a.attr }
    ensures placed { IsPlaced q.now result }
{
    // Named for the proof alone: the contract speaks of it.
    let _query = q;
    Placed {
        element: Element::Attr(a.attr),
        node: a.node,
    }
}
