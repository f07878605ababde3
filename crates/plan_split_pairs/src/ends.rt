//! Columns that have both ends by the text of a query.
ghost use Rattle.std.specs.Prelude.{◌≡◌};
ghost use Rattle.std.specs.List.{list_any};
ghost use Rattle.plan_split_pairs.specs.Ends.{is_upper, bounds_above, bounds_below, has_domain, has_both_ends};

use crate::integers::flipped;
use sem_query::{Atom, Attr, Element, Op, Query, is_same};

// Whether an operator bounds its left side above by its right side.
fn is_upper(op: Op) -> bool
    ensures { result ≡ is_upper op }
{
    match op {
        Op::Lt | Op::Eq | Op::Le => true,
        Op::Gt | Op::Ge | Op::Ne => false,
    }
}

// Whether elements that stand so to each other bound a column above by an integer.
fn caps(attr: Attr, left: Element, op: Op, right: Element) -> bool
    ensures { result ≡ bounds_above attr left op right }
{
    match (left, right) {
        (Element::Attr(column), Element::Const(_)) => is_same(attr, column) && is_upper(op),
        (Element::Const(_), Element::Attr(column)) => {
            is_same(attr, column) && is_upper(flipped(op))
        }
        (Element::Attr(_), Element::Attr(_)) | (Element::Const(_), Element::Const(_)) => false,
    }
}

// Whether a comparison bounds a column above by an integer.
fn bounds_above(attr: Attr, atom: &Atom) -> bool
    ensures { result ≡ bounds_above attr atom.now.left atom.now.op atom.now.right }
{
    caps(attr, atom.left, atom.op, atom.right)
}

// Whether a comparison bounds a column below by an integer.
fn bounds_below(attr: Attr, atom: &Atom) -> bool
    ensures { result ≡ bounds_below attr atom.now.left atom.now.op atom.now.right }
{
    caps(attr, atom.left, flipped(atom.op), atom.right)
}

// Whether a column has a domain.
fn has_domain(q: &Query, attr: Attr) -> bool
    ensures { result ≡ has_domain q.now attr }
{
    q.domains().iter().any(|d| is_same(attr, d.attr))
}

// Whether a comparison of the query bounds a column above by an integer.
fn has_upper(q: &Query, attr: Attr) -> bool
    ensures { result ≡ list_any (λ t. bounds_above attr t.left t.op t.right) q.now.atoms }
{
    q.atoms().iter().any(|t| bounds_above(attr, t))
}

// Whether one bounds it below.
fn has_lower(q: &Query, attr: Attr) -> bool
    ensures { result ≡ list_any (λ t. bounds_below attr t.left t.op t.right) q.now.atoms }
{
    q.atoms().iter().any(|t| bounds_below(attr, t))
}

/// Returns whether a column has both ends by the text of a query: a domain, or comparisons with integers that bound it above and below.
pub fn has_both_ends(q: &Query, attr: Attr) -> bool
    ensures { result ≡ has_both_ends q.now attr }
{
    has_domain(q, attr) || (has_upper(q, attr) && has_lower(q, attr))
}
