//! The value that a row has at a column of a filter, and whether comparisons hold of it.
ghost use Rattle.std.specs.Prelude.{◌≡◌, ◌≤◌, ◌==◌, [], ◌∷◌, length, map};
ghost use Rattle.std.specs.List.{list_all};
ghost use Rattle.sem_query.specs.Assignment.{value, meets};
ghost use Rattle.sem_query.specs.Meaning.{assignment_of};

use sem_query::{Atom, Attr, Element, Row, Tuple, value_at};

/// Returns the integer that a combination of one row has at a column.
pub fn filter_column(row: &[i64], attr: Attr) -> i64
    ensures { result ≡ assignment_of (row.now ∷ []) attr }
{
    if attr.stream == 0 {
        value_at(row, attr.column)
    } else {
        0
    }
}

// The integer that an element has there.
fn filter_value(row: &[i64], element: Element) -> i64
    ensures { result ≡ value element (assignment_of (row.now ∷ [])) }
{
    match element {
        Element::Attr(attr) => filter_column(row, attr),
        Element::Const(k) => k,
    }
}

// Whether a comparison holds there.
fn filter_meets(row: &[i64], atom: &Atom) -> bool
    ensures { result ≡ meets (assignment_of (row.now ∷ [])) atom.now }
{
    let left = filter_value(row, atom.left);
    let right = filter_value(row, atom.right);
    atom.op.compares(left, right)
}

/// Returns whether all comparisons hold of a row alone.
pub fn filter_all_meet(row: &[i64], atoms: &[Atom]) -> bool
    ensures { result ≡ list_all (meets (assignment_of (row.now ∷ []))) atoms.now }
{
    atoms.iter().all(|atom| filter_meets(row, atom))
}

/// Puts the values of at most 8 columns of a row into a tuple, in place of what it held.
pub fn filter_project(row: &Row, select: &[Attr], tuple: &mut Tuple)
    requires { length select.now ≤ 8 }
    ensures { tuple.new.items ≡ map (assignment_of (row.now.items ∷ [])) select.now }
{
    // A new one is eight zeros stored at once, which costs less than to clear the old one.
    *tuple = Tuple::new();
    'columns: for attr in select {
        tuple.push(filter_column(row.as_slice(), *attr));
    }
}
