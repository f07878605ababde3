//! The groups of the columns that some comparisons name.
ghost use Rattle.std.specs.Prelude.{◌≡◌, ◌≤◌, if◌then◌else◌, length, map, Contains};
ghost use Rattle.sem_query.specs.Query.{attr_eq, attrs_of};
ghost use Rattle.sem_query.specs.Groups.{group_of, same_group};

use crate::atom::{Atom, Attr, Element, is_same};
use crate::query::copied;
use arrayvec::ArrayVec;

// The column that stands for a column, where the table gives that of each of some columns, and all others stand for themselves.
fn group_among(attr: Attr, attrs: &[Attr], table: &[Attr]) -> Attr
    requires { length attrs.now ≡ length table.now }
    ensures { (group : Attr → Attr) → map group attrs.now ≡ table.now → (¬ Contains attrs.now attr → group attr ≡ attr) → result ≡ group attr }
{
    for (i, other) in attrs.iter().enumerate() {
        if is_same(*other, attr) {
            return table[i];
        }
    }
    attr
}

// The table with one column in place of another.
fn replaced(table: &[Attr], old: Attr, new: Attr) -> ArrayVec<Attr, 12>
    requires { length table.now ≤ 12 }
    ensures { result.items ≡ map (λ g. if attr_eq g old then new else g) table.now }
{
    let mut list = ArrayVec::new();
    'columns: for column in table {
        list.push(if is_same(*column, old) { new } else { *column });
    }
    list
}

/// Returns the column that stands for each of some columns, in their order; they are all columns that the comparisons name.
pub(crate) fn groups(atoms: &[Atom], attrs: &[Attr]) -> ArrayVec<Attr, 12>
    requires few { length attrs.now ≤ 12 }
    requires named { (a : Attr) → Contains (attrs_of atoms.now) a → Contains attrs.now a }
    ensures { result.items ≡ map (group_of atoms.now) attrs.now }
{
    match atoms {
        [] => copied(attrs),
        [atom, others @ ..] => {
            let table = groups(others, attrs);
            match (atom.left, atom.right) {
                (Element::Attr(x), Element::Attr(y)) => {
                    let old = group_among(y, attrs, table.as_slice());
                    let new = group_among(x, attrs, table.as_slice());
                    replaced(table.as_slice(), old, new)
                }
                (Element::Attr(_), Element::Const(_)) | (Element::Const(_), _) => table,
            }
        }
    }
}

/// Returns whether two columns are of one group, by the table of the attributes of these comparisons.
pub(crate) fn are_of_one_group(
    atoms: &[Atom],
    attrs: &[Attr],
    table: &[Attr],
    left: Attr,
    right: Attr,
) -> bool
    requires attrs { attrs.now ≡ attrs_of atoms.now }
    requires table { table.now ≡ map (group_of atoms.now) attrs.now }
    ensures { result ≡ same_group atoms.now left right }
{
    // Named for the proof alone: the contract speaks of it.
    let _atoms = atoms;
    is_same(
        group_among(left, attrs, table),
        group_among(right, attrs, table),
    )
}
