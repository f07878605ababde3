//! What holds between the cells of a combination, and what it answers.
ghost use Rattle.std.specs.Prelude.{◌≡◌, ◌≤◌, length, int_lt, map};
ghost use Rattle.sem_query.specs.Parts.{pairs};
ghost use Rattle.std.specs.List.{list_all};
ghost use Rattle.std.specs.Ordering.{int_eq};
ghost use Rattle.sem_query.specs.Assignment.{compares};
ghost use Rattle.exec_synopsis.specs.Preparing.{IsPrepared};
ghost use Rattle.exec_ranges.specs.Values.{value_in};
ghost use Rattle.exec_join.specs.Choosing.{meets_links, tuple_of};

use exec_ranges::{Binding, RowAt, value_in};
use sem_query::{Attr, Tuple};

/// Returns whether all links of the part hold.
#[tactic(auto, unfolding(crate::specs::Choosing::meets_links))]
#[inline(always)]
pub fn meets_links(at: &RowAt<'_>, known: &[Binding]) -> bool
    requires prepared { IsPrepared (pairs at.now.q.now) at.now.part.now at.now.prepared.now }
    ensures { result ≡ meets_links (pairs at.now.q.now) at.now.part.now at.now.arriving at.now.row.now.items known.now }
{
    // The inequalities first: an equality mostly holds of what it left to choose.
    'less: for l in at.part.less.as_slice() {
        let left = value_in(at, known, l.left);
        let right = value_in(at, known, l.right);
        if !(left < right) {
            return false;
        }
    }
    'equal: for l in at.part.equal.as_slice() {
        let left = value_in(at, known, l.left);
        let right = value_in(at, known, l.right);
        if !(left == right) {
            return false;
        }
    }
    'soft: for l in at.part.soft.as_slice() {
        let left = value_in(at, known, l.left);
        let right = value_in(at, known, l.right);
        if !l.op.compares(left, right) {
            return false;
        }
    }
    true
}

/// Puts the values of the selected columns into `tuple`.
#[tactic(auto, unfolding(crate::specs::Choosing::tuple_of))]
#[inline(always)]
pub fn tuple_of(at: &RowAt<'_>, known: &[Binding], select: &[Attr], tuple: &mut Tuple)
    requires few { length select.now ≤ 8 }
    requires prepared { IsPrepared (pairs at.now.q.now) at.now.part.now at.now.prepared.now }
    ensures { tuple.new.items ≡ tuple_of (pairs at.now.q.now) select.now at.now.part.now at.now.arriving at.now.row.now.items known.now }
{
    *tuple = Tuple::new();
    'selected: for a in select {
        tuple.push(value_in(at, known, *a));
    }
}
