//! What an arriving row alone tells of the answers of a part.
ghost use Rattle.std.specs.Prelude.{◌≡◌, ◌≤◌, length, true, IfSome};
ghost use Rattle.sem_query.specs.Assignment.{Assignment};
ghost use Rattle.exec_point_lookup.specs.Known.{IsKnown, AreKnown, IsDetermined};

use sem_query::{Attr, Link, PartPlan, Query, Row, Tuple, is_same, value_at};

// The other side of a link that has the column on one side, where the other is of this place of FROM.
fn beside(pos: u8, link: Link, a: Attr) -> Option<Attr>
    ensures place { IfSome result (λ b. b.stream ≡ pos) }
    ensures equal { IfSome result (λ b. (v : Assignment) → v link.left ≡ v link.right → v a ≡ v b) }
{
    if is_same(link.left, a) && link.right.stream == pos {
        return Some(link.right);
    }
    if is_same(link.right, a) && link.left.stream == pos {
        return Some(link.left);
    }
    None
}

// The value of a column in all that a part answers to a row, where the row's own column or a link to one tells it.
fn determined_value(part: &PartPlan, pos: u8, row: &[i64], a: Attr) -> Option<i64>
    ensures { IfSome result (λ x. IsKnown part.now pos row.now a x) }
{
    if a.stream == pos {
        return Some(value_at(row, a.column));
    }
    'links: for link in part.equal.as_slice() {
        match beside(pos, *link, a) {
            Some(b) => return Some(value_at(row, b.column)),
            None => {}
        }
    }
    None
}

// Puts the values of these columns into `tuple`, where the row alone tells them all.
fn put_determined(
    part: &PartPlan,
    pos: u8,
    row: &[i64],
    columns: &[Attr],
    tuple: &mut Tuple,
) -> bool
    requires { length columns.now ≤ 8 }
    ensures { result ≡ true → AreKnown part.now pos row.now columns.now tuple.new.items }
{
    *tuple = Tuple::new();
    'columns: for a in columns {
        match determined_value(part, pos, row, *a) {
            Some(x) => tuple.push(x),
            None => return false,
        }
    }
    true
}

/// Returns whether, with DISTINCT, all that a part can answer to a row is one tuple that the row alone tells, which is put into
/// `tuple`.
pub fn determined_tuple(q: &Query, part: &PartPlan, pos: u8, row: &Row, tuple: &mut Tuple) -> bool
    ensures { result ≡ true → IsDetermined q.now part.now pos row.now.items tuple.new.items }
{
    if !q.distinct() {
        return false;
    }
    put_determined(part, pos, row.as_slice(), q.select(), tuple)
}
