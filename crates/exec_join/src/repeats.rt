//! Combinations that give a tuple again: where the row and the cells chosen so far tell every selected column, all that goes on from them
//! gives the same tuple, and with DISTINCT the first of them is enough.
ghost use Rattle.std.specs.Prelude.{◌≡◌, true};
ghost use Rattle.sem_query.specs.Parts.{pairs};
ghost use Rattle.std.specs.List.{list_all};
ghost use Rattle.sem_query.specs.Probing.{is_known};
ghost use Rattle.exec_join.specs.Choosing.{tuple_of};
ghost use Rattle.exec_join.specs.Repeats.{IsTold};
ghost use Rattle.exec_synopsis.specs.Preparing.{IsPrepared};

use exec_ranges::{Binding, RowAt, value_in};
use exec_synopsis::is_known;
use sem_query::Attr;

/// Returns whether the row and the cells that were chosen at the first places tell the values of all these columns, and these are they.
pub fn is_told(at: &RowAt<'_>, known: &[Binding], columns: &[Attr], values: &[i64]) -> bool
    requires { IsPrepared (pairs at.now.q.now) at.now.part.now at.now.prepared.now }
    ensures { result ≡ true → IsTold (pairs at.now.q.now) columns.now at.now.part.now at.now.arriving at.now.row.now.items known.now values.now }
{
    if columns.len() != values.len() {
        return false;
    }
    'columns: for column in columns {
        if !is_known(at.arriving, known.len(), *column) {
            return false;
        }
    }
    'values: for i in 0..columns.len() {
        let value = value_in(at, known, columns[i]);
        if !(value == values[i]) {
            return false;
        }
    }
    true
}
