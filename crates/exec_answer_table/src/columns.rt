//! The values of columns of a row as a tuple.
ghost use Rattle.std.specs.Prelude.{◌≡◌, ◌≤◌, length, map};
ghost use Rattle.sem_query.specs.Meaning.{by_column};

use sem_query::{Tuple, value_at};

/// Puts the values of these columns of a row into a tuple.
pub fn put_columns(tuple: &mut Tuple, columns: &[u8], row: &[i64])
    requires { length columns.now ≤ 8 }
    ensures { tuple.new.items ≡ map (by_column row.now) columns.now }
{
    // A new one is eight zeros stored at once, which costs less than to clear the old one.
    *tuple = Tuple::new();
    for column in columns {
        tuple.push(value_at(row, *column));
    }
}
