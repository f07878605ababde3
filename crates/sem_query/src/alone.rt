//! What a row tells by itself.
ghost use Rattle.std.specs.Prelude.{◌≡◌};
ghost use Rattle.sem_query.specs.Assignment.{value};
ghost use Rattle.sem_query.specs.Meaning.{by_column};
ghost use Rattle.sem_query.specs.Admission.{alone};

use crate::atom::Element;

/// Returns the value of a column in a row, 0 where the row has none.
pub fn value_at(row: &[i64], column: u8) -> i64
    ensures { result ≡ by_column row.now column }
{
    row.get(usize::from(column)).copied().unwrap_or(0)
}

/// Returns the value of an element in a row: that of its column, whatever the stream, or the integer that it is.
pub fn value_alone(row: &[i64], element: Element) -> i64
    ensures { result ≡ value element (alone (by_column row.now)) }
{
    match element {
        Element::Attr(attr) => value_at(row, attr.column),
        Element::Const(integer) => integer,
    }
}
