//! The definition of a column.
use sql_text::Name;

/// A column of a stream: its name, and its domain where it has one, which is the least and the greatest value that a row may have there.
#[derive(Clone, Copy, Default)]
pub struct ColumnDef {
    pub name: Name,
    pub domain: Option<(i64, i64)>,
}
