//! What stands at the front of a text.
use crate::counting::CountedRows;

/// What stands at the front of a text: rows that were counted, or a row of a stream in a line of some length, or no such rows.
#[derive(Clone, Copy)]
pub enum Front {
    Counted(CountedRows),
    Row { stream: u8, len: usize },
    Other,
}
