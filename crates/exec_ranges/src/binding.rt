use crate::lists::Values;
use sem_query::Cell;

/// What a walk has chosen at one place of FROM: a cell and the values of its dims; for the arriving row, no values.
#[derive(Drop, Default)]
pub struct Binding {
    pub values: Values,
    pub cell: Cell,
}
