//! A part as a row meets it.

use exec_synopsis::Prepared;
use sem_query::{PartPlan, Query, Row};

/// A row that arrives at a place of FROM, and a part of a query that it meets: its plan, and what it is asked of every row.
#[derive(Clone, Copy)]
pub struct RowAt<'a> {
    pub q: &'a Query,
    pub part: &'a PartPlan,
    pub prepared: &'a Prepared,
    pub arriving: u8,
    pub row: &'a Row,
}
