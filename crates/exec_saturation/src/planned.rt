//! A query as it is run.

use exec_part_index::PreparedPlan;
use exec_pool::Extent;
use sem_query::{Plan, Query};

/// A query as it is run: its plan, what its parts are asked of every row, and the extent of its cells. Like the extent it cannot be dropped.
pub struct PlannedQuery {
    pub query: Query,
    pub plan: Plan,
    pub prepared: PreparedPlan,
    pub extent: Extent,
}
