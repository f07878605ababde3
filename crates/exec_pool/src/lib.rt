//! The room for the cells of all live queries, taken once: pages of 64 cells, lent out by extents. A page is touched when it is first lent.
//!
//! An extent is a run of cells, numbered from 0, whatever pages it has: they need not be adjacent, so an extent can be
//! taken wherever enough pages are free. Extents share no page. A page table of one number per page finds a cell in two
//! index operations; taking and giving back copies the numbers of the extent's pages, and taking empties the cells of those that were lent
//! before. A word for each page marks the cells of it that are not empty, so that 64 empty cells are passed at once.
//!
//! Each read and each write of a cell is counted, in `Steps`. The functions that count are of this crate alone, so that what
//! stands above can bound its reads and its writes, and cannot make or hide one.
#![tactic(auto)]

mod counted;
mod marked;
mod pages;
mod pool;
mod scan;
mod steps;

pub use pool::{Extent, Pool, PoolError};
pub use scan::{Occupied, StridedCells};
pub use sem_query::Cell;
pub use steps::Steps;
