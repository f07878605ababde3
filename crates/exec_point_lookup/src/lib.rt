//! The two cells that a row of a query of one part over two streams meets: the one that counts it, and the one of the other stream that can
//! answer with it.
//!
//! Where one column of the row tells both, and each selected column has the value of a column of the row, this is listed when the query is
//! created. A row is then asked one range.
#![tactic(auto)]

mod determined;
mod direct;

pub use determined::determined_tuple;
pub use direct::{DirectLookup, DirectLookups, direct_lookups, offset_in, put_selected};
