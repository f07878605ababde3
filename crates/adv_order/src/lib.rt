//! What a part of a query orders, as chains of columns and integers.
//!
//! The signs of a part say of each two columns of one stream and one group, and of each column and constant of one group, which is less or whether they are equal. So
//! such a column stands in one chain with all of them, from the least to the greatest. What a part does not order stands in different chains.
#![tactic(auto)]

mod chains;

pub use chains::{Chain, Step, chains_of};
