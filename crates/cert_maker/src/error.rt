//! Why no certificate is made.
use thiserror::Error;

/// Why no certificate is made.
#[derive(Clone, Copy, Debug, PartialEq, Eq, Error)]
pub enum MakeError {
    /// The form has more than 114 pairs or 4,096 parts, or its certificate would have more than 262,144 nodes.
    #[error("the certificate has more than 114 pairs, 4096 parts or 262144 nodes")]
    Limit,
    /// There is no memory for it.
    #[error("out of memory")]
    Memory,
}
