//! How a session over feeds ended.

use io_streams::Status;

/// How a session over feeds ended.
#[derive(Clone, Copy, Debug, PartialEq, Eq)]
pub struct FeedsEnding {
    pub status: Status,
    /// Whether the script failed, and no feed was touched.
    pub script_failed: bool,
}
