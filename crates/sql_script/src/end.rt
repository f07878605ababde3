//! Why a script is not taken.
use sql_replies::Refusal;

/// Why a script is not taken.
#[derive(Clone, Copy, Debug, PartialEq, Eq)]
pub enum ScriptEnd {
    /// A line is refused, and this is the first one. A script that ends before its query is refused at the number behind its last
    /// line.
    Refused { line: u64, word: Refusal },
    /// The source failed.
    ReadFault,
    /// The source has more bytes than can be counted.
    ByteLimit,
    /// No memory was found for the catalog. Nothing was read.
    Memory,
}
