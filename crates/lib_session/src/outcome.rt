//! How feeding a text went.

/// How feeding a text went.
#[derive(Clone, Copy, Debug, PartialEq, Eq)]
pub enum FeedOutcome {
    /// All its lines were answered.
    Done,
    /// As many bytes of replies are held as may be, and a line more would come. The lines before it were answered.
    Full,
    /// No memory was found for replies, and a line more would come. The lines before it were answered.
    NoRoom,
    /// No memory was found for what a line creates. That line is counted, and the lines before it were answered. The session may go
    /// on behind it.
    Memory,
    /// No memory was found for the rest of a reply. The lines before its line were answered, and a front of the reply is held. The
    /// session takes no more text.
    Stopped,
    /// The text ends inside a line. Nothing was done.
    Cut,
    /// The session takes no more text: it had stopped, or so many bytes cannot be counted. Nothing was done.
    Ended,
}

/// How feeding a text went, and how many bytes of it were taken. What was not taken may be fed later.
#[derive(Clone, Copy, Debug, PartialEq, Eq)]
pub struct Fed {
    pub outcome: FeedOutcome,
    pub taken: usize,
}
