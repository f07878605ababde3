//! What feeds for rows alone leave as it was, and what they can not change.
ghost use Rattle.law_feeds.specs.RowsAlone.{FeedsKeep, FeedLinesAreExchanged, TurnsComeInOneOrder, FeedRepliesAreShort};

/// Over feeds behind a script, streams, row limit, live queries and free pages stay, and no feed changes a lock. Only rows are taken, each of a
/// stream that is open for its feed, at most one a line, and each live query has its old history and these rows.
pub fn feeds_keep()
    ensures { FeedsKeep }
{}

/// Behind a script, lines of feeds that are no rows taken may be any other such lines: the replies to all other lines are the same, and so is the
/// state behind them.
pub fn feed_lines_are_exchanged()
    ensures { FeedLinesAreExchanged }
{}

/// Feeds with as many lines, which failed alike, take their turns in one order, whatever their lines say.
pub fn turns_come_in_one_order()
    ensures { TurnsComeInOneOrder }
{}

/// Behind a script the reply to a line of a feed is empty, at most 41 bytes, or the answers to a row.
pub fn feed_replies_are_short()
    ensures { FeedRepliesAreShort }
{}
