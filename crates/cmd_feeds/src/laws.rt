//! Laws of the definitions, as public functions without a body: the clause is the law.
ghost use Rattle.cmd_feeds.specs.Laws.{HasOneFeedsText, OneFeedGivesItsLines, OneFeedIsASession, RoundsStay};

/// The lines and faults of feeds determine the text that is written over them.
pub fn one_feeds_text()
    ensures { HasOneFeedsText }
{}

/// One feed that did not fail takes its turns line by line.
pub fn one_feed_gives_its_lines()
    ensures { OneFeedGivesItsLines }
{}

/// The text over one feed that did not fail is the session text of its lines.
pub fn one_feed_is_a_session()
    ensures { OneFeedIsASession }
{}

/// The events of a round stay when feeds that have not ended grow.
pub fn rounds_stay()
    ensures { RoundsStay }
{}
