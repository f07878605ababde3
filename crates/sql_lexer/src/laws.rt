//! Laws of the tokens of a line, as public functions without a body: the clause is the law.
ghost use Rattle.sql_lexer.specs.Laws.{TokensAreLongest, StandingIsFound, StuckIsFault};

/// No longer text than a token is one at its place.
pub fn tokens_are_longest()
    ensures { TokensAreLongest }
{}

/// The tokens of a line are those that stand in it in order, each the longest at its place, with blanks alone between them.
pub fn standing_is_found()
    ensures { StandingIsFound }
{}

/// A line has no tokens, and a place is named, exactly where tokens stand in it up to that place, and none begins there.
pub fn stuck_is_fault()
    ensures { StuckIsFault }
{}
