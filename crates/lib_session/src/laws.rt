//! Laws of the definitions, as public functions without a body: the clause is the law.
ghost use Rattle.lib_session.specs.Laws.{RestIsFedLater, FeedsInPieces, RepliesAreToTheText, RepliesAreSessionText};

/// A text of which a front was taken, and then what was not taken of it, is fed as the whole text: its replies are those to both, one
/// behind the other, whatever was held before and cleared between.
pub fn rest_is_fed_later()
    ensures { RestIsFedLater }
{}

/// A text that ends with LF, and another behind it, are fed as the text that they make.
pub fn feeds_in_pieces()
    ensures { FeedsInPieces }
{}

/// What a session replies to all that it is fed, from the state before the first line on, are the replies to the lines of that, whatever its
/// number of pages is.
pub fn replies_are_to_the_text()
    ensures { RepliesAreToTheText }
{}

/// Where it has 16,384 pages, that is the session text, as `bq run` writes it.
pub fn replies_are_session_text()
    ensures { RepliesAreSessionText }
{}
