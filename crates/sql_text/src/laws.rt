//! Laws of the definitions, as public functions without a body: the clause is the law.
ghost use Rattle.sql_text.specs.Laws.{CutsAtLineEnd};

/// The lines of a text that is cut at a line end are those of the two pieces, one after the other.
pub fn lines_of_pieces()
    ensures { CutsAtLineEnd }
{}
