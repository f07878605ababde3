//! Laws of the definitions, as public functions without a body: the clause is the law.
ghost use Rattle.law_plain_texts.specs.Rows.{RowsAreAnswered};
ghost use Rattle.law_plain_texts.specs.Texts.{TextsArePlain};

/// Behind lines of which none is a RESUME line, the reply to a row that is taken is, query by query, the new answers over all its rows so far.
pub fn rows_are_answered()
    ensures { RowsAreAnswered }
{}

/// The session text of a text without EXPLAIN, CHECKPOINT and RESUME is told by the definitions of the other lines alone.
pub fn texts_are_plain()
    ensures { TextsArePlain }
{}
