//! Laws of the definitions, as public functions without a body: the clause is the law.
ghost use Rattle.sql_script.specs.Laws.{HasOneEnd};

/// The lines of a script determine what it comes to: its query, or the line that is refused and the word.
pub fn one_end()
    ensures { HasOneEnd }
{}
