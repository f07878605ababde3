//! Laws of the definitions, as public functions without a body: the clause is the law.
ghost use Rattle.cmd_load.specs.Laws.{FirstRows, HasItsLines};

/// The first rows of a script.
pub fn first_rows()
    ensures { FirstRows }
{}

/// The lines of a script's text are its lines.
pub fn lines_of_text()
    ensures { HasItsLines }
{}
