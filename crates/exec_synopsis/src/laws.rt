//! The laws, as public functions without a body.
ghost use Rattle.exec_synopsis.specs.Inserting.{InsertTakesRow};

/// Where the cells of a box are those of a history, once it took a row they are those of the history and the row, and no other cell of
/// the extent changed.
pub fn insert_takes_row()
    ensures { InsertTakesRow }
{}
