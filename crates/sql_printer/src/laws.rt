//! Laws of the definitions, as public functions without a body: the clause is the law.
ghost use Rattle.sql_printer.specs.Laws.{OneReading, FaultsAreNone, PrintsBack, ShortIsShortest, ShortReadsBack, CreatesAgain, CreateLinesFit, OldFormsStay};

/// No line can be read as two statements.
pub fn one_reading()
    ensures { OneReading }
{}

/// A line that is refused for its syntax is no statement.
pub fn faults_are_none()
    ensures { FaultsAreNone }
{}

/// What is printed for a statement is read as this statement.
pub fn prints_back()
    ensures { PrintsBack }
{}

/// The short form of a statement within the limits is no longer than any line that is read as this statement.
pub fn short_is_shortest()
    ensures { ShortIsShortest }
{}

/// The short form of a query is read as this query.
pub fn short_reads_back()
    ensures { ShortReadsBack }
{}

/// The line that creates a query again is read as this query.
pub fn creates_again()
    ensures { CreatesAgain }
{}

/// The line that creates a query again has at most 1,024 bytes where some line of at most 1,024 bytes is read as this query.
pub fn create_lines_fit()
    ensures { CreateLinesFit }
{}

/// A text that is a statement locks or unlocks exactly where its first token is no reserved word, so no text that is another statement
/// is read as one of these two.
pub fn old_forms_stay()
    ensures { OldFormsStay }
{}
