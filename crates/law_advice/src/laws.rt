//! Laws of the definitions, as public functions without a body: the clause is the law.
ghost use Rattle.law_advice.specs.Laws.{FindsAnswers, FindsLockedAnswers};
ghost use Rattle.law_advice.specs.ReadBack.{ChangesReadBack, ComparisonsAreToldBehind};
ghost use Rattle.law_advice.specs.StrictStart.{AdviseTellsRefusals};

/// What a line asks for over the streams and the live queries of an open session is what it asks the session for; a line with a fault is refused by the
/// word of the fault.
pub fn finds_answers()
    ensures { FindsAnswers }
{}

/// What a line asks for over the streams of a locked session, by the key of the lock and the names of the streams that it leaves open, is what it asks the
/// session for; a line with a fault is refused by the word of the fault.
pub fn finds_locked_answers()
    ensures { FindsLockedAnswers }
{}

/// Over a script without RESUME lines, in a session that may take as many rows as it has row lines, `advise` comes to the status Done exactly where the session
/// answers no line by a refusal.
pub fn advise_tells_refusals()
    ensures { AdviseTellsRefusals }
{}

/// The printed form of a query with a change that was tried, but for domains, is read as a statement within the limits, and its names stand for this very query.
pub fn changes_read_back()
    ensures { ChangesReadBack }
{}

/// What is told of comparisons is what stands behind the printed form of a query that has some: of one comparison as it is told, of a set of columns with two
/// integers in place of LO and HI.
pub fn comparisons_are_told_behind()
    ensures { ComparisonsAreToldBehind }
{}
