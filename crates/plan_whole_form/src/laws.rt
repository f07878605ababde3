//! The laws, as public functions without a body.
ghost use Rattle.plan_whole_form.specs.Laws.{NumbersReadDims, WholesTellViolations};

/// The cells and the work of a plan of one part are those of each other part with the same dims and the same links `=`.
pub fn numbers_read_dims()
    ensures { NumbersReadDims }
{}

/// The whole form of a query that is no filter tells its violation.
pub fn wholes_tell_violations()
    ensures { WholesTellViolations }
{}
