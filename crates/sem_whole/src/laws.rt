//! The laws, as public functions without a body.
ghost use Rattle.sem_whole.specs.Cases.{UnderIsWhole};
ghost use Rattle.sem_whole.specs.Failing.{HasOneWholeViolation, FirstsGiveBreak, ContradictionsHaveNoForm, ContradictionsAnswerNothing, PlansTellViolations};
ghost use Rattle.sem_whole.specs.Laws.{LinksSuffice, HasOneListOfLinks, BoundsAreImplied, RangesAreTold, KeptValuesDecide, CountsDecide, CellsDecide, WholeFutureIsDetermined, LocalConditionsAreFew, KeysLieInBoxes, FiniteFormsBreakNothing, FiniteFormsExist};
ghost use Rattle.sem_whole.specs.Plan.{PlansAreForms, HasOneWholePlan, PlansTellBreaks};
ghost use Rattle.sem_whole.specs.Signed.{QueriesAreWellFormed, SignsAreSaid, SignedQueriesHold, SignedAttrsAreTheSame, SignedQueriesAreWellFormed, SoftLinksAreFew, SolutionsSatisfy};

/// An assignment satisfies a query within its domains exactly where each stream meets its local conditions, and the links that remain hold.
pub fn links_suffice()
    ensures { LinksSuffice }
{}

/// A query has one list of links.
pub fn one_list_of_links()
    ensures { HasOneListOfLinks }
{}

/// What follows from a system is what its constraints on nodes imply, of which closures tell.
pub fn bounds_are_implied()
    ensures { BoundsAreImplied }
{}

/// The least and the greatest value of a column's node, or none, are the ends of its range.
pub fn ranges_are_told()
    ensures { RangesAreTold }
{}

/// Of rows that meet the local conditions, a link holds of the values exactly where it holds of what they are kept as.
pub fn kept_values_decide()
    ensures { KeptValuesDecide }
{}

/// Without DISTINCT, histories with the same cells have each answer equally often.
pub fn counts_decide()
    ensures { CountsDecide }
{}

/// Histories with the same cells have the same answers.
pub fn cells_decide()
    ensures { CellsDecide }
{}

/// Histories with the same cells are answered alike for good.
pub fn whole_future_is_determined()
    ensures { WholeFutureIsDetermined }
{}

/// A worked query that plain queries refuse, with its whole form.
pub fn under_is_whole()
    ensures { UnderIsWhole }
{}

/// Of a system with a solution, the local conditions of a stream are its own `<>` and the least bounds between its own columns and 0.
pub fn local_conditions_are_few()
    ensures { LocalConditionsAreFew }
{}

/// No kept range is empty, and what is kept of a row lies in the boxes.
pub fn keys_lie_in_boxes()
    ensures { KeysLieInBoxes }
{}

/// A query with a form of finite ranges breaks no condition.
pub fn finite_forms_break_nothing()
    ensures { FiniteFormsBreakNothing }
{}

/// Where no condition is broken there is a form of finite ranges.
pub fn finite_forms_exist()
    ensures { FiniteFormsExist }
{}

/// The plan of a query is a form of it.
pub fn plans_are_forms()
    ensures { PlansAreForms }
{}

/// A query has one plan.
pub fn one_whole_plan()
    ensures { HasOneWholePlan }
{}

/// The kept ranges of the plan have both ends exactly where no condition is broken.
pub fn plans_tell_breaks()
    ensures { PlansTellBreaks }
{}

/// Two violations of a query are the same: one failure, or none.
pub fn one_whole_violation()
    ensures { HasOneWholeViolation }
{}

/// The first columns that show each of the three conditions give the first break.
pub fn firsts_give_break()
    ensures { FirstsGiveBreak }
{}

/// A query whose system contradicts itself has no form.
pub fn contradictions_have_no_form()
    ensures { ContradictionsHaveNoForm }
{}

/// A query whose system contradicts itself is answered nothing.
pub fn contradictions_answer_nothing()
    ensures { ContradictionsAnswerNothing }
{}

/// The kept ranges of the plan have both ends exactly where the query has no violation.
pub fn plans_tell_violations()
    ensures { PlansTellViolations }
{}

/// A query within the limits of a statement is well formed.
pub fn queries_are_well_formed()
    ensures { QueriesAreWellFormed }
{}

/// What signs say holds of an assignment exactly where the pairs have these signs in it.
pub fn signs_are_said()
    ensures { SignsAreSaid }
{}

/// An assignment satisfies a query with signs exactly where it satisfies the query and has them.
pub fn signed_queries_hold()
    ensures { SignedQueriesHold }
{}

/// Signs name no further columns.
pub fn signed_attrs_are_the_same()
    ensures { SignedAttrsAreTheSame }
{}

/// A query within the limits is well formed with signs too.
pub fn signed_queries_are_well_formed()
    ensures { SignedQueriesAreWellFormed }
{}

/// At most 16 links are soft.
pub fn soft_links_are_few()
    ensures { SoftLinksAreFew }
{}

/// A solution that meets each `<>` satisfies the query within its domains.
pub fn solutions_satisfy()
    ensures { SolutionsSatisfy }
{}
