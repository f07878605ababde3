//! What the parts of the split form of a query tell of its states.
ghost use Rattle.sem_split_bounds.specs.Accepted.{UnbrokenPartsHaveFewStates, UnbrokenPartsNeedFewStates};
ghost use Rattle.sem_split_bounds.specs.Cells.{CellsDoNotTell};
ghost use Rattle.sem_split_bounds.specs.Moving.{BrokenPartsMove, NearBreaksMove, StillQueriesHaveFewStates, MotionDecides};
ghost use Rattle.sem_split_bounds.specs.Near.{NearPartsNeedStates};
ghost use Rattle.sem_split_bounds.specs.NearExact.{UnbrokenNearPartsHaveFewStates, NearConditionsAreExact};
ghost use Rattle.sem_split_bounds.specs.Refused.{FirstConditionTells, BrokenPartsTell, CountedPartsTell};
ghost use Rattle.sem_split_bounds.specs.Split.{BrokenPartsNeedStates, RefusedFormsNeedStates, SplitConditionsAreExact};
ghost use Rattle.sem_split_bounds.specs.Verdicts.{CompactVerdictsAreExact};

/// A query that is no filter, of which a part of the split form fails first and by C1, needs many states on rows within its domains.
pub fn first_condition_tells()
    ensures { FirstConditionTells }
{}

/// Where some part of the split form of a query breaks C1 or C2, and each `<>` between streams has a side with both ends by the text, or without DISTINCT
/// any condition, the query needs many states on rows within its domains.
pub fn broken_parts_tell()
    ensures { BrokenPartsTell }
{}

/// Without DISTINCT each part of the split form that breaks a condition tells that the query needs many states on rows within its domains, whatever stands
/// between its streams.
pub fn counted_parts_tell()
    ensures { CountedPartsTell }
{}

/// Each part that breaks a condition tells it, where with DISTINCT each `<>` between streams has a side with both ends by the text.
pub fn broken_parts_need_states()
    ensures { BrokenPartsNeedStates }
{}

/// Under this premise a compact query that is refused by a condition needs many states on rows within its domains.
pub fn refused_forms_need_states()
    ensures { RefusedFormsNeedStates }
{}

/// A query that is no filter needs many states on rows within its domains, with DISTINCT or without and whatever stands between its streams, where a part
/// that leaves open which side of each `<>` between streams is less breaks a condition by its orders and equalities alone.
pub fn near_parts_need_states()
    ensures { NearPartsNeedStates }
{}

/// With DISTINCT, where no such part breaks a condition, some evaluator is right on rows within the domains and has few states, whatever stands between the
/// streams of the query.
pub fn unbroken_near_parts_have_few_states()
    ensures { UnbrokenNearPartsHaveFewStates }
{}

/// So with DISTINCT these parts decide, whatever stands between its streams: a query needs many states on rows within its domains exactly where some such
/// part breaks a condition.
pub fn near_conditions_are_exact()
    ensures { NearConditionsAreExact }
{}

/// Where no part of the split form breaks anything, some evaluator is right on rows within the domains and has few states, whatever the numbers of the
/// query.
pub fn unbroken_parts_have_few_states()
    ensures { UnbrokenPartsHaveFewStates }
{}

/// So the query does not need many on such rows.
pub fn unbroken_parts_need_few_states()
    ensures { UnbrokenPartsNeedFewStates }
{}

/// The conditions of the split form are exact: a query that is no filter, compact or not, of which with DISTINCT each `<>` between streams has a side with
/// both ends by the text, needs many states on rows within its domains, exactly where some part breaks a condition.
pub fn split_conditions_are_exact()
    ensures { SplitConditionsAreExact }
{}

/// The verdict on a compact query is exact: under this premise, unless it has too many parts, it needs many states on rows within its domains exactly
/// where its verdict is that it violates a condition.
pub fn compact_verdicts_are_exact()
    ensures { CompactVerdictsAreExact }
{}

/// Few states are enough for a query with DISTINCT and two `<>` (`unlike_may_mislead`), but cells of one integer each do not tell its answers: however rows
/// are led to cells by how their columns stand to each other and to integers, two histories leave the same numbers of rows, least and greatest values in
/// each cell, and a row is answered differently after them.
pub fn cells_do_not_tell()
    ensures { CellsDoNotTell }
{}

/// Where a part of the split form of a query breaks a condition, values of the query move: that none do is absurd. With DISTINCT each `<>` between streams has a
/// side with both ends by the text.
pub fn broken_parts_move()
    ensures { BrokenPartsMove }
{}

/// So do they where a near part breaks a condition by its orders and equalities, whatever stands between the streams.
pub fn near_breaks_move()
    ensures { NearBreaksMove }
{}

/// With DISTINCT a query whose values do not move has an evaluator that is right on rows within the domains and has few states, whatever stands between its
/// streams.
pub fn still_queries_have_few_states()
    ensures { StillQueriesHaveFewStates }
{}

/// So with DISTINCT a query that some assignment satisfies within its domains needs many states on rows within them exactly where its values move.
pub fn motion_decides()
    ensures { MotionDecides }
{}
