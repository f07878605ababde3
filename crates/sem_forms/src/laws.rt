//! The laws, as public functions without a body.
ghost use Rattle.sem_forms.specs.Laws.{WholePartsServe, HasOneWholePart, WholePartsAreFinite, WholePartsBreakNothing, WholeAnswersAreCounted, PartQueriesAreWellFormed, PartsHaveSystems, PartsServe, PartsTake, SplitPlansServe, HasOneListOfSplitParts, SplitPartsAreCounted, HasOneSplitPlan, HasOnePartBreak, HasOneSplitViolation, SplitPlansMeet, PartsAreFew, AnnouncedAnswersHold, FormPlansServe, HasOneFormPlan, HasOneFormVerdict};

/// The plan of the whole form tells the answers.
pub fn whole_parts_serve()
    ensures { WholePartsServe }
{}

/// A query has one.
pub fn has_one_whole_part()
    ensures { HasOneWholePart }
{}

/// A query with one breaks no condition of the whole form.
pub fn whole_parts_are_finite()
    ensures { WholePartsAreFinite }
{}

/// A query with one has no first break.
pub fn whole_parts_break_nothing()
    ensures { WholePartsBreakNothing }
{}

/// The announced answers of that plan are counted from the ranges of its different selected columns.
pub fn whole_answers_are_counted()
    ensures { WholeAnswersAreCounted }
{}

/// The query of a part is well formed.
pub fn part_queries_are_well_formed()
    ensures { PartQueriesAreWellFormed }
{}

/// Its system does not contradict itself.
pub fn parts_have_systems()
    ensures { PartsHaveSystems }
{}

/// The plan of a part serves the query.
pub fn parts_serve()
    ensures { PartsServe }
{}

/// It takes the combinations that satisfy the query and have the signs of the part.
pub fn parts_take()
    ensures { PartsTake }
{}

/// The plans of all parts tell the answers.
pub fn split_plans_serve()
    ensures { SplitPlansServe }
{}

/// A query has one list of split parts.
pub fn has_one_list_of_split_parts()
    ensures { HasOneListOfSplitParts }
{}

/// A query has more than n split parts exactly where their list is longer.
pub fn split_parts_are_counted()
    ensures { SplitPartsAreCounted }
{}

/// A query has one plan of its split parts.
pub fn has_one_split_plan()
    ensures { HasOneSplitPlan }
{}

/// A part breaks one thing first, or nothing.
pub fn has_one_part_break()
    ensures { HasOnePartBreak }
{}

/// There is one violation of the split form of a query.
pub fn has_one_split_violation()
    ensures { HasOneSplitViolation }
{}

/// Where each part has a plan, none breaks anything.
pub fn split_plans_meet()
    ensures { SplitPlansMeet }
{}

/// A plan by parts has at most 4,096, where there are not too many.
pub fn parts_are_few()
    ensures { PartsAreFew }
{}

/// The announced answers are room for each table of tuples that lie in the ranges of some part.
pub fn announced_answers_hold()
    ensures { AnnouncedAnswersHold }
{}

/// The plan of a query that breaks no condition tells the answers, whichever form it has.
pub fn form_plans_serve()
    ensures { FormPlansServe }
{}

/// A query that breaks no condition has one plan.
pub fn has_one_form_plan()
    ensures { HasOneFormPlan }
{}

/// There is one verdict on a query.
pub fn has_one_form_verdict()
    ensures { HasOneFormVerdict }
{}
