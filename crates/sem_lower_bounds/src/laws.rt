//! The laws, as public functions without a body.
ghost use Rattle.sem_lower_bounds.specs.Cases.{RefusalsAreThese};
ghost use Rattle.sem_lower_bounds.specs.Catalog.{CatalogNeedsStates};
ghost use Rattle.sem_lower_bounds.specs.Premises.{PremisesAreNeeded};
ghost use Rattle.sem_lower_bounds.specs.States.{RefusedNeedsStates, WholeHistoriesAreRight, FiltersNeedFewStates};

/// A query that is refused, is not compact, and has no soft comparisons and no domains needs many states: by one factor b each evaluator that is right
/// is in at least 2^n states after at most n rows with values within b * (n + 1), whatever n.
pub fn refused_needs_states()
    ensures { RefusedNeedsStates }
{}

/// The same of an evaluator that is right only on rows as a catalog has them, of so many values for each stream.
pub fn catalog_needs_states()
    ensures { CatalogNeedsStates }
{}

/// Each query has an evaluator that is right: one that keeps whole histories.
pub fn whole_histories_are_right()
    ensures { WholeHistoriesAreRight }
{}

/// A filter has an evaluator that is right and has few states.
pub fn filters_need_few_states()
    ensures { FiltersNeedFewStates }
{}

/// Worked queries, each within limits and refused by its condition: so they need many states.
pub fn refusals_are_these()
    ensures { RefusalsAreThese }
{}

/// Without the refusal, or where the evaluator may be wrong, the law on refused queries would be false.
pub fn premises_are_needed()
    ensures { PremisesAreNeeded }
{}
