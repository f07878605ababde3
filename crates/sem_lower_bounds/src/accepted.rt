//! The counterpart of the law on refused queries, and both as one.
ghost use Rattle.sem_lower_bounds.specs.CatalogExact.{CatalogConditionsAreExact};
ghost use Rattle.sem_lower_bounds.specs.Forms.{FormsHaveFewStates, FormsNeedFewStates};
ghost use Rattle.sem_lower_bounds.specs.Served.{ServingHasStates, ServingHasFewStates};
ghost use Rattle.sem_lower_bounds.specs.Accepted.{PolynomiallyManyAreFew, AcceptedHasStates, FewStatesDecide, ConditionsAreExact, NoneLacksPlan};

/// Polynomially many states, in the number of rows and the bound on their values, are few.
pub fn polynomially_many_are_few()
    ensures { PolynomiallyManyAreFew }
{}

/// Where no column has a domain, no condition is violated and there is a plan, some evaluator is right and has few states, by the announced cells and answers:
/// without DISTINCT at most (n + 1)^cells after n rows, with it at most (2 bound + 3)^cells 2^answers after rows with values within the bound.
pub fn accepted_has_states()
    ensures { AcceptedHasStates }
{}

/// A query that is not compact, has no soft comparisons and no domains, and has a plan, has an evaluator that is right and has few states, exactly where no condition is violated.
pub fn few_states_decide()
    ensures { FewStatesDecide }
{}

/// The conditions are exact: a query that is not compact and has no soft comparisons and no domains needs many states, exactly where a condition is violated.
pub fn conditions_are_exact()
    ensures { ConditionsAreExact }
{}

/// No query without domains lacks a plan.
pub fn none_lacks_plan()
    ensures { NoneLacksPlan }
{}

/// The same of evaluators that are right only on rows as a catalog has them.
pub fn catalog_conditions_are_exact()
    ensures { CatalogConditionsAreExact }
{}

/// Where the parts of a plan serve, or the query is a filter, some evaluator is right on rows within the domains, and has no more states than the cells
/// and the answers of the plan tell.
pub fn serving_has_states()
    ensures { ServingHasStates }
{}

/// So it has few.
pub fn serving_has_few_states()
    ensures { ServingHasFewStates }
{}

/// A query that breaks no condition of its form and has a plan, compact or not, with domains and soft comparisons or without, has an evaluator that is
/// right on rows within its domains and has few states.
pub fn forms_have_few_states()
    ensures { FormsHaveFewStates }
{}

/// So it does not need many on such rows.
pub fn forms_need_few_states()
    ensures { FormsNeedFewStates }
{}
