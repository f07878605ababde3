//! What is known of refusals beyond plain queries: soft comparisons without DISTINCT, domains, and COMPACT.
ghost use Rattle.sem_lower_bounds.specs.Closed.{DomainsMayMislead};
ghost use Rattle.sem_lower_bounds.specs.Compact.{CompactIsJudgedPlainly};
ghost use Rattle.sem_lower_bounds.specs.Loose.{SoftMayMislead};
ghost use Rattle.sem_lower_bounds.specs.Soft.{TellingNeedsStates, CountedConditionsAreExact};
ghost use Rattle.sem_lower_bounds.specs.Unlike.{UnlikeMayMislead};
ghost use Rattle.sem_lower_bounds.specs.Within.{WrittenIsAlike, WrittenDecides, DomainsNeedStates, CatalogDomainsNeedStates, DomainConditionsAreExact};

/// A query without domains that is refused, and is not compact, needs many states where no comparison is soft, there is no DISTINCT, or the refusal names a selected column.
pub fn telling_needs_states()
    ensures { TellingNeedsStates }
{}

/// The conditions are exact of a query that is not compact and has neither DISTINCT nor domains.
pub fn counted_conditions_are_exact()
    ensures { CountedConditionsAreExact }
{}

/// On rows within the domains of a query, the query with its domains written as comparisons answers the same.
pub fn written_is_alike()
    ensures { WrittenIsAlike }
{}

/// A query needs many states on rows within its domains, exactly where the written one needs them on all rows.
pub fn written_decides()
    ensures { WrittenDecides }
{}

/// Where the written query is refused, and that tells, a query that is not compact needs many states on rows within its domains.
pub fn domains_need_states()
    ensures { DomainsNeedStates }
{}

/// The same of evaluators that are right only on rows within the domains as a catalog has them, of so many values for each stream.
pub fn catalog_domains_need_states()
    ensures { CatalogDomainsNeedStates }
{}

/// Where no comparison is soft or there is no DISTINCT, a query that is not compact needs many states on rows within its domains, exactly where the written one violates a condition.
pub fn domain_conditions_are_exact()
    ensures { DomainConditionsAreExact }
{}

/// A query needs many states exactly where it does without COMPACT, so a compact query is judged by the one without the word.
pub fn compact_is_judged_plainly()
    ensures { CompactIsJudgedPlainly }
{}

/// A worked query with a domain is refused, the written one is not, and on rows within the domain few states are enough.
pub fn domains_may_mislead()
    ensures { DomainsMayMislead }
{}

/// A worked query with a soft comparison is refused; without DISTINCT it needs many states, and with it few are enough.
pub fn soft_may_mislead()
    ensures { SoftMayMislead }
{}

/// A worked query with DISTINCT and two soft comparisons is refused by the third condition, and few states are enough for it.
pub fn unlike_may_mislead()
    ensures { UnlikeMayMislead }
{}
