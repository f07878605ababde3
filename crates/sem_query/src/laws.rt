//! Laws of the definitions, as public functions without a body: the clause is the law.
ghost use Rattle.sem_query.specs.Cases.{FirstPartIsNamed, ClassesAreCounted};
ghost use Rattle.sem_query.specs.Filter.{FiltersAlone};
ghost use Rattle.sem_query.specs.Laws.{GroupsAreComponents, HasOnePart, HasOneListOfParts, LinksSuffice, EndsBound, SidesAreBoundedTogether, HasOneViolation};

/// A filter answers a row by that row alone: it needs no history.
pub fn filters_alone()
    ensures { FiltersAlone }
{}

/// Two columns are in one group exactly where a chain of comparisons of two columns leads from one to the other.
pub fn groups_are_components()
    ensures { GroupsAreComponents }
{}

/// A satisfying assignment that keeps to the domains has exactly one sign vector, and it is in the list of parts.
pub fn one_part()
    ensures { HasOnePart }
{}

/// Two lists of the parts of a query are the same.
pub fn one_list_of_parts()
    ensures { HasOneListOfParts }
{}

/// The assignments of a part are exactly those that keep to the domains, have its local signs and meet its links.
pub fn links_suffice()
    ensures { LinksSuffice }
{}

/// A column is bounded in a part exactly where two constants or ends of domains enclose it.
pub fn ends_bound()
    ensures { EndsBound }
{}

/// Where no column has a domain, the two sides of a nonredundant inequality between streams are bounded together.
pub fn sides_are_bounded_together()
    ensures { SidesAreBoundedTogether }
{}

/// Two violations of a query are the same: one failure, or none.
pub fn one_violation()
    ensures { HasOneViolation }
{}

/// The first failing part is named.
pub fn first_part_is_named()
    ensures { FirstPartIsNamed }
{}

/// Two references of one class count once.
pub fn classes_are_counted()
    ensures { ClassesAreCounted }
{}
