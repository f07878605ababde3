//! The laws, as public functions without a body.
ghost use Rattle.plan_conditions.specs.DomainBounds.{DomainsBoundUnnamed};

/// A column that no comparison names is bounded in a part exactly where it has a domain, and takes both ends of it.
pub fn domains_bound_unnamed()
    ensures { DomainsBoundUnnamed }
{}
