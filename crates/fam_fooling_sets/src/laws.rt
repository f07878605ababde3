//! The laws, as public functions without a body.
ghost use Rattle.fam_fooling_sets.specs.Laws.{ApartTell, DifferentValuesTell, FamiliesTell, FamiliesTellAlone, InequalitiesTell};
ghost use Rattle.fam_fooling_sets.specs.Worth.{FamiliesNeedStates};

/// What is made from assignments of a part that breaks one of the first two conditions, with different values at the column, is a family.
pub fn families_tell()
    ensures { FamiliesTell }
{}

/// Over one stream with DISTINCT what is made so is a family, too.
pub fn families_tell_alone()
    ensures { FamiliesTellAlone }
{}

/// What is made from assignments of a part that go against its orders where they are mixed is a family for an unbounded inequality.
pub fn inequalities_tell()
    ensures { InequalitiesTell }
{}

/// What is made from assignments that satisfy a query, with different values at a selected column, is a family for that column.
pub fn different_values_tell()
    ensures { DifferentValuesTell }
{}

/// What is made from assignments that satisfy a query, and of which no mixtures do, is a family for an unbounded equality or inequality; without DISTINCT it is
/// enough that mixtures of one kind do not, or those of the next number alone.
pub fn apart_tell()
    ensures { ApartTell }
{}

/// Whatever keeps of each history one of fewer than 2^n numbers, and answers by that and by what came since, answers wrong after some set of the
/// rows of a family of n rows.
pub fn families_need_states()
    ensures { FamiliesNeedStates }
{}
