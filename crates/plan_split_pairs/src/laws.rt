//! The laws, as public functions without a body.
ghost use Rattle.plan_split_pairs.specs.Laws.{SplitPairsAreNamed, FewPairsBetween, UnlikesArePairs};

/// The columns of split pairs are attributes of the query, and their integers have at most 15 digits.
pub fn split_pairs_are_named()
    ensures { SplitPairsAreNamed }
{}

/// At most eight split pairs are of columns of two streams.
pub fn few_pairs_between()
    ensures { FewPairsBetween }
{}

/// The first split pairs are those of `<>`, at most eight.
pub fn unlikes_are_pairs()
    ensures { UnlikesArePairs }
{}
