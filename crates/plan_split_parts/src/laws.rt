//! A law, as a public function without a body.
ghost use Rattle.plan_split_parts.specs.Signed.{SplitPairsAreSigned};

/// The split pairs of a query can have any signs, as many as there are pairs.
pub fn split_pairs_are_signed()
    ensures { SplitPairsAreSigned }
{}
