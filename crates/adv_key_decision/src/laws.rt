//! The laws, as public functions without a body.
ghost use Rattle.adv_key_decision.specs.Judged.{JudgedAnswer, SplitsAreSeen};

/// What is judged of keys is so of the shards' answers to each row after each history, for any number of shards and wherever each value is put.
pub fn judged_answer()
    ensures { JudgedAnswer }
{}

/// Keys that comparisons name, and that split a query wherever each value is put, are seen to be equal.
pub fn splits_are_seen()
    ensures { SplitsAreSeen }
{}
