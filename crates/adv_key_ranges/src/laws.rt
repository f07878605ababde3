//! The laws, as public functions without a body.
ghost use Rattle.adv_key_ranges.specs.Laws.{RangesAnswer, RangesAreFound};

/// Shards whose keys are narrowed to ranges answer as what is judged of the keys says, for any number of ranges.
pub fn ranges_answer()
    ensures { RangesAnswer }
{}

/// Each value stands in one range, which is found by a product and a quotient.
pub fn ranges_are_found()
    ensures { RangesAreFound }
{}
