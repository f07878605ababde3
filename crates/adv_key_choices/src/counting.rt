//! How many choices of keys there are.
ghost use Rattle.std.specs.Prelude.{◌↔◌, IsTrue};
ghost use Rattle.adv_key_choices.specs.Counting.{HasManyChoices};

/// The most choices that are looked at, 2^20.
const MOST_CHOICES: u64 = 1_048_576;

/// Returns whether streams of so many columns have more than 2^20 choices of keys.
pub fn has_many_choices(widths: &[u8]) -> bool
    ensures { IsTrue result ↔ HasManyChoices widths.now }
{
    let mut count = 1u64;
    for i in 0..widths.len() {
        count *= u64::from(widths[i]) + 1;
        if MOST_CHOICES < count {
            return true;
        }
    }
    false
}
