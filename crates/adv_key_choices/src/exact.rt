//! Whether a choice leaves each query exact.
ghost use Rattle.std.specs.Prelude.{◌≡◌, ◌↔◌, IsTrue, All};
ghost use Rattle.adv_key_decision.specs.Judged.{AreTorn};
ghost use Rattle.adv_key_choices.specs.Choices.{IsKeyed, keys_in, IsExact, says_torn};

use crate::choice::{Choice, KeyedQuery};
use adv_key_decision::{Judgement, judge};

// Whether a judgement says that keys are torn.
fn says_torn(how: Judgement) -> bool
    ensures { result ≡ says_torn how }
{
    match how {
        Judgement::Torn => true,
        Judgement::Apart | Judgement::Deduped | Judgement::Home => false,
    }
}

// Whether two keys of a query are not seen to be equal.
fn is_torn(k: &KeyedQuery, choice: &Choice) -> bool
    requires { IsKeyed k.now }
    ensures { IsTrue result ↔ AreTorn k.now.query (keys_in choice.now) }
{
    says_torn(judge(&k.query, k.classes.as_slice(), &choice.keys))
}

/// Returns whether a choice leaves each query exact: no query has two keys that are not seen to be equal.
pub fn is_exact(queries: &[KeyedQuery], choice: &Choice) -> bool
    requires { All IsKeyed queries.now }
    ensures { IsTrue result ↔ IsExact queries.now choice.now }
{
    for i in 0..queries.len() {
        if is_torn(&queries[i], choice) {
            return false;
        }
    }
    true
}
