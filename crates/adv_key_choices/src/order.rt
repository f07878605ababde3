//! Whether one choice is at most another.
ghost use Rattle.std.specs.Prelude.{◌≡◌, ◌↔◌, None, IsTrue, All};
ghost use Rattle.adv_key_choices.specs.Choices.{IsKeyed, keys_in, IsNoWorse, BroadcastsNoMore, IsAtMost, is_deduped_or_home, no_worse};

use crate::choice::{Choice, KeyedQuery};
use adv_key_decision::{Judgement, judge};

// Whether a query is deduped or at home.
fn is_deduped_or_home(how: Judgement) -> bool
    ensures { result ≡ is_deduped_or_home how }
{
    match how {
        Judgement::Deduped | Judgement::Home => true,
        Judgement::Apart | Judgement::Torn => false,
    }
}

// Whether a query of the first judgement is at least as well off as one of the second: at home is worse than deduped, and that is worse than apart.
fn no_worse(first: Judgement, second: Judgement) -> bool
    ensures { result ≡ no_worse first second }
{
    match first {
        Judgement::Home => second == Judgement::Home,
        Judgement::Deduped => is_deduped_or_home(second),
        Judgement::Apart | Judgement::Torn => true,
    }
}

// Whether the first choice leaves a query no worse than the second.
fn is_no_worse(k: &KeyedQuery, c: &Choice, d: &Choice) -> bool
    requires { IsKeyed k.now }
    ensures { IsTrue result ↔ IsNoWorse k.now.query (keys_in c.now) (keys_in d.now) }
{
    let first = judge(&k.query, k.classes.as_slice(), &c.keys);
    let second = judge(&k.query, k.classes.as_slice(), &d.keys);
    no_worse(first, second)
}

// Whether the first choice leaves each query no worse than the second.
fn are_no_worse(queries: &[KeyedQuery], c: &Choice, d: &Choice) -> bool
    requires { All IsKeyed queries.now }
    ensures { IsTrue result ↔ All (λ k. IsNoWorse k.query (keys_in c.now) (keys_in d.now)) queries.now }
{
    for i in 0..queries.len() {
        if !is_no_worse(&queries[i], c, d) {
            return false;
        }
    }
    true
}

// Whether a stream without a key has none.
fn has_none(first: Option<u8>, second: Option<u8>) -> bool
    ensures { IsTrue result ↔ (first ≡ None → second ≡ None) }
{
    match first {
        Some(_) => true,
        None => match second {
            Some(_) => false,
            None => true,
        },
    }
}

// Whether each stream that the first choice broadcasts is broadcast by the second.
fn broadcasts_no_more(c: &Choice, d: &Choice) -> bool
    ensures { IsTrue result ↔ BroadcastsNoMore c.now d.now }
{
    for i in 0..16 {
        if !has_none(c.keys[i], d.keys[i]) {
            return false;
        }
    }
    true
}

/// Returns whether the first choice leaves no query worse than the second does, and broadcasts no stream that the second does not.
pub fn is_at_most(queries: &[KeyedQuery], c: &Choice, d: &Choice) -> bool
    requires { All IsKeyed queries.now }
    ensures { IsTrue result ↔ IsAtMost queries.now c.now d.now }
{
    if broadcasts_no_more(c, d) {
        are_no_worse(queries, c, d)
    } else {
        false
    }
}
