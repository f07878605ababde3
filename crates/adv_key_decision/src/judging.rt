//! How the shards of a query answer, by the keys of its streams.
ghost use Rattle.std.specs.Prelude.{◌↔◌, ◌<◌, IsTrue, length};
ghost use Rattle.std.specs.List.{AllZip};
ghost use Rattle.sem_query.specs.Query.{attrs_of};
ghost use Rattle.sem_sharding.specs.Keys.{IsKey};
ghost use Rattle.adv_key_decision.specs.Equal.{NamesClass};
ghost use Rattle.adv_key_decision.specs.Judged.{by_stream, AreAllSeenEqual, IsEqualAt, OnAllEqual, IsSeenSelected, IsJudged};

use crate::grouping::are_equal;
use crate::keys::{first_key, key_at};
use sem_query::{Attr, Query};

/// How the shards of a query answer.
#[derive(Clone, Copy, Debug, PartialEq, Eq)]
pub enum Judgement {
    /// The answers of the shards together are the answers.
    Apart,
    /// Shards may answer a tuple each: of equal tuples the first counts.
    Deduped,
    /// No stream of the query has a key: one shard alone answers all.
    Home,
    /// Keys are not seen to be equal, so rows that belong together may be in different shards.
    Torn,
}

// Whether the key at a place of FROM, where there is one, is seen to be equal to a column.
fn is_equal_at(q: &Query, classes: &[u8], choice: &[Option<u8>], a: Attr, place: usize) -> bool
    requires classes { AllZip (NamesClass q.now) (attrs_of q.now.atoms) classes.now }
    requires place { place < length q.now.from }
    ensures { IsTrue result ↔ IsEqualAt q.now (by_stream choice.now) a place }
{
    match key_at(q, choice, place) {
        Some(key) => are_equal(q, classes, a, key),
        None => true,
    }
}

// Whether all keys are seen to be equal to a column.
fn are_all_equal(q: &Query, classes: &[u8], choice: &[Option<u8>], a: Attr) -> bool
    requires { AllZip (NamesClass q.now) (attrs_of q.now.atoms) classes.now }
    ensures { OnAllEqual q.now (by_stream choice.now) a result }
{
    for place in 0..q.from().len() {
        if !is_equal_at(q, classes, choice, a, place) {
            return false;
        }
    }
    true
}

// Whether a selected column is seen to be equal to a column.
fn is_selected(q: &Query, classes: &[u8], a: Attr) -> bool
    requires { AllZip (NamesClass q.now) (attrs_of q.now.atoms) classes.now }
    ensures { IsTrue result ↔ IsSeenSelected q.now a }
{
    let select = q.select();
    for i in 0..select.len() {
        if are_equal(q, classes, a, select[i]) {
            return true;
        }
    }
    false
}

// How the shards answer where all keys are equal to one of them.
fn judge_equal(q: &Query, classes: &[u8], choice: &[Option<u8>], key: Attr) -> Judgement
    requires classes { AllZip (NamesClass q.now) (attrs_of q.now.atoms) classes.now }
    requires key { IsKey q.now (by_stream choice.now) key }
    requires equal { AreAllSeenEqual q.now (by_stream choice.now) key }
    ensures { IsJudged q.now (by_stream choice.now) result }
{
    // Named for the proof alone: the contract speaks of it.
    let _choice = choice;
    if !q.distinct() {
        Judgement::Apart
    } else if is_selected(q, classes, key) {
        Judgement::Apart
    } else {
        Judgement::Deduped
    }
}

/// Returns how the shards of a query answer where rows go by these keys, one for each stream by its number, or none where it is broadcast. The classes
/// are those of the query's columns.
pub fn judge(q: &Query, classes: &[u8], choice: &[Option<u8>]) -> Judgement
    requires { AllZip (NamesClass q.now) (attrs_of q.now.atoms) classes.now }
    ensures { IsJudged q.now (by_stream choice.now) result }
{
    match first_key(q, choice) {
        Some(key) => {
            if are_all_equal(q, classes, choice, key) {
                judge_equal(q, classes, choice, key)
            } else {
                Judgement::Torn
            }
        }
        None => Judgement::Home,
    }
}
