//! The key columns of the streams of FROM.
ghost use Rattle.std.specs.Prelude.{◌≡◌, ◌<◌, None, length, slice_index_or};
ghost use Rattle.adv_key_decision.specs.Judged.{by_stream, key_of_place, IsSomeKey};

use sem_query::{Attr, Query};

// The key of a stream by its number, or none where it is broadcast.
fn key_of_stream(choice: &[Option<u8>], stream: u8) -> Option<u8>
    ensures { result ≡ slice_index_or choice.now stream None }
{
    let stream = stream as usize;
    if stream < choice.len() {
        choice[stream]
    } else {
        None
    }
}

/// Returns the key column at a place of FROM, or none where its stream is broadcast.
pub fn key_at(q: &Query, choice: &[Option<u8>], place: usize) -> Option<Attr>
    requires { place < length q.now.from }
    ensures { result ≡ key_of_place place (by_stream choice.now (slice_index_or q.now.from place 0)) }
{
    match key_of_stream(choice, q.from()[place]) {
        Some(column) => Some(Attr {
            stream: place as u8,
            column,
        }),
        None => None,
    }
}

/// Returns the key column of the first stream of FROM that has one.
pub fn first_key(q: &Query, choice: &[Option<u8>]) -> Option<Attr>
    ensures { IsSomeKey q.now (by_stream choice.now) result }
{
    for place in 0..q.from().len() {
        match key_at(q, choice, place) {
            Some(key) => return Some(key),
            None => {}
        }
    }
    None
}
