//! Which live queries a row may concern.
ghost use Rattle.std.specs.Prelude.{◌≡◌, ◌≢◌, ◌<◌, ◌≤◌, ℕ, List, [], length, slice_index_or, IfOk, IsFalse, IsTrue};
ghost use Rattle.std.specs.Int.{bit_at};
ghost use Rattle.std.specs.List.{list_all};
ghost use Rattle.std.specs.Option.{is_none};
ghost use Rattle.exec_query.specs.Executor.{arrival};
ghost use Rattle.exec_registry.specs.Live.{Live};
ghost use Rattle.exec_registry.specs.Concerned.{AreBoxes, IsListed, IsTold, MayConcern, SparesStream};
ghost use Rattle.exec_registry.specs.declared.concerned.Listing.TheVariants as listing;

use crate::queries::Queries;
use arrayvec::ArrayVec;
use exec_query_index::{Candidates, Concerns, QueryBox, with_bit};
use sem_query::Row;
use std::alloc::{AllocError, Global};

/// The streams that there may be.
const STREAMS: usize = 16;

/// What is known of the rows of a stream since live queries last came or went: nothing, or which live queries are candidates for them, or
/// that each live query refuses each of them.
#[derive(Clone, Copy)]
pub enum Listing {
    Unlisted,
    Listed,
    Spared,
}

/// For each stream the candidates among the live queries, and for each number that a stream may have what is known of its rows. Where live
/// queries came or went, the candidates of a stream are listed anew before its next row.
#[derive(Drop)]
pub struct Concerned {
    pub streams: Vec<Candidates>,
    pub listings: [Listing; 256],
}

/// Returns the bits of so many queries.
#[cold]
#[inline(never)]
pub fn all_of(queries: usize) -> u64
    requires { queries ≤ 64 }
    ensures only { (k : ℕ) → bit_at result k ≡ 1 → k < queries }
    ensures all { (k : ℕ) → k < queries → bit_at result k ≡ 1 }
{
    let mut word = 0;
    for k in 0..queries {
        word = with_bit(word, k);
    }
    word
}

// Puts the box of each live query for the rows of a stream into an empty list.
fn put_boxes(boxes: &mut ArrayVec<Option<QueryBox>, 64>, live: &Queries, stream: u8)
    requires few { length live.now ≤ 64 }
    requires none { boxes.old.items ≡ [] }
    ensures { AreBoxes stream boxes.new.items live.now }
{
    for place in 0..live.len() {
        boxes.push(live.executor_at(place).box_for(stream));
    }
}

// Whether there is no box.
fn are_none(boxes: &[Option<QueryBox>]) -> bool
    ensures { result ≡ list_all is_none boxes.now }
{
    boxes.iter().all(|own| own.is_none())
}

// Lists the candidates of a stream anew, and tells whether each live query refuses each of its rows.
fn list_stream(candidates: &mut Candidates, live: &Queries, stream: u8) -> Listing
    requires { length live.now ≤ 64 }
    ensures listed { IsListed stream candidates.new live.now }
    ensures spared { result ≡ listing.Spared → SparesStream stream live.now }
    ensures known { result ≢ listing.Unlisted }
{
    if live.len() == 0 {
        // The room for 64 boxes is not made.
        candidates.rebuild(&[]);
        return Listing::Spared;
    }
    let mut boxes = ArrayVec::new();
    put_boxes(&mut boxes, live, stream);
    candidates.rebuild(boxes.as_slice());
    if are_none(boxes.as_slice()) {
        Listing::Spared
    } else {
        Listing::Listed
    }
}

impl Concerned {
    /// Returns the candidates of no live query, with room for those of 64.
    #[tactic(auto, using(crate::proofs::Sparing::told_none))]
    pub fn new(alloc: Global) -> Result<Concerned, AllocError>
        ensures { IfOk result (λ c. (live : List Live) → IsTold c live) }
    {
        let mut streams = Vec::with_capacity(alloc, STREAMS)?;
        'streams: while streams.len() < STREAMS {
            streams.push(Candidates::new(alloc)?)?;
        }
        Ok(Concerned {
            streams,
            listings: [Listing::Unlisted; 256],
        })
    }

    /// Leaves the candidates to be listed anew before they are asked for.
    #[tactic(auto, using(crate::proofs::Sparing::told_none))]
    pub fn forget(&mut self)
        requires { length self.old.streams.items ≤ 16 }
        ensures { (live : List Live) → IsTold self.new live }
    {
        self.listings = [Listing::Unlisted; 256];
    }

    // Lists the candidates of a stream anew where there may be such a stream, and tells whether it did. It is not inlined, so that a row of a
    // stream of which they are listed pays nothing for it.
    #[cold]
    #[inline(never)]
    fn list_anew(&mut self, stream: u8, live: &Queries) -> bool
        requires few { length live.now ≤ 64 }
        requires told { IsTold self.old live.now }
        ensures told { IsTold self.new live.now }
        ensures listed { IsTrue result → slice_index_or self.new.listings stream listing.Unlisted ≢ listing.Unlisted }
        ensures other { IsFalse result → length self.old.streams.items ≤ stream }
    {
        let number = usize::from(stream);
        if number >= self.streams.len() {
            return false;
        }
        self.listings[number] = list_stream(&mut self.streams[number], live, stream);
        true
    }

    /// Returns the candidates for a row of a stream, which are listed first where live queries came or went.
    #[inline(always)]
    pub fn of(&mut self, stream: u8, row: &Row, live: &Queries) -> Concerns
        requires few { length live.now ≤ 64 }
        requires told { IsTold self.old live.now }
        ensures told { IsTold self.new live.now }
        ensures may { MayConcern result.word (arrival stream row.now.items) live.now }
    {
        let number = usize::from(stream);
        let is_listed = match self.listings[number] {
            Listing::Unlisted => self.list_anew(stream, live),
            Listing::Listed | Listing::Spared => true,
        };
        if !is_listed {
            // There can be no such stream.
            let word = all_of(live.len());
            return Concerns { word, within: 0 };
        }
        self.streams[number].of(row.as_slice())
    }
}
