//! How far a feed is.
ghost use Rattle.std.specs.Prelude.{◌≡◌, replicate, IfOk};
ghost use Rattle.cmd_feeds.specs.Lanes.{is_open, is_failed};
ghost use Rattle.cmd_feeds.specs.Visited.{new_lane};

use io_line_reader::LineReader;
use std::alloc::{AllocError, Global};

/// How far a feed is.
#[derive(Clone, Copy, Debug, PartialEq, Eq)]
pub enum Stage {
    /// It gives a line in its next turn, or ends there.
    Open,
    /// It has given all its lines.
    Ended,
    /// Its source has failed, and its fault was written.
    Failed,
}

/// The reader of a feed, and how far the feed is.
#[derive(Drop)]
pub struct Lane {
    pub reader: LineReader,
    pub stage: Stage,
}

impl Stage {
    /// Returns whether the feed has not ended.
    pub fn is_open(self) -> bool
        ensures { result ≡ is_open self }
    {
        match self {
            Stage::Open => true,
            Stage::Ended => false,
            Stage::Failed => false,
        }
    }

    /// Returns whether the feed has ended by a fault.
    pub fn is_failed(self) -> bool
        ensures { result ≡ is_failed self }
    {
        match self {
            Stage::Open => false,
            Stage::Ended => false,
            Stage::Failed => true,
        }
    }
}

/// Returns lanes of so many feeds, of which nothing was taken.
pub fn open_lanes(alloc: Global, count: usize) -> Result<Vec<Lane>, AllocError>
    ensures { IfOk result (λ lanes. lanes.items ≡ replicate count new_lane) }
{
    let mut lanes = Vec::new(alloc);
    for _ in 0..count {
        let lane = Lane {
            reader: LineReader::new(alloc)?,
            stage: Stage::Open,
        };
        if lanes.push(lane).is_err() {
            return Err(AllocError);
        }
    }
    Ok(lanes)
}
