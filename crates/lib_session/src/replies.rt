//! Replies in memory.
ghost use Rattle.std.specs.Prelude.{◌≡◌};
ghost use Rattle.io_streams.specs.Counts.{one_more};

use io_streams::{Sink, WriteAnswer};

/// The replies that were not cleared, and how often no memory was found for one.
#[derive(Drop)]
pub struct Replies {
    pub bytes: Vec<u8>,
    pub faults: u64,
}

// One more, up to the end of 64 bits.
fn one_more(count: u64) -> u64
    ensures { result ≡ one_more count }
{
    count.saturating_add(1)
}

impl Sink for Replies {
    ghost use Rattle.lib_session.specs.Seen.{replies_seen};

    ghost seen = { replies_seen };

    fn write(&mut self, piece: &[u8]) -> WriteAnswer {
        match self.bytes.extend_from_slice(piece) {
            Ok(()) => WriteAnswer::Took(piece.len()),
            Err(_) => {
                self.faults = one_more(self.faults);
                WriteAnswer::Failed
            }
        }
    }
}
