//! A vector as a sink.
ghost use Rattle.std.specs.Prelude.{◌≡◌, ◌<◌, ℕ, List, [], IfOk, length};
ghost use Rattle.io_streams.specs.Sink.{WritesSome};
ghost use Rattle.io_streams.specs.Memory.{MemSinkState, mem_sink_seen, MemWrites};

use super::{is_listed, one_more};
use crate::sink::{Sink, WriteAnswer};
use std::alloc::{AllocError, Global};
use std::marker::Model;

/// A vector of what was written, at most `most` bytes at a time. The calls whose numbers are listed fail; they are counted
/// from 1. A growth that finds no memory is a fault too.
#[derive(Drop)]
pub struct MemSink {
    bytes: Vec<u8>,
    most: usize,
    fails: Vec<u64>,
    calls: u64,
    failed: u64,
    lacked: u64,
}

impl Model for MemSink {
    ghost use Rattle.std.specs.Prelude.{◌<◌};
    ghost use Rattle.io_streams.specs.Memory.{MemSinkState};

    ghost Value = { MemSinkState };

    ghost view = { λ s. record { bytes = s.bytes.items; most = s.most; fails = s.fails.items; calls = s.calls; failed = s.failed; lacked = s.lacked } };

    ghost invariant = { λ s. 0 < s.most };
}

impl MemSink {
    /// Returns a sink with nothing written, of which no call was made.
    pub fn new(alloc: Global, most: usize, fails: &[u64]) -> Result<MemSink, AllocError>
        requires { 0 < most }
        ensures { IfOk result (λ s. s ≡ record { bytes = []; most = most; fails = fails.now; calls = 0; failed = 0; lacked = 0 }) }
    {
        Ok(MemSink {
            bytes: Vec::new(alloc),
            most,
            fails: Vec::from_slice(alloc, fails)?,
            calls: 0,
            failed: 0,
            lacked: 0,
        })
    }

    /// Returns the bytes written.
    pub fn bytes(&self) -> &[u8]
        ensures { result.now ≡ self.now.bytes }
    {
        &self.bytes
    }
}

impl Sink for MemSink {
    ghost seen = { mem_sink_seen };

    fn write(&mut self, piece: &[u8]) -> WriteAnswer
        requires { 0 < length piece.now }
        ensures some { WritesSome result piece.now (mem_sink_seen self.old) (mem_sink_seen self.new) }
        ensures exact { MemWrites result piece.now self.old self.new }
    {
        self.calls = one_more(self.calls);
        if is_listed(self.calls, &self.fails) {
            self.failed = one_more(self.failed);
            return WriteAnswer::Failed;
        }
        let n = piece.len().min(self.most);
        match self.bytes.extend_from_slice(&piece[..n]) {
            Ok(()) => WriteAnswer::Took(n),
            Err(_) => {
                self.failed = one_more(self.failed);
                self.lacked = one_more(self.lacked);
                WriteAnswer::Failed
            }
        }
    }
}
