//! An output sink in memory.

ghost use Rattle.std.specs.Prelude.{◌≡◌, ◌+◌, ◌<◌, ◌++◌, [], Some, length, take, OnErr};

use crate::calls::Calls;
use crate::shelf::Failed;
use crate::sink::Sink;
use std::alloc::Global;

/// An output sink that keeps what was written, and fails one call.
#[derive(Drop)]
pub struct MemSink {
    bytes: Vec<u8>,
    calls: Calls,
    faults: u64,
}

impl MemSink {
    ghost use Rattle.std.specs.Prelude.{◌≡◌, []};
    ghost use Rattle.enc_outside.specs.Calls.{next_of};
    ghost use Rattle.enc_outside.specs.MemSink.{sink_bytes, failed_puts};

    /// A sink to which nothing was written, and of which no call fails.
    pub fn make(alloc: Global) -> MemSink
        ensures bytes { sink_bytes result ≡ [] }
        ensures calls { next_of result.calls ≡ 1 }
        ensures failing { result.calls.failing ≡ 0 }
        ensures faults { failed_puts result ≡ 0 }
    {
        MemSink {
            bytes: Vec::new(alloc),
            calls: Calls {
                done: 0,
                failing: 0,
            },
            faults: 0,
        }
    }

    /// Has one call fail, by its number from 1 over all calls as a sink; 0 fails none.
    pub fn fail_at(&mut self, call: u64)
        ensures bytes { sink_bytes self.new ≡ sink_bytes self.old }
        ensures calls { next_of self.new.calls ≡ next_of self.old.calls }
        ensures failing { self.new.calls.failing ≡ call }
        ensures faults { failed_puts self.new ≡ failed_puts self.old }
    {
        self.calls.failing = call;
    }

    /// The bytes that were written.
    pub fn bytes(&self) -> &[u8]
        ensures { result.now ≡ sink_bytes self.now }
    {
        &self.bytes
    }
}

impl Sink for MemSink {
    ghost use Rattle.std.specs.Prelude.{◌≡◌, ◌<◌, ◌++◌, Some, length, take, IfOk, OnErr, IsErr};
    ghost use Rattle.enc_outside.specs.Count.{Counts};
    ghost use Rattle.enc_outside.specs.Sink.{Took};
    ghost use Rattle.enc_outside.specs.Calls.{IsFailing, IsNext};
    ghost use Rattle.enc_outside.specs.MemSink.{sink_bytes};

    ghost written = { λ s. Some (sink_bytes s) };

    ghost faults = { λ s. s.faults };

    /// It fails at the call that was set, and where memory was refused.
    fn put(&mut self, bytes: &[u8]) -> Result<usize, Failed>
        requires { 0 < length bytes.now }
        ensures took { IfOk result (Took bytes.now) }
        ensures ok { IfOk result (λ n. sink_bytes self.new ≡ sink_bytes self.old ++ take n bytes.now) }
        ensures err { OnErr result (sink_bytes self.new ≡ sink_bytes self.old) }
        ensures faults { Counts self.old.faults self.new.faults result }
        ensures set { IsFailing self.old.calls → IsErr result }
        ensures next { IsNext self.old.calls self.new.calls }
    {
        if !self.calls.count() && self.bytes.extend_from_slice(bytes).is_ok() {
            return Ok(bytes.len());
        }
        self.faults = self.faults.saturating_add(1);
        Err(Failed)
    }
}
