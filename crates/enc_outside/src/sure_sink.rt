//! An output sink in memory of which no call fails.

ghost use Rattle.std.specs.Prelude.{◌≡◌, [], Some};
ghost use Rattle.enc_outside.specs.SureSink.{held_bytes, told_bytes};

use crate::shelf::Failed;
use crate::sink::Sink;
use std::alloc::Global;

/// An output sink that keeps what was written, and of which no call fails. It tells its bytes to contracts until memory
/// was refused, and nothing from then on.
#[derive(Drop)]
pub struct SureSink {
    bytes: Vec<u8>,
    told: bool,
}

impl SureSink {
    /// A sink to which nothing was written.
    pub fn make(alloc: Global) -> SureSink
        ensures { told_bytes result ≡ Some [] }
    {
        SureSink {
            bytes: Vec::new(alloc),
            told: true,
        }
    }

    /// The bytes that were written.
    pub fn bytes(&self) -> &[u8]
        ensures { result.now ≡ held_bytes self.now }
    {
        &self.bytes
    }
}

impl Sink for SureSink {
    ghost use Rattle.std.specs.Prelude.{◌≡◌, ◌<◌, ◌++◌, IfOk, IsOk, OnErr, length, take};
    ghost use Rattle.enc_outside.specs.Count.{Counts};
    ghost use Rattle.enc_outside.specs.Files.{StaysUntold, Told};
    ghost use Rattle.enc_outside.specs.Sink.{Took};
    ghost use Rattle.enc_outside.specs.SureSink.{told_bytes};

    ghost written = { told_bytes };

    ghost faults = { λ _. 0 };

    fn put(&mut self, bytes: &[u8]) -> Result<usize, Failed>
        requires { 0 < length bytes.now }
        ensures sure { IsOk result }
        ensures took { IfOk result (Took bytes.now) }
        ensures ok { IfOk result (λ n. Told (λ old new. new ≡ old ++ take n bytes.now) (told_bytes self.old) (told_bytes self.new)) }
        ensures err { OnErr result (Told (λ old new. new ≡ old) (told_bytes self.old) (told_bytes self.new)) }
        ensures untold { StaysUntold (told_bytes self.old) (told_bytes self.new) }
        ensures faults { Counts 0 0 result }
    {
        let kept = self.bytes.extend_from_slice(bytes);
        self.told = self.told && kept.is_ok();
        Ok(bytes.len())
    }
}
