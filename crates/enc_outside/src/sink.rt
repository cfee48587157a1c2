//! An output sink that a caller lends.

ghost use Rattle.std.specs.Prelude.{◌≡◌, ◌<◌, ◌++◌, List, ℕ, Option, length, take, IfOk, OnErr};
ghost use Rattle.enc_outside.specs.Count.{Counts};
ghost use Rattle.enc_outside.specs.Files.{Told, StaysUntold};
ghost use Rattle.enc_outside.specs.Sink.{Took};

use crate::shelf::Failed;

/// An output sink. It may tell contracts what was written or not.
pub trait Sink {
    /// The bytes that were written, where the sink tells them.
    ghost written: { Self → Option (List ℕ) };

    /// How often a call failed.
    ghost faults: { Self → ℕ };

    /// Writes some of the bytes, and answers how many. After an `Err` nothing was written.
    fn put(&mut self, bytes: &[u8]) -> Result<usize, Failed>
        requires { 0 < length bytes.now }
        ensures took { IfOk result (Took bytes.now) }
        ensures ok { IfOk result (λ n. Told (λ old new. new ≡ old ++ take n bytes.now) (written self.old) (written self.new)) }
        ensures err { OnErr result (Told (λ old new. new ≡ old) (written self.old) (written self.new)) }
        ensures untold { StaysUntold (written self.old) (written self.new) }
        ensures faults { Counts (faults self.old) (faults self.new) result };
}
