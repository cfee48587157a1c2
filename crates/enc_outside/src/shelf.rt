//! A file store that a caller lends.

ghost use Rattle.std.specs.Prelude.{◌≡◌, ◌<◌, ℕ, Option, [], length, take, IfSome, IfOk, OnOk, OnErr, IsSome};
ghost use Rattle.enc_outside.specs.Count.{Counts};
ghost use Rattle.enc_outside.specs.Files.{Files, Writes, AppendsTo, MayEmpty, SameFiles, Told, StaysUntold};
ghost use Rattle.enc_outside.specs.Shelf.{TellsFile, FitsGot};
ghost use Rattle.enc_outside.specs.Sink.{Took};

/// What a read got.
#[derive(Clone, Copy, Debug, PartialEq, Eq)]
pub enum Got {
    /// So many bytes.
    Bytes(usize),
    /// None, at the end of the file or past it.
    End,
    /// None, since no file has the name.
    Absent,
}

/// A device error: a call of the outside failed.
#[derive(Clone, Copy, Debug, PartialEq, Eq)]
pub struct Failed;

/// A file store: files by their names. A store may tell its files to contracts or not.
pub trait Shelf {
    /// The files, where the store tells them.
    ghost files: { Self → Option Files };

    /// How often a read failed.
    ghost read_faults: { Self → ℕ };

    /// How often a write failed.
    ghost write_faults: { Self → ℕ };

    /// Reads bytes of a file from a place on, from 0, into a buffer that isn't empty. It changes no file.
    ///
    /// After any answer but `Bytes` the buffer may have changed.
    fn read_at(&mut self, name: &str, at: u64, into: &mut [u8]) -> Result<Got, Failed>
        requires { 0 < length into.old }
        ensures told { IfOk result (λ got. IfSome (files self.old) (λ files. TellsFile (files name.now) at into.new got)) }
        ensures fits { IfOk result (FitsGot into.new) }
        ensures files { files self.new ≡ files self.old }
        ensures read_faults { Counts (read_faults self.old) (read_faults self.new) result }
        ensures write_faults { write_faults self.new ≡ write_faults self.old };

    /// Makes a file empty, whether it was there or not. After an `Err` it may be empty or as it was.
    fn make(&mut self, name: &str) -> Result<(), Failed>
        ensures ok { OnOk result (Told (Writes name.now []) (files self.old) (files self.new)) }
        ensures err { OnErr result (Told (MayEmpty name.now) (files self.old) (files self.new)) }
        ensures untold { StaysUntold (files self.old) (files self.new) }
        ensures read_faults { read_faults self.new ≡ read_faults self.old }
        ensures write_faults { Counts (write_faults self.old) (write_faults self.new) result };

    /// Appends some of the bytes to the end of a file, and answers how many. After an `Err` no file changed.
    fn append(&mut self, name: &str, bytes: &[u8]) -> Result<usize, Failed>
        requires some { 0 < length bytes.now }
        requires there { IfSome (files self.old) (λ files. IsSome (files name.now)) }
        ensures took { IfOk result (Took bytes.now) }
        ensures ok { IfOk result (λ n. Told (AppendsTo name.now (take n bytes.now)) (files self.old) (files self.new)) }
        ensures err { OnErr result (Told SameFiles (files self.old) (files self.new)) }
        ensures untold { StaysUntold (files self.old) (files self.new) }
        ensures read_faults { read_faults self.new ≡ read_faults self.old }
        ensures write_faults { Counts (write_faults self.old) (write_faults self.new) result };
}
