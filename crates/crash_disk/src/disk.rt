//! A disk that a caller lends.

ghost use Rattle.std.specs.Prelude.{◌≡◌, ◌+◌, ◌<◌, ◌≤◌, ◌↔◌, List, ℕ, Option, length, IfOk, IfSome, IsSome, OnOk, slice_range};
ghost use Rattle.enc_outside.specs.Count.{Counts};
ghost use Rattle.enc_outside.specs.Files.{Told};
ghost use Rattle.crash_disk.specs.Disk.{Elapses, Follows, Holds, NoMore, Only, SameImages, Torn};

/// A call of a disk failed.
#[derive(Clone, Copy, Debug, PartialEq, Eq)]
pub struct DiskFailed;

/// A disk with one file. Between two syncs a crash may leave any bytes in the ranges that were written, whatever order they were
/// written in, and a length between the old and the new one. A disk may tell its bytes to contracts or not.
pub trait Disk {
    /// The bytes that a read gives, where the disk tells them.
    ghost content: { Self → Option (List ℕ) };

    /// What a crash at this moment may leave.
    ghost images: { Self → List ℕ → Type 0 };

    /// The moment, as a number that doesn't fall.
    ghost moment: { Self → ℕ };

    /// What a crash at some moment from that one on may have left, within a call or between two.
    ghost left_since: { Self → ℕ → List ℕ → Type 0 };

    /// How often a call failed.
    ghost faults: { Self → ℕ };

    /// How many bytes there are.
    fn length(&mut self) -> Result<u64, DiskFailed>
        ensures length { IfOk result (λ n. IfSome (content self.old) (λ bytes. n ≡ length bytes)) }
        ensures same { content self.new ≡ content self.old }
        ensures images { SameImages (images self.old) (images self.new) }
        ensures time { Elapses (moment self.old) (moment self.new) (left_since self.old) (left_since self.new) (images self.new) }
        ensures faults { Counts (faults self.old) (faults self.new) result };

    /// Reads the bytes from a place on, from 0, as many as the buffer takes. After an `Err` the buffer may have changed.
    fn read_at(&mut self, at: u64, into: &mut [u8]) -> Result<(), DiskFailed>
        requires { IfSome (content self.old) (λ bytes. at + length into.old ≤ length bytes) }
        ensures filled { OnOk result (IfSome (content self.old) (λ bytes. into.new ≡ slice_range bytes at (at + length into.old))) }
        ensures same { content self.new ≡ content self.old }
        ensures images { SameImages (images self.old) (images self.new) }
        ensures time { Elapses (moment self.old) (moment self.new) (left_since self.old) (left_since self.new) (images self.new) }
        ensures faults { Counts (faults self.old) (faults self.new) result };

    /// Writes bytes from a place on, from 0, over what is there and past the end. After an `Err` any bytes may stand in the range.
    fn write_at(&mut self, at: u64, bytes: &[u8]) -> Result<(), DiskFailed>
        requires some { 0 < length bytes.now }
        requires within { IfSome (content self.old) (λ there. at ≤ length there) }
        ensures written { OnOk result (Told (Holds at bytes.now) (content self.old) (content self.new)) }
        ensures others { Told (Torn at (length bytes.now)) (content self.old) (content self.new) }
        ensures told { IsSome (content self.new) ↔ IsSome (content self.old) }
        ensures crash { Follows (Torn at (length bytes.now)) (images self.old) (images self.new) }
        ensures time { Elapses (moment self.old) (moment self.new) (left_since self.old) (left_since self.new) (images self.new) }
        ensures faults { Counts (faults self.old) (faults self.new) result };

    /// Has all that was written last: after an `Ok` a crash leaves the bytes that a read gives, and nothing else.
    fn sync(&mut self) -> Result<(), DiskFailed>
        ensures durable { OnOk result (IfSome (content self.old) (λ bytes. Only bytes (images self.new))) }
        ensures same { content self.new ≡ content self.old }
        ensures crash { NoMore (images self.old) (images self.new) }
        ensures time { Elapses (moment self.old) (moment self.new) (left_since self.old) (left_since self.new) (images self.new) }
        ensures faults { Counts (faults self.old) (faults self.new) result };

    /// What a read gives is an image.
    ghost reads_an_image: { (disk : Self) → IfSome (content disk) (λ bytes. images disk bytes) };

    /// This moment is one of those since an earlier one.
    ghost counts_now: { (disk : Self) (t : ℕ) (image : List ℕ) → t ≤ moment disk → images disk image → left_since disk t image };

    /// Since this moment there is no other.
    ghost only_now: { (disk : Self) (image : List ℕ) → left_since disk (moment disk) image → images disk image };
}
