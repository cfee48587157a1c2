//! Adding an entry to the list on a disk.

ghost use Rattle.std.specs.Prelude.{◌≡◌, ◌+◌, ◌<◌, ◌^◌, IfSome, IsSome, OnOk, Some, length};
ghost use Rattle.enc_outside.specs.Count.{Counts};
ghost use Rattle.crash_disk.specs.Disk.{LeavesOnly, Only};
ghost use Rattle.book_journal.specs.Writing.{IsTornEntry, with_entry};

use crate::entry::MARK;
use crash_disk::{Disk, DiskFailed};

/// Adds an entry to a list that ends at a place, in two steps: what stands behind the mark is kept before the mark is written.
pub(crate) fn add_entry<D: Disk>(disk: &mut D, end: u64, part: &[u8]) -> Result<(), DiskFailed>
    requires some { 0 < length part.now }
    requires room { end + 1 < 2 ^ 64 }
    requires standing { IfSome (D.content disk.old) (λ file. (end < length file) × Only file (D.images disk.old)) }
    ensures content { OnOk result (IfSome (D.content disk.old) (λ file. D.content disk.new ≡ Some (with_entry file end part.now))) }
    ensures told { IsSome (D.content disk.new) → IsSome (D.content disk.old) }
    ensures stays_told { IsSome (D.content disk.old) → IsSome (D.content disk.new) }
    ensures kept { OnOk result (IfSome (D.content disk.old) (λ file. Only (with_entry file end part.now) (D.images disk.new))) }
    ensures moments { IfSome (D.content disk.old) (λ file. LeavesOnly D.moment D.left_since disk.old disk.new (IsTornEntry file end part.now)) }
    ensures faults { Counts (D.faults disk.old) (D.faults disk.new) result }
{
    disk.write_at(end + 1, part)?;
    disk.sync()?;
    disk.write_at(end, &[MARK])?;
    disk.sync()
}
