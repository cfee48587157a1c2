//! Reading the bytes of a disk, and making an empty list on it.

ghost use Rattle.std.specs.Prelude.{◌≡◌, ◌≤◌, ◌∷◌, [], IfErr, IfOk, IfSome, IsSome, OnOk, Some, length};
ghost use Rattle.enc_outside.specs.Count.{Counts};
ghost use Rattle.crash_disk.specs.Disk.{LeavesOnly, Only};
ghost use Rattle.book_journal.specs.Writing.{IsReadRefusal};

use crate::refusal::OpenRefusal;
use crash_disk::{Disk, DiskFailed};
use std::alloc::Global;

/// All bytes of a disk, which are kept then: what was written to it and not synced is synced first. No byte changes.
pub(crate) fn read_disk<D: Disk>(alloc: Global, disk: &mut D) -> Result<Vec<u8>, OpenRefusal>
    ensures bytes { IfOk result (λ bytes. IfSome (D.content disk.old) (λ file. bytes.items ≡ file)) }
    ensures same { D.content disk.new ≡ D.content disk.old }
    ensures kept { OnOk result (IfSome (D.content disk.old) (λ file. Only file (D.images disk.new))) }
    ensures moments { LeavesOnly D.moment D.left_since disk.old disk.new (D.images disk.old) }
    ensures err { IfErr result (IsReadRefusal (D.faults disk.old) (D.faults disk.new)) }
    ensures counted { OnOk result (D.faults disk.new ≡ D.faults disk.old) }
    ensures no_fall { D.faults disk.old ≤ D.faults disk.new }
{
    disk.sync()?;
    let length = disk.length()?;
    let mut bytes = vec![in alloc; 0u8; length as usize]?;
    disk.read_at(0, &mut bytes)?;
    Ok(bytes)
}

/// Makes a file of at most one byte an empty list.
pub(crate) fn begin_list<D: Disk>(disk: &mut D) -> Result<(), DiskFailed>
    requires { IfSome (D.content disk.old) (λ file. (length file ≤ 1) × Only file (D.images disk.old)) }
    ensures content { OnOk result (IfSome (D.content disk.old) (λ _. D.content disk.new ≡ Some (0 ∷ []))) }
    ensures told { IsSome (D.content disk.new) → IsSome (D.content disk.old) }
    ensures stays_told { IsSome (D.content disk.old) → IsSome (D.content disk.new) }
    ensures kept { OnOk result (IfSome (D.content disk.old) (λ _. Only (0 ∷ []) (D.images disk.new))) }
    ensures moments { IfSome (D.content disk.old) (λ _. LeavesOnly D.moment D.left_since disk.old disk.new (λ image. length image ≤ 1)) }
    ensures faults { Counts (D.faults disk.old) (D.faults disk.new) result }
{
    disk.write_at(0, &[0])?;
    disk.sync()
}
