//! Writing a text and a file whole.

ghost use Rattle.std.specs.Prelude.{[], ◌≡◌, ◌≤◌, IfSome, OnOk, OnErr, string_bytes, Some};
ghost use Rattle.enc_outside.specs.Count.{Rose};
ghost use Rattle.enc_outside.specs.Files.{Told, StaysUntold, Writes};
ghost use Rattle.call_files.specs.Output.{HasFront, IsBegun, OnlyWrites};
ghost use Rattle.call_files.specs.Outside.{IsDoneWork, outside};
ghost use Rattle.call_files.specs.Task.{task_of};

use crate::work::{Export, Work};
use enc_outside::{Failed, Shelf, Sink};
use report_text::Status;
use whole_files::put_all;

/// Appends all bytes to a file that is empty, in as many writes as it takes.
fn append_all<H: Shelf>(shelf: &mut H, name: &str, bytes: &[u8]) -> Result<(), Failed>
    requires there { IfSome (H.files shelf.old) (λ files. files name.now ≡ Some []) }
    ensures ok { OnOk result (Told (Writes name.now bytes.now) (H.files shelf.old) (H.files shelf.new)) }
    ensures err { OnErr result (Told (HasFront name.now bytes.now) (H.files shelf.old) (H.files shelf.new)) }
    ensures cause { OnErr result (Rose (H.write_faults shelf.old) (H.write_faults shelf.new)) }
    ensures kept { OnOk result (H.write_faults shelf.new ≡ H.write_faults shelf.old) }
    ensures writes { OnlyWrites (H.files shelf.old) (H.files shelf.new)
        (H.read_faults shelf.old) (H.read_faults shelf.new) (H.write_faults shelf.old) (H.write_faults shelf.new) }
{
    let mut done = 0;
    while done < bytes.len() {
        done += shelf.append(name, &bytes[done..])?;
    }
    Ok(())
}

/// Makes a file with these bytes, in place of one of the same name.
fn write_file<H: Shelf>(shelf: &mut H, name: &str, bytes: &[u8]) -> Result<(), Failed>
    ensures ok { OnOk result (Told (Writes name.now bytes.now) (H.files shelf.old) (H.files shelf.new)) }
    ensures err { OnErr result (Told (IsBegun name.now bytes.now) (H.files shelf.old) (H.files shelf.new)) }
    ensures cause { OnErr result (Rose (H.write_faults shelf.old) (H.write_faults shelf.new)) }
    ensures kept { OnOk result (H.write_faults shelf.new ≡ H.write_faults shelf.old) }
    ensures writes { OnlyWrites (H.files shelf.old) (H.files shelf.new)
        (H.read_faults shelf.old) (H.read_faults shelf.new) (H.write_faults shelf.old) (H.write_faults shelf.new) }
{
    shelf.make(name)?;
    append_all(shelf, name, bytes)
}

/// Writes the file that is left to write.
fn export_file<H: Shelf>(shelf: &mut H, export: &Export) -> Result<(), Failed>
    ensures ok { OnOk result (Told (Writes (string_bytes export.now.name) export.now.bytes.items) (H.files shelf.old) (H.files shelf.new)) }
    ensures err { OnErr result (Told (IsBegun (string_bytes export.now.name) export.now.bytes.items) (H.files shelf.old) (H.files shelf.new)) }
    ensures cause { OnErr result (Rose (H.write_faults shelf.old) (H.write_faults shelf.new)) }
    ensures kept { OnOk result (H.write_faults shelf.new ≡ H.write_faults shelf.old) }
    ensures writes { OnlyWrites (H.files shelf.old) (H.files shelf.new)
        (H.read_faults shelf.old) (H.read_faults shelf.new) (H.write_faults shelf.old) (H.write_faults shelf.new) }
{
    write_file(shelf, export.name.as_str(), &export.bytes)
}

/// Does the work that a call has come to: the text is put, and only then the file is made.
pub fn finish<H: Shelf, O: Sink>(shelf: &mut H, out: &mut O, work: &Work) -> Status
    ensures done { IsDoneWork (task_of work.now)
        (outside (H.files shelf.old) (H.read_faults shelf.old) (H.write_faults shelf.old) (O.written out.old) (O.faults out.old))
        (outside (H.files shelf.new) (H.read_faults shelf.new) (H.write_faults shelf.new) (O.written out.new) (O.faults out.new)) result }
    ensures untold { StaysUntold (H.files shelf.old) (H.files shelf.new) }
    ensures untold_put { StaysUntold (O.written out.old) (O.written out.new) }
    ensures write_faults { H.write_faults shelf.old ≤ H.write_faults shelf.new }
    ensures read_faults { H.read_faults shelf.new ≡ H.read_faults shelf.old }
    ensures put_faults { O.faults out.old ≤ O.faults out.new }
{
    if put_all(out, &work.text).is_err() {
        return Status::WriteFault;
    }
    let Some(export) = &work.export else {
        return Status::Done;
    };
    match export_file(shelf, export) {
        Ok(()) => Status::Done,
        Err(_) => Status::WriteFault,
    }
}
