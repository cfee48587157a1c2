//! The bytes of an input file of a call.

ghost use Rattle.std.specs.Prelude.{◌≡◌, ◌≤◌, ◌<◌, ◌^◌, IfErr, IfOk, length};
ghost use Rattle.call_files.specs.Inputs.{FileIs, IsFile, IsInputStatus, IsNotOfOrder, IsNotOfText, Tells, TellsReads};
ghost use Rattle.call_files.specs.Refused.{IsRefusal};

use enc_outside::Shelf;
use report_text::Status;
use s57_types::Text;
use std::alloc::Global;
use whole_files::{InputRefusal, read_file};

/// The status of a refused input.
fn refused(alloc: Global, name: &str, refusal: InputRefusal) -> Status
    ensures { IsRefusal name.now refusal result }
{
    let Ok(name) = Vec::from_slice(alloc, name.as_bytes()) else {
        return Status::NoMemory;
    };
    let name = Text::of_vec(name);
    match refusal {
        InputRefusal::Absent => Status::Absent(name),
        InputRefusal::ReadFault => Status::ReadFault(name),
        InputRefusal::TooLarge => Status::TooLarge(name),
        InputRefusal::NoMemory => Status::NoMemory,
    }
}

/// The bytes of an input file.
pub(crate) fn read_input<H: Shelf>(
    alloc: Global,
    shelf: &mut H,
    name: &str,
    limit: usize,
) -> Result<Vec<u8>, Status>
    requires { limit < 2 ^ 32 }
    ensures tells { Tells (λ bytes. bytes.items) (FileIs limit name.now) (IsFile name.now)
        (H.files shelf.old) (H.read_faults shelf.old) (H.read_faults shelf.new) result }
    ensures status { IfErr result (IsInputStatus (λ n. n ≡ name.now)) }
    ensures kind { IfErr result IsNotOfOrder }
    ensures text { IfErr result IsNotOfText }
    ensures within { IfOk result (λ bytes. length bytes.items ≤ limit) }
    ensures files { H.files shelf.new ≡ H.files shelf.old }
    ensures read_faults { H.read_faults shelf.old ≤ H.read_faults shelf.new }
    ensures told_reads { TellsReads (H.read_faults shelf.old) (H.read_faults shelf.new) result }
    ensures write_faults { H.write_faults shelf.new ≡ H.write_faults shelf.old }
{
    match read_file(alloc, shelf, name, limit) {
        Ok(bytes) => Ok(bytes),
        Err(refusal) => Err(refused(alloc, name, refusal)),
    }
}
