//! Reading a file whole.

ghost use Rattle.std.specs.Prelude.{◌≡◌, ◌≤◌, ◌<◌, ◌^◌, Some, length, IfOk, IfErr, IfSome, OnOk};
ghost use Rattle.whole_files.specs.Input.{CountsReads, IsInputCause};

use enc_outside::{Got, Shelf};
use std::alloc::Global;

/// How many bytes a read asks for at most: a store may open the file for each read.
const CHUNK: usize = 65_536;

/// Why a file was not read.
#[derive(Clone, Copy, Debug, PartialEq, Eq)]
pub enum InputRefusal {
    /// No file has the name.
    Absent,
    /// A read failed.
    ReadFault,
    /// The file has more bytes than its limit.
    TooLarge,
    /// Out of memory.
    NoMemory,
}

/// The bytes of a file of at most so many bytes. It reads from the start until the end, or until one byte more than
/// the limit was taken. An `Err` says that no file has the name, that a read failed, that the file has more bytes, or means out of memory.
pub fn read_file<H: Shelf>(
    alloc: Global,
    shelf: &mut H,
    name: &str,
    limit: usize,
) -> Result<Vec<u8>, InputRefusal>
    requires { limit < 2 ^ 32 }
    ensures ok { IfOk result (λ bytes. IfSome (H.files shelf.old) (λ files. files name.now ≡ Some bytes.items)) }
    ensures within { IfOk result (λ bytes. length bytes.items ≤ limit) }
    ensures told { IfErr result (λ e. IfSome (H.files shelf.old) (λ files.
        IsInputCause limit (files name.now) (H.read_faults shelf.old) (H.read_faults shelf.new) e)) }
    ensures counted { IfErr result (CountsReads (H.read_faults shelf.old) (H.read_faults shelf.new)) }
    ensures files { H.files shelf.new ≡ H.files shelf.old }
    ensures read_faults { H.read_faults shelf.old ≤ H.read_faults shelf.new }
    ensures kept { OnOk result (H.read_faults shelf.new ≡ H.read_faults shelf.old) }
    ensures write_faults { H.write_faults shelf.new ≡ H.write_faults shelf.old }
{
    let mut bytes = Vec::new(alloc);
    let mut chunk = [0u8; CHUNK];
    while bytes.len() <= limit {
        match shelf.read_at(name, bytes.len() as u64, &mut chunk) {
            Ok(Got::Bytes(n)) => {
                if bytes.extend_from_slice(&chunk[..n]).is_err() {
                    return Err(InputRefusal::NoMemory);
                }
            }
            Ok(Got::End) => return Ok(bytes),
            Ok(Got::Absent) => return Err(InputRefusal::Absent),
            Err(_) => return Err(InputRefusal::ReadFault),
        }
    }
    Err(InputRefusal::TooLarge)
}
