//! Memory for the bytes of fields, used again from record to record.

ghost use Rattle.std.specs.Prelude.{◌≡◌, ◌+◌, [], OnOk, vec_len};

use frame_write::OutField;
use std::alloc::{AllocError, Global};

/// No bytes, in the memory of others that nobody needs, if there are any.
pub fn empty_bytes(alloc: Global, spare: &mut Vec<Vec<u8>>) -> Vec<u8>
    ensures { result.items ≡ [] }
{
    let Some(mut bytes) = spare.pop() else {
        return Vec::new(alloc);
    };
    bytes.clear();
    bytes
}

/// Keeps the bytes of fields that are written, for their memory.
pub fn keep_memory(mut fields: Vec<OutField>, spare: &mut Vec<Vec<u8>>) -> Result<(), AllocError>
    ensures { OnOk result (vec_len spare.new ≡ vec_len spare.old + vec_len fields) }
{
    while let Some(OutField { tag: _, bytes }) = fields.pop() {
        spare.push(bytes)?;
    }
    Ok(())
}
