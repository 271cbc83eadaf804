//! Bytes at the end of a buffer.

ghost use Rattle.std.specs.Prelude.{◌≡◌, ◌++◌, OnOk};

use crate::no_memory::NoMemory;

/// Appends the bytes. The only error is want of memory.
pub fn push_bytes(out: &mut Vec<u8>, text: &[u8]) -> Result<(), NoMemory>
    ensures { OnOk result (out.new.items ≡ out.old.items ++ text.now) }
{
    Ok(out.extend_from_slice(text)?)
}
