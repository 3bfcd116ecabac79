//! Bytes and numbers at the end of a list.

ghost use Rattle.std.specs.{Prelude.{◌≡◌, ◌++◌, OnErr, OnOk}, Fmt.{decimal}};

use itoa::Buffer;
use std::alloc::AllocError;

/// Appends the bytes. If memory runs out, the list is as before.
pub fn append_bytes(out: &mut Vec<u8>, bytes: &[u8]) -> Result<(), AllocError>
    ensures ok { OnOk result (out.new.items ≡ out.old.items ++ bytes.now) }
    ensures err { OnErr result (out.new.items ≡ out.old.items) }
{
    out.extend_from_slice(bytes)
}

/// Appends the number in decimal, without leading zeros. If memory runs out, the list is as before.
pub fn append_number(out: &mut Vec<u8>, number: u64) -> Result<(), AllocError>
    ensures ok { OnOk result (out.new.items ≡ out.old.items ++ decimal number) }
    ensures err { OnErr result (out.new.items ≡ out.old.items) }
{
    let mut buffer = Buffer::new();
    append_bytes(out, buffer.format(number).as_bytes())
}
