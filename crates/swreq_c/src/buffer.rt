//! The buffer of a caller.

ghost use Rattle.std.specs.Prelude.{◌≡◌};
ghost use Rattle.swreq_c.specs.Calls.{put_into};

/// Puts as many of the first bytes into the buffer as it has room for. The bytes after them are unchanged.
pub(crate) fn put(bytes: &[u8], out: &mut [u8])
    ensures { out.new ≡ put_into out.old bytes.now }
{
    let count = bytes.len().min(out.len());
    out[..count].copy_from_slice(&bytes[..count]);
}
