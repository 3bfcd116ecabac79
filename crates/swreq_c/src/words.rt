//! The words of a caller.

ghost use Rattle.std.specs.Prelude.{◌≡◌, IfOk, map, string_bytes};
ghost use Rattle.swreq_c.specs.Calls.{AreWords, pieces};

use std::alloc::{AllocError, Global};

/// The words between zero bytes, and none where the bytes are no UTF-8.
pub(crate) fn words_of(alloc: Global, bytes: &[u8]) -> Result<Vec<String>, AllocError>
    ensures { IfOk result (λ words. AreWords bytes.now (map string_bytes words.items)) }
{
    match str::from_utf8(bytes) {
        Ok(text) => pieces_of(alloc, text),
        Err(_) => Ok(Vec::new(alloc)),
    }
}

fn pieces_of(alloc: Global, text: &str) -> Result<Vec<String>, AllocError>
    ensures { IfOk result (λ words. map string_bytes words.items ≡ pieces text.now) }
{
    let mut words = Vec::new(alloc);
    for word in text.split('\0') {
        words.push(String::from_str(alloc, word)?)?;
    }
    Ok(words)
}
