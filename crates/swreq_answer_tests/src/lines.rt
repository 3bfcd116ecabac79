//! What is asserted of texts.

use std::alloc::{AllocError, Global};
use std::process::Abort;

/// Asserts that the bytes are the text that is wanted under this name.
pub(crate) fn assert_text(
    rt: &impl Abort,
    alloc: Global,
    name: &str,
    bytes: &[u8],
    wanted: &str,
) -> Result<(), AllocError> {
    let text = String::from_utf8_lossy(alloc, bytes)?;
    assert_eq!(rt; text.as_str(), wanted, "{name}");
    Ok(())
}
