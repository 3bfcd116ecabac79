// Where types are written.
use swreq_lexicon::names::Signature;

/// Where a type is written, which tells what its first word stands for.
#[derive(Clone, Copy, Debug, PartialEq, Eq)]
pub enum Context {
    /// In a protocol: the first word is `Self` or a member name.
    Protocol,
    /// In a signature, or in a query on it: the first word is a generic parameter.
    Signature(Signature),
}
