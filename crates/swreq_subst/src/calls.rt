//! Calls over the ids of a table.
use swreq_machine::param::TermId;
use swreq_print::lowering::FuncId;
use swreq_text::Seq;

/// A call: the signature f calls the signature g with these types, one for each generic parameter of g in order. A type with a
/// name that the text lacks is None.
#[derive(Debug, Drop)]
pub struct Call {
    pub f: FuncId,
    pub g: FuncId,
    pub args: Seq<Option<TermId>>,
}
