//! Where numbers of requirements lead.
ghost use Rattle.std.specs.Prelude.{◌≡◌, IfOk};
ghost use Rattle.swreq_confpath.specs.Spots.{word_at};

use std::alloc::AllocError;
use swreq_machine::param::ProtoId;
use swreq_machine::word::{Symbol, Word};

/// Where numbers of requirements have led.
#[derive(Debug, Drop, PartialEq, Eq, Hash)]
pub(crate) enum Place {
    /// Nowhere yet: before the list of a signature.
    Start,
    /// To a conformance to this protocol. The subject stands as its least word, which all equal type parameters have.
    Conformance { subject: Word, proto: ProtoId },
}

impl Place {
    /// The least word of the subject, which has no symbols at the start.
    pub(crate) fn word(&self) -> &[Symbol]
        ensures { result.now ≡ word_at self.now }
    {
        match self {
            Place::Start => &[],
            Place::Conformance { subject, .. } => subject.symbols(),
        }
    }

    /// The same place once more.
    pub(crate) fn copy(&self) -> Result<Place, AllocError>
        ensures { IfOk result (λ place. place ≡ self.now) }
    {
        match self {
            Place::Start => Ok(Place::Start),
            Place::Conformance { subject, proto } => {
                let subject = subject.clone()?;
                Ok(Place::Conformance {
                    subject,
                    proto: *proto,
                })
            }
        }
    }
}
