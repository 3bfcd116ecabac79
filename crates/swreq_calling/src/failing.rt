//! Why a text gets no answers.
use std::alloc::AllocError;
use swreq_machine::decl::ParseErr;
use swreq_machine::resolve::NameErr;
use swreq_machine::valid::Refused;
use swreq_text::ReadErr;

/// Why a text gets no answers, with the status of the program.
#[derive(Clone, Copy)]
pub(crate) enum Failed {
    /// It is outside the language, or a name of it does not resolve.
    Text = 1,
    /// A completion passes a limit, or a side of a requirement is no type parameter.
    Rules = 3,
    /// It could not be read, or is too long.
    Read = 4,
    /// Memory ran out.
    Memory = 6,
}

impl From<AllocError> for Failed {
    fn from(_: AllocError) -> Self {
        Failed::Memory
    }
}

impl From<ReadErr> for Failed {
    fn from(_: ReadErr) -> Self {
        Failed::Read
    }
}

impl From<ParseErr> for Failed {
    fn from(e: ParseErr) -> Self {
        match e {
            ParseErr::Memory => Failed::Memory,
            _ => Failed::Text,
        }
    }
}

impl From<NameErr> for Failed {
    fn from(e: NameErr) -> Self {
        match e {
            NameErr::Memory => Failed::Memory,
            _ => Failed::Text,
        }
    }
}

impl From<Refused> for Failed {
    fn from(e: Refused) -> Self {
        match e {
            Refused::Memory => Failed::Memory,
            _ => Failed::Rules,
        }
    }
}
