// What is refused of names.
ghost use Rattle.std.specs.Prelude.{◌≡◌};
ghost use Rattle.swreq_resolve.specs.{First.{precedes, row, least, when}, Errors.{error_of}, declared.refusal.NameErr.TheVariants.{Memory}};

use std::alloc::{AllocError, AllocFailed};
use thiserror::Error;

/// What is wrong with a name.
#[derive(Clone, Copy, Debug)]
pub enum Fault {
    /// It is declared a second time in its space.
    Duplicate,
    /// It stands where a protocol is required, and is not one.
    NotAProtocol,
    /// It begins a type, and is not a type parameter there.
    ConcreteType,
    /// It is bound to a protocol that does not declare it, or is a primary name and not a member name of its protocol.
    NoSuchMember,
    /// It stands where a signature is required, and is not one.
    UnknownSignature,
    /// It names a protocol with another number of primary names than the arguments that follow.
    WrongArity,
}

/// A name that is refused, and its offset in bytes.
#[derive(Clone, Copy, Debug)]
pub struct Refusal {
    pub fault: Fault,
    pub at: u32,
}

/// Why the names of a text do not resolve, with the offset of the name in bytes.
#[derive(Debug, Drop, Error)]
pub enum NameErr {
    /// A name is declared twice in its space. The place is the second.
    #[error("duplicate name at {at}")]
    Duplicate { at: u32 },
    /// A name that stands where a protocol is required is not one.
    #[error("not a protocol at {at}")]
    NotAProtocol { at: u32 },
    /// The first word of a type is not a type parameter there.
    #[error("concrete type at {at}")]
    ConcreteType { at: u32 },
    /// A bound member is not declared by its protocol, or a primary name is not a member name of its protocol.
    #[error("no such member at {at}")]
    NoSuchMember { at: u32 },
    /// A query is on a name that is not a signature.
    #[error("unknown signature at {at}")]
    UnknownSignature { at: u32 },
    /// A protocol is given another number of arguments than it has primary names.
    #[error("wrong number of arguments at {at}")]
    WrongArity { at: u32 },
    /// A protocol inherits itself.
    #[error("circular inheritance at {at}")]
    Cycle { at: u32 },
    /// Memory ran out.
    #[error("out of memory")]
    Memory,
}

impl From<AllocError> for NameErr {
    ghost from_gives = { λ _ e. e ≡ Memory };

    fn from(_: AllocError) -> Self {
        NameErr::Memory
    }
}

impl<T: Drop> From<AllocFailed<T>> for NameErr {
    ghost from_gives = { λ _ e. e ≡ Memory };

    fn from(_: AllocFailed<T>) -> Self {
        NameErr::Memory
    }
}

impl Fault {
    /// The place of a fault among those of one name.
    fn row(self) -> u8
        ensures { result ≡ row self }
    {
        match self {
            Fault::Duplicate => 0,
            Fault::NotAProtocol => 1,
            Fault::ConcreteType => 2,
            Fault::NoSuchMember => 3,
            Fault::UnknownSignature => 4,
            Fault::WrongArity => 5,
        }
    }
}

impl Refusal {
    /// Whether this one comes before the other.
    pub fn precedes(self, other: Refusal) -> bool
        ensures { result ≡ precedes self other }
    {
        self.at < other.at || (self.at == other.at && self.fault.row() < other.fault.row())
    }
}

/// The error that says this of a name.
pub fn error_of(refusal: Refusal) -> NameErr
    ensures { result ≡ error_of refusal }
{
    match refusal.fault {
        Fault::Duplicate => NameErr::Duplicate { at: refusal.at },
        Fault::NotAProtocol => NameErr::NotAProtocol { at: refusal.at },
        Fault::ConcreteType => NameErr::ConcreteType { at: refusal.at },
        Fault::NoSuchMember => NameErr::NoSuchMember { at: refusal.at },
        Fault::UnknownSignature => NameErr::UnknownSignature { at: refusal.at },
        Fault::WrongArity => NameErr::WrongArity { at: refusal.at },
    }
}

/// The first of what is refused so far and, where the fault is there, of the name at this offset.
pub fn noted(best: Option<Refusal>, is_there: bool, fault: Fault, at: u32) -> Option<Refusal>
    ensures { result ≡ least best (when is_there fault at) }
{
    if !is_there {
        return best;
    }
    let here = Refusal { fault, at };
    match best {
        Some(first) => Some(if here.precedes(first) { here } else { first }),
        None => Some(here),
    }
}
