//! Statements over ids.
ghost use Rattle.std.specs.Prelude.{◌≡◌};
ghost use Rattle.swreq_derivation.specs.UnderWay.{bound_on};
ghost use Rattle.swreq_derive.specs.declared.requirements.Requirement.TheVariants as required;
ghost use Rattle.swreq_derive.specs.declared.requirements.Statement.TheVariants as stated;

use swreq_derive::param::{ProtoId, TermId};
use swreq_derive::{Requirement, Statement};

/// What a type parameter is required to conform to: a protocol, or `AnyObject`.
#[derive(Clone, Copy, Debug)]
pub enum Bound {
    Protocol(ProtoId),
    AnyObject,
}

/// `[T : P]` or `[T : AnyObject]`
pub fn bound_requirement(subject: TermId, bound: Bound) -> Requirement
    ensures { result ≡ bound_on bound subject }
{
    match bound {
        Bound::Protocol(proto) => Requirement::Conf { subject, proto },
        Bound::AnyObject => Requirement::Layout { subject },
    }
}

/// `[T : P]` or `[T : AnyObject]`
pub fn bound_statement(subject: TermId, bound: Bound) -> Statement
    ensures { result ≡ stated.Holds (bound_on bound subject) }
{
    Statement::Holds {
        r: bound_requirement(subject, bound),
    }
}

/// T is valid.
pub fn valid_statement(subject: TermId) -> Statement
    ensures { result ≡ stated.Valid subject }
{
    Statement::Valid { t: subject }
}

/// `[T : P]`
pub fn conf_statement(subject: TermId, protocol: ProtoId) -> Statement
    ensures { result ≡ stated.Holds (required.Conf subject protocol) }
{
    Statement::Holds {
        r: Requirement::Conf {
            subject,
            proto: protocol,
        },
    }
}

/// `[T == U]`
pub fn same_statement(left: TermId, right: TermId) -> Statement
    ensures { result ≡ stated.Holds (required.Same left right) }
{
    Statement::Holds {
        r: Requirement::Same { left, right },
    }
}
