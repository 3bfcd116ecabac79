//! The parts of a text, and calls, as they are written.

use swreq_text::Seq;

/// A slice of the text, from the byte `start` up to and without the byte `end`.
#[derive(Clone, Copy, Debug, Drop)]
pub struct Span {
    pub start: u32,
    pub end: u32,
}

/// What stands on the right of `:` or `&`: the name of a protocol, with its arguments if it has any, or `AnyObject`, which is
/// the layout and has none. In a query it has no arguments.
#[derive(Debug, Drop)]
pub struct Entity {
    pub span: Span,
    pub layout: bool,
    pub args: Seq<TypeDecl>,
}

/// A step of a written type: `.A`, or in a query also `.[P]A`.
#[derive(Clone, Copy, Debug, Drop)]
pub enum StepDecl {
    Plain { name: Span },
    Bound { proto: Span, name: Span },
}

/// A written type: its first word, and its steps, at most 1,000.
#[derive(Debug, Drop)]
pub struct TypeDecl {
    pub head: Span,
    pub steps: Seq<StepDecl>,
}

/// A written requirement: `T: P & Q`, or `T == U`.
#[derive(Debug, Drop)]
pub enum ReqDecl {
    Bound {
        subject: TypeDecl,
        bounds: Seq<Entity>,
    },
    Same {
        left: TypeDecl,
        right: TypeDecl,
    },
}

/// An associated type of a protocol.
#[derive(Debug, Drop)]
pub struct AssocDecl {
    pub name: Span,
    pub inherits: Seq<Entity>,
    pub clause: Seq<ReqDecl>,
}

/// A protocol. Its primaries are the names of its primary associated types.
#[derive(Debug, Drop)]
pub struct ProtocolDecl {
    pub name: Span,
    pub primaries: Seq<Span>,
    pub inherits: Seq<Entity>,
    pub clause: Seq<ReqDecl>,
    pub members: Seq<AssocDecl>,
}

/// A generic parameter of a struct or a function.
#[derive(Debug, Drop)]
pub struct ParamDecl {
    pub name: Span,
    pub bounds: Seq<Entity>,
}

/// A generic function.
#[derive(Debug, Drop)]
pub struct FunctionDecl {
    pub name: Span,
    pub params: Seq<ParamDecl>,
    pub clause: Seq<ReqDecl>,
}

/// A struct with its functions in written order.
#[derive(Debug, Drop)]
pub struct StructDecl {
    pub name: Span,
    pub params: Seq<ParamDecl>,
    pub clause: Seq<ReqDecl>,
    pub functions: Seq<FunctionDecl>,
}

/// What a query asks of its signature: the minimised signature, the reduced type of `t`, whether `t` conforms to a protocol
/// or has the layout, or whether two types are equal.
#[derive(Debug, Drop)]
pub enum Ask {
    Signature,
    Reduced { t: TypeDecl },
    Is { t: TypeDecl, bound: Entity },
    Same { left: TypeDecl, right: TypeDecl },
}

/// A query: on the function of the struct `outer`, or without one on a function or struct at the top.
#[derive(Debug, Drop)]
pub struct QueryDecl {
    pub outer: Option<Span>,
    pub function: Span,
    pub ask: Ask,
}

/// A call: the signature `caller` calls the signature `callee` with these types. Each of the two is of the struct that is named
/// before it, or where none is named a struct or a function at the top.
#[derive(Debug, Drop)]
pub struct CallDecl {
    pub caller_outer: Option<Span>,
    pub caller: Span,
    pub callee_outer: Option<Span>,
    pub callee: Span,
    pub args: Seq<TypeDecl>,
}

/// One of the parts of a text.
#[derive(Debug, Drop)]
pub enum Item {
    Protocol(ProtocolDecl),
    Struct(StructDecl),
    Function(FunctionDecl),
    Query(QueryDecl),
}

/// The parts of a text, each kind in written order; the functions of a struct stand in it alone.
#[derive(Debug, Drop)]
pub struct Skeleton {
    pub protocols: Seq<ProtocolDecl>,
    pub structs: Seq<StructDecl>,
    pub functions: Seq<FunctionDecl>,
    pub queries: Seq<QueryDecl>,
}
