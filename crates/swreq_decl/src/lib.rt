//! The skeleton or the calls for which a text stands, or where the text is refused.
#![tactic(auto)]

mod calls;
mod functions;
mod items;
mod kind;
pub mod laws;
mod parser;
mod protocols;
mod queries;
mod reading;
mod refusal;
mod requirements;
mod skeleton;
mod structs;
mod terminal;
mod tokens;
mod types;

pub use kind::Kind;
pub use parser::{parse, parse_calls};
pub use refusal::ParseErr;
pub use skeleton::{
    Ask, AssocDecl, CallDecl, Entity, FunctionDecl, ParamDecl, ProtocolDecl, QueryDecl, ReqDecl,
    Skeleton, Span, StepDecl, StructDecl, TypeDecl,
};
