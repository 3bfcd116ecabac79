// What a name in a text stands for.
ghost use Rattle.std.specs.Prelude.{◌≡◌, ◌≤◌, length, slice_get};
ghost use Rattle.swreq_lexicon.specs.swreq_decl.Skeletons.{StandsFor};
ghost use Rattle.swreq_lexicon.specs.swreq_names.Names.{HasDeclared};
ghost use Rattle.swreq_lowering.specs.{Types.{param_id, param_named, step_of}, Words.{words_by, proto_of, name_of, primaries_named, primaries_of}};

use crate::laws::lists_are_short;
use crate::params::own_depth;
use crate::words::Words;
use swreq_lexicon::Lexicon;
use swreq_lexicon::decl::{ProtocolDecl, Skeleton, Span, StepDecl};
use swreq_lexicon::names::{Param, Signature, word};
use swreq_param::{NameId, ParamId, ProtoId, Step};

/// The protocol of this name.
pub fn proto_of(words: &Words<'_>, name: Span) -> ProtoId
    ensures { result ≡ proto_of (words_by words.now) name }
{
    words.lexicon.proto_id(word(words.text, name))
}

/// The name of an associated type or of a member.
pub fn name_of(words: &Words<'_>, name: Span) -> NameId
    ensures { result ≡ name_of (words_by words.now) name }
{
    words.lexicon.name_id(word(words.text, name))
}

/// The step of a type parameter that a step of a written type stands for.
pub fn step_of(words: &Words<'_>, step: &StepDecl) -> Step
    ensures { result ≡ step_of (words_by words.now) step.now }
{
    match step {
        StepDecl::Plain { name } => Step::Name(name_of(words, *name)),
        StepDecl::Bound { proto, name } => {
            let p = proto_of(words, *proto);
            let a = name_of(words, *name);
            Step::Bound(words.lexicon.assoc_id(p, a))
        }
    }
}

/// The generic parameter of a signature that a name refers to.
pub fn param_named(words: &Words<'_>, signature: Signature, name: &[u8]) -> Option<ParamId>
    ensures { result ≡ param_named (words_by words.now) signature name.now }
{
    match words.lexicon.resolved().find_param(signature, name)? {
        Param::Outer(place) => Some(ParamId {
            depth: 0,
            index: place as u32,
        }),
        Param::Own(place) => Some(ParamId {
            depth: own_depth(words.skeleton, signature),
            index: place as u32,
        }),
    }
}

/// The primary names of the protocol of this name.
pub fn primaries_named<'a>(words: &Words<'a>, name: Span) -> &'a [Span]
    ensures { result.now ≡ primaries_named (words_by words.now) name }
{
    match words
        .lexicon
        .resolved()
        .find_protocol(word(words.text, name))
    {
        Some(place) => primaries_at(words.skeleton.protocols.items(), place),
        None => &[],
    }
}

/// The primary names of the protocol at this place.
fn primaries_at(protocols: &[ProtocolDecl], place: usize) -> &[Span]
    ensures { result.now ≡ primaries_of (slice_get protocols.now place) }
{
    match protocols.get(place) {
        Some(protocol) => protocol.primaries.items(),
        None => &[],
    }
}

/// A text with its skeleton and its lexicon.
pub fn words_of<'a>(text: &'a [u8], skeleton: &'a Skeleton, lexicon: &'a Lexicon) -> Words<'a>
    requires limit { length text.now ≤ 1048576 }
    requires stands { StandsFor text.now skeleton.now }
    requires declared { HasDeclared text.now skeleton.now lexicon.now.resolved }
    ensures { words_by result
        ≡ record { text = text.now; skeleton = skeleton.now; lexicon = lexicon.now } }
{
    lists_are_short(text);
    Words {
        text,
        skeleton,
        lexicon,
    }
}
