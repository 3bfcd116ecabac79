//! The names of ids. An id that is not of the text has the empty name.

ghost use Rattle.std.specs.Prelude.{◌≡◌};
ghost use Rattle.swreq_print.specs.Names.{first_pair, name_text, pair_at, protocol_name, symbol_at};

use swreq_lexicon::param::{AssocId, NameId, ProtoId};
use swreq_lexicon::{Lexicon, ProtocolName};

/// The first protocol with the first name.
fn first_pair() -> ProtocolName
    ensures { result ≡ first_pair }
{
    ProtocolName {
        proto: ProtoId { rank: 0 },
        name: NameId { rank: 0 },
    }
}

pub(crate) fn protocol_name(names: &Lexicon, p: ProtoId) -> &[u8]
    ensures { result.now ≡ protocol_name names.now p }
{
    if p.rank < names.protocols() {
        names.proto_name(p)
    } else {
        &[]
    }
}

pub(crate) fn name_text(names: &Lexicon, a: NameId) -> &[u8]
    ensures { result.now ≡ name_text names.now a }
{
    if a.rank < names.names() {
        names.name(a)
    } else {
        &[]
    }
}

/// The protocol and the name of an associated type.
pub(crate) fn pair_at(names: &Lexicon, d: AssocId) -> ProtocolName
    ensures { result ≡ pair_at names.now d }
{
    if d.rank < names.associated() {
        names.assoc(d)
    } else {
        first_pair()
    }
}

/// The protocol and the name of a member symbol.
pub(crate) fn symbol_at(names: &Lexicon, m: u64) -> ProtocolName
    ensures { result ≡ symbol_at names.now m }
{
    if m < names.members() {
        names.member_at(m)
    } else {
        first_pair()
    }
}
