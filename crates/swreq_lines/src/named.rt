//! The ids that names stand for. Where a name stands for none, the answer is an id that is not of the text.

ghost use Rattle.std.specs.Prelude.{◌≡◌};
ghost use Rattle.swreq_print.specs.swreq_lexicon.{Lexicons.{pair}, Views.{IsName, IsProtocol}};
ghost use Rattle.swreq_print.specs.swreq_param.{declared.ids.AssocId.{AssocId}, declared.ids.NameId.{NameId}, declared.ids.ProtoId.{ProtoId}};
ghost use Rattle.swreq_print.specs.{Names.{name_text, pair_at, protocol_name}, Reading.{IsAssociated}};

use crate::reader::Reader;
use swreq_print::param::{AssocId, NameId, ProtoId};

/// The protocol with this name.
pub(crate) fn protocol_named(reader: &Reader, name: &[u8]) -> ProtoId
    ensures { (p : ProtoId) → IsProtocol reader.now.names.now p
        → name.now ≡ protocol_name reader.now.names.now p → result ≡ p }
{
    match reader.names.find_proto(name) {
        Some(p) => p,
        None => ProtoId { rank: u32::MAX },
    }
}

/// The name with these bytes.
pub(crate) fn name_named(reader: &Reader, name: &[u8]) -> NameId
    ensures { (a : NameId) → IsName reader.now.names.now a
        → name.now ≡ name_text reader.now.names.now a → result ≡ a }
{
    match reader.names.find_name(name) {
        Some(a) => a,
        None => NameId { rank: u32::MAX },
    }
}

/// The associated type of a protocol and a name.
pub(crate) fn associated(reader: &Reader, p: ProtoId, a: NameId) -> AssocId
    ensures { (d : AssocId) → IsAssociated reader.now.names.now d
        → pair p a ≡ pair_at reader.now.names.now d → result ≡ d }
{
    match reader.names.declares(p, a) {
        Some(d) => d,
        None => AssocId { rank: u32::MAX },
    }
}
