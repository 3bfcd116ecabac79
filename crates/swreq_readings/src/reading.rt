//! The type parameters that words are read as.
ghost use Rattle.std.specs.Prelude.{◌≡◌, IfOk};
ghost use Rattle.swreq_derive.specs.swreq_param.Tables.{IsOf, term_at};
ghost use Rattle.swreq_derivation.specs.UnderWay.{Continues};
ghost use Rattle.swreq_readings.specs.{Alphabets.{member_at}, Readable.{read_symbol, read_word}};

use crate::alphabet::Alphabet;
use std::alloc::AllocError;
use swreq_derivation::Derivation;
use swreq_derive::param::{NameId, ParamId, ProtoId, Step, TermId};
use swreq_word::Symbol;
use swreq_world::lexicon::ProtocolName;

/// The protocol and the name of the member symbol with this rank.
pub fn member_at(alphabet: &Alphabet<'_>, rank: u64) -> ProtocolName
    ensures { result ≡ member_at alphabet.now rank }
{
    let lexicon = alphabet.world.lexicon();
    if rank < lexicon.members() {
        lexicon.member_at(rank)
    } else {
        ProtocolName {
            proto: ProtoId { rank: 0 },
            name: NameId { rank: 0 },
        }
    }
}

/// The type parameter that a symbol after T is read as.
pub fn read_symbol(
    alphabet: &Alphabet,
    derivation: &mut Derivation,
    subject: TermId,
    symbol: Symbol,
) -> Result<TermId, AllocError>
    requires subject { IsOf derivation.old.table subject }
    ensures is_of { IfOk result (IsOf derivation.new.table) }
    ensures stands { IfOk result (λ u. term_at derivation.new.table u ≡ read_symbol alphabet.now
        (term_at derivation.old.table subject) symbol) }
    ensures continues { Continues derivation.old derivation.new }
{
    match symbol {
        Symbol::Proto(_) => Ok(subject),
        Symbol::Layout => Ok(subject),
        Symbol::Name(rank) => derivation.member(subject, Step::Name(NameId { rank })),
        Symbol::Member(rank) => {
            let named = member_at(alphabet, rank);
            derivation.member(subject, Step::Name(named.name))
        }
        Symbol::Param(depth, index) => derivation.param(ParamId { depth, index }),
    }
}

/// The type parameter that a word after T is read as.
pub fn read_word(
    alphabet: &Alphabet,
    derivation: &mut Derivation,
    subject: TermId,
    word: &[Symbol],
) -> Result<TermId, AllocError>
    requires subject { IsOf derivation.old.table subject }
    ensures is_of { IfOk result (IsOf derivation.new.table) }
    ensures stands { IfOk result (λ u. term_at derivation.new.table u ≡ read_word alphabet.now
        (term_at derivation.old.table subject) word.now) }
    ensures continues { Continues derivation.old derivation.new }
{
    let mut at = subject;
    for k in 0..word.len() {
        at = read_symbol(alphabet, derivation, at, word[k])?;
    }
    Ok(at)
}
