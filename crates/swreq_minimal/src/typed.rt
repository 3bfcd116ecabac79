//! The type of a word, as rules tell it.
ghost use Rattle.std.specs.Prelude.{◌≡◌, ◌≤◌, ◌<◌, ◌∷◌, ◌++◌, [], length, take, vec_capacity, List, IfOk, MatchOption};
ghost use Rattle.swreq_machine.specs.swreq_param.{declared.ids.AssocId.{AssocId}, declared.ids.Step.TheVariants.{Bound}, Tables.{Extends, IsOf, term_at}, Terms.Term.{Member}};
ghost use Rattle.swreq_machine.specs.swreq_derive.declared.known.Params.{Params};
ghost use Rattle.swreq_homotopy.specs.swreq_word.declared.symbols.Symbol.TheVariants.{Param};
ghost use Rattle.swreq_machine.specs.swreq_rule.declared.rules.Rule.{Rule};
ghost use Rattle.swreq_machine.specs.swreq_lexicon.Views.{LexiconView};
ghost use Rattle.swreq_machine.specs.swreq_symbols.Vanishing.{IsLeastBy};
ghost use Rattle.swreq_minimal.specs.Typed.{Identifies, IsMemberBehind, IsTestable, IsTypeBy};

use crate::given::member_behind;
use crate::reader::Reader;
use std::alloc::AllocError;
use swreq_machine::derive::Params;
use swreq_machine::param::{AssocId, ParamId, ParamTable, Step, TermId};
use swreq_machine::word::Symbol;

/// The type of the word of a generic parameter's symbol, or None where the generic parameter is none of these.
fn generic(params: Params, table: &mut ParamTable, g: ParamId) -> Result<Option<TermId>, AllocError>
    ensures typed { (x : LexiconView) (rules : List Rule) → IfOk result
        (Identifies (IsTypeBy x rules params (Param g.depth g.index ∷ [])) table.new) }
    ensures extends { Extends table.old table.new }
{
    if !params.has(g) {
        return Ok(None);
    }
    let t = table.param(g)?;
    Ok(Some(t))
}

/// The type of the word of one symbol, or None where it has none.
pub(crate) fn symbol_type(
    params: Params,
    table: &mut ParamTable,
    symbol: Symbol,
) -> Result<Option<TermId>, AllocError>
    ensures typed { (x : LexiconView) (rules : List Rule)
        → IfOk result (Identifies (IsTypeBy x rules params (symbol ∷ [])) table.new) }
    ensures extends { Extends table.old table.new }
{
    match symbol {
        Symbol::Param(depth, index) => generic(params, table, ParamId { depth, index }),
        _ => Ok(None),
    }
}

/// The type of the first symbol of a word, or None where it has none.
fn begin(
    params: Params,
    table: &mut ParamTable,
    word: &[Symbol],
) -> Result<Option<TermId>, AllocError>
    ensures typed { (x : LexiconView) (rules : List Rule)
        → IfOk result (Identifies (IsTypeBy x rules params (take 1 word.now)) table.new) }
    ensures extends { Extends table.old table.new }
{
    if word.is_empty() {
        return Ok(None);
    }
    symbol_type(params, table, word[0])
}

/// The id of the bound member.
pub(crate) fn bound(
    table: &mut ParamTable,
    t: TermId,
    d: AssocId,
) -> Result<Option<TermId>, AllocError>
    requires { IsOf table.old t }
    ensures bound { IfOk result (λ o. MatchOption o ⊥ (λ id. IsOf table.new id
        × (term_at table.new id ≡ Member (term_at table.old t) (Bound d)))) }
    ensures extends { Extends table.old table.new }
{
    let u = table.member(t, Step::Bound(d))?;
    Ok(Some(u))
}

/// The bound member of t for which the symbol stands after a word of the type t, or None where it stands for none.
fn step(
    by: &Reader<'_, '_>,
    table: &mut ParamTable,
    t: TermId,
    front: &[Symbol],
    symbol: Symbol,
    test: &mut Vec<Symbol>,
) -> Result<Option<TermId>, AllocError>
    requires t { IsOf table.old t }
    requires tested { IsTestable by.now.rules.now front.now (vec_capacity test.old) }
    ensures member { IfOk result (λ o. MatchOption o
        ((d : AssocId)
        → IsMemberBehind by.now.world.now.lexicon by.now.rules.now front.now symbol d → ⊥)
        (λ id. (d : AssocId)
        × IsMemberBehind by.now.world.now.lexicon by.now.rules.now front.now symbol d
        × IsOf table.new id × (term_at table.new id ≡ Member (term_at table.old t) (Bound d)))) }
    ensures extends { Extends table.old table.new }
    ensures room { vec_capacity test.old ≤ vec_capacity test.new }
{
    match member_behind(by.world, by.rules, front, symbol, test) {
        None => Ok(None),
        Some(d) => bound(table, t, d),
    }
}

/// The type of a word with this symbol after it, where that of the word is known.
fn go_on(
    by: &Reader<'_, '_>,
    table: &mut ParamTable,
    at: Option<TermId>,
    front: &[Symbol],
    symbol: Symbol,
    test: &mut Vec<Symbol>,
) -> Result<Option<TermId>, AllocError>
    requires at { MatchOption at (Unit {0}) (IsOf table.old) }
    requires some { 0 < length front.now }
    requires tested { IsTestable by.now.rules.now front.now (vec_capacity test.old) }
    ensures typed { (params : Params)
        → Identifies (IsTypeBy by.now.world.now.lexicon by.now.rules.now params front.now)
        table.old at
        → IfOk result (Identifies (IsTypeBy by.now.world.now.lexicon by.now.rules.now params
        (front.now ++ symbol ∷ [])) table.new) }
    ensures extends { Extends table.old table.new }
    ensures room { vec_capacity test.old ≤ vec_capacity test.new }
{
    match at {
        None => Ok(None),
        Some(t) => step(by, table, t, front, symbol, test),
    }
}

/// The type of a word, by these rules, or None where it has none.
pub(crate) fn type_of(
    by: &Reader<'_, '_>,
    table: &mut ParamTable,
    word: &[Symbol],
) -> Result<Option<TermId>, AllocError>
    requires { IsLeastBy by.now.rules.now word.now }
    ensures typed { IfOk result (Identifies
        (IsTypeBy by.now.world.now.lexicon by.now.rules.now by.now.params word.now) table.new) }
    ensures extends { Extends table.old table.new }
{
    let mut test: Vec<Symbol> = Vec::with_capacity(by.alloc, word.len() + 1)?;
    let mut at = begin(by.params, table, word)?;
    for k in 1..word.len() {
        let next = go_on(by, table, at, &word[..k], word[k], &mut test)?;
        at = next;
    }
    Ok(at)
}
