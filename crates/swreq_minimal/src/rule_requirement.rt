//! The requirement of a rule of a reduced system.
ghost use Rattle.std.specs.Prelude.{◌≡◌, ◌⊎◌, ◌<◌, ◌∷◌, ◌++◌, [], length, vec_capacity, List, IfOk, MatchOption};
ghost use Rattle.swreq_machine.specs.swreq_param.{declared.ids.AssocId.{AssocId}, declared.ids.NameId.{NameId}, declared.ids.ProtoId.{ProtoId}, declared.ids.Step.TheVariants.{Bound}, Tables.{Extends, IsOf, term_at}, Terms.{Term}, Terms.Term.{Member}};
ghost use Rattle.swreq_machine.specs.swreq_derive.{declared.known.Params.{Params}, declared.requirements.Requirement.TheVariants.{Conf, Layout as LayoutOf, Same}};
ghost use Rattle.swreq_homotopy.specs.swreq_word.{declared.symbols.Symbol.{Symbol}, declared.symbols.Symbol.TheVariants.{Proto, Layout}, Least.{IsMinimal}};
ghost use Rattle.swreq_machine.specs.swreq_complete.Reduced.{IsReduced};
ghost use Rattle.swreq_candidates.specs.Candidates.{IsNamed};
ghost use Rattle.swreq_machine.specs.swreq_lexicon.Views.{IsProtocol};
ghost use Rattle.swreq_machine.specs.swreq_symbols.{Meaning.{symbols_of}, Vanishing.{IsFirstBehind, IsLeastBy, Links}};
ghost use Rattle.swreq_minimal.specs.Typed.{Finds, Identifies, IsRequirementOfRule, IsSubjectOf, IsTestable, IsTypeBy};

use crate::reader::Reader;
use crate::typed::{bound, symbol_type, type_of};
use std::alloc::AllocError;
use swreq_machine::complete::CompleteRules;
use swreq_machine::derive::Requirement;
use swreq_machine::param::{AssocId, NameId, ParamTable, ProtoId, TermId};
use swreq_machine::rule::Rule;
use swreq_machine::symbols::{first_behind, name_at};
use swreq_machine::word::{Symbol, are_same};
use swreq_machine::world::World;

/// The name for which a symbol stands, or None where it stands for none.
fn name_of(world: &World, symbol: Symbol) -> Option<NameId>
    ensures { MatchOption result
        ((a : NameId) → IsNamed (symbols_of world.now.lexicon) symbol a → ⊥)
        (IsNamed (symbols_of world.now.lexicon) symbol) }
{
    match symbol {
        Symbol::Member(rank) => name_at(world, rank),
        Symbol::Name(rank) => Some(NameId { rank }),
        _ => None,
    }
}

/// The first associated type that is given after the word, of the name for which the symbol stands.
fn first_named(
    world: &World,
    rules: &CompleteRules<'_>,
    front: &[Symbol],
    symbol: Symbol,
    test: &mut Vec<Symbol>,
) -> Option<AssocId>
    requires { IsTestable rules.now front.now (vec_capacity test.old) }
    ensures answer { MatchOption result
        ((a : NameId) (d : AssocId) → IsNamed (symbols_of world.now.lexicon) symbol a
        → IsFirstBehind world.now.lexicon rules.now front.now a d → ⊥)
        (λ d. (a : NameId) × IsNamed (symbols_of world.now.lexicon) symbol a
        × IsFirstBehind world.now.lexicon rules.now front.now a d) }
{
    let a = name_of(world, symbol)?;
    first_behind(world, rules, front, a, test)
}

/// The bound member of t, the type of the word, with the first associated type of the name for which the symbol after it stands.
fn last_member(
    by: &Reader<'_, '_>,
    table: &mut ParamTable,
    t: TermId,
    front: &[Symbol],
    symbol: Symbol,
) -> Result<Option<TermId>, AllocError>
    requires t { IsOf table.old t }
    requires least { IsLeastBy by.now.rules.now front.now }
    ensures member { IfOk result (λ o. MatchOption o
        ((a : NameId) (d : AssocId) → IsNamed (symbols_of by.now.world.now.lexicon) symbol a
        → IsFirstBehind by.now.world.now.lexicon by.now.rules.now front.now a d → ⊥)
        (λ id. (a : NameId) × (d : AssocId) × IsNamed (symbols_of by.now.world.now.lexicon) symbol a
        × IsFirstBehind by.now.world.now.lexicon by.now.rules.now front.now a d
        × IsOf table.new id × (term_at table.new id ≡ Member (term_at table.old t) (Bound d)))) }
    ensures extends { Extends table.old table.new }
{
    let mut test: Vec<Symbol> = Vec::with_capacity(by.alloc, front.len() + 1)?;
    match first_named(by.world, by.rules, front, symbol, &mut test) {
        None => Ok(None),
        Some(d) => bound(table, t, d),
    }
}

/// The subject of a left side that has this symbol after this word, which is not empty.
fn member_subject(
    by: &Reader<'_, '_>,
    table: &mut ParamTable,
    front: &[Symbol],
    symbol: Symbol,
) -> Result<Option<TermId>, AllocError>
    requires some { 0 < length front.now }
    requires least { IsLeastBy by.now.rules.now front.now }
    ensures subject { IfOk result (Identifies
        (IsSubjectOf by.now.world.now.lexicon by.now.rules.now by.now.params
        (front.now ++ symbol ∷ [])) table.new) }
    ensures extends { Extends table.old table.new }
{
    let at = type_of(by, table, front)?;
    match at {
        None => Ok(None),
        Some(t) => last_member(by, table, t, front, symbol),
    }
}

/// The type parameter that is the subject of a left side, or None where it has none.
fn subject(
    by: &Reader<'_, '_>,
    table: &mut ParamTable,
    left: &[Symbol],
) -> Result<Option<TermId>, AllocError>
    requires { IsMinimal (Links by.now.rules.now) left.now }
    ensures subject { IfOk result (Identifies
        (IsSubjectOf by.now.world.now.lexicon by.now.rules.now by.now.params left.now) table.new) }
    ensures extends { Extends table.old table.new }
{
    if left.is_empty() {
        return Ok(None);
    }
    let last = left.len() - 1;
    if last == 0 {
        return symbol_type(by.params, table, left[0]);
    }
    member_subject(by, table, &left[..last], left[last])
}

/// The symbol that stands after the right side in the left side, or None where the left side is no such word.
fn behind(left: &[Symbol], right: &[Symbol]) -> Option<Symbol>
    ensures { MatchOption result ((x : Symbol) → left.now ≡ right.now ++ x ∷ [] → ⊥)
        (λ x. left.now ≡ right.now ++ x ∷ []) }
{
    if left.is_empty() {
        return None;
    }
    let last = left.len() - 1;
    if are_same(&left[..last], right) {
        Some(left[last])
    } else {
        None
    }
}

/// The conformance of t to the protocol of this rank, or None where there is no such protocol.
fn conformance(world: &World, rank: u32, t: TermId) -> Option<Requirement>
    ensures { MatchOption result
        (IsProtocol world.now.lexicon (record { rank = rank }) → ⊥)
        (λ r. IsProtocol world.now.lexicon (record { rank = rank })
        × (r ≡ Conf t (record { rank = rank }))) }
{
    if rank < world.protocols() {
        Some(Requirement::Conf {
            subject: t,
            proto: ProtoId { rank },
        })
    } else {
        None
    }
}

/// The conformance or the layout of t for which the symbol stands, or None where it stands for none.
fn property(world: &World, symbol: Symbol, t: TermId) -> Option<Requirement>
    ensures { MatchOption result
        (((p : ProtoId) → symbol ≡ Proto p.rank → IsProtocol world.now.lexicon p → ⊥)
        × (symbol ≡ Layout → ⊥))
        (λ r. ((p : ProtoId) × (symbol ≡ Proto p.rank) × IsProtocol world.now.lexicon p
        × (r ≡ Conf t p))
        ⊎ ((symbol ≡ Layout) × (r ≡ LayoutOf t))) }
{
    match symbol {
        Symbol::Proto(rank) => conformance(world, rank, t),
        Symbol::Layout => Some(Requirement::Layout { subject: t }),
        _ => None,
    }
}

/// The conformance or the layout of t, the type of the right side, that is the requirement of the rule, or None where its requirement is none of these.
fn property_requirement(
    world: &World,
    left: &[Symbol],
    right: &[Symbol],
    t: TermId,
) -> Option<Requirement>
    ensures { MatchOption result
        (((p : ProtoId) → left.now ≡ right.now ++ Proto p.rank ∷ []
        → IsProtocol world.now.lexicon p → ⊥)
        × (left.now ≡ right.now ++ Layout ∷ [] → ⊥))
        (λ r. ((p : ProtoId) × (left.now ≡ right.now ++ Proto p.rank ∷ [])
        × IsProtocol world.now.lexicon p × (r ≡ Conf t p))
        ⊎ ((left.now ≡ right.now ++ Layout ∷ []) × (r ≡ LayoutOf t))) }
{
    let symbol = behind(left, right)?;
    property(world, symbol, t)
}

/// That the two are equal, or None where they are one type parameter.
fn same_type(table: &ParamTable, t: TermId, v: TermId) -> Option<Requirement>
    requires t { IsOf table.now t }
    requires v { IsOf table.now v }
    ensures { MatchOption result
        (term_at table.now t ≡ term_at table.now v)
        (λ r. (r ≡ Same t v) × (term_at table.now t ≡ term_at table.now v → ⊥)) }
{
    let _count = table.len();
    if t == v {
        None
    } else {
        Some(Requirement::Same { left: t, right: v })
    }
}

/// The same-type requirement of the rule, where t is the type of its right side, or None where it has none.
fn same_type_requirement(
    by: &Reader<'_, '_>,
    table: &mut ParamTable,
    left: &[Symbol],
    t: TermId,
) -> Result<Option<Requirement>, AllocError>
    requires minimal { IsMinimal (Links by.now.rules.now) left.now }
    requires t { IsOf table.old t }
    ensures same { IfOk result (λ o. MatchOption o
        ((v : Term) → IsSubjectOf by.now.world.now.lexicon by.now.rules.now by.now.params left.now v
        → term_at table.old t ≡ v)
        (λ r. (v : TermId) × (r ≡ Same t v) × IsOf table.new v
        × IsSubjectOf by.now.world.now.lexicon by.now.rules.now by.now.params left.now
        (term_at table.new v)
        × (term_at table.old t ≡ term_at table.new v → ⊥))) }
    ensures extends { Extends table.old table.new }
{
    let other = subject(by, table, left)?;
    match other {
        None => Ok(None),
        Some(v) => Ok(same_type(table, t, v)),
    }
}

/// The requirement of the rule, where t is the type of its right side, or None where it has none.
fn requirement_at(
    by: &Reader<'_, '_>,
    table: &mut ParamTable,
    left: &[Symbol],
    right: &[Symbol],
    t: TermId,
) -> Result<Option<Requirement>, AllocError>
    requires minimal { IsMinimal (Links by.now.rules.now) left.now }
    requires t { IsOf table.old t }
    requires typed { IsTypeBy by.now.world.now.lexicon by.now.rules.now by.now.params right.now
        (term_at table.old t) }
    ensures requirement { IfOk result (Finds
        (IsRequirementOfRule by.now.world.now.lexicon by.now.rules.now by.now.params
        left.now right.now) table.new by.now.world.now.lexicon) }
    ensures extends { Extends table.old table.new }
{
    match property_requirement(by.world, left, right, t) {
        Some(r) => Ok(Some(r)),
        None => same_type_requirement(by, table, left, t),
    }
}

/// The requirement of a rule of the reduced system, or None where it has none. Its left side is minimal and its right side least.
pub(crate) fn rule_requirement(
    by: &Reader<'_, '_>,
    table: &mut ParamTable,
    rule: &Rule,
) -> Result<Option<Requirement>, AllocError>
    requires { IsReduced (Links by.now.rules.now) rule.now }
    ensures requirement { IfOk result (Finds
        (IsRequirementOfRule by.now.world.now.lexicon by.now.rules.now by.now.params
        rule.now.left rule.now.right) table.new by.now.world.now.lexicon) }
    ensures extends { Extends table.old table.new }
{
    let left = rule.left.symbols();
    let right = rule.right.symbols();
    let at = type_of(by, table, right)?;
    match at {
        None => Ok(None),
        Some(t) => requirement_at(by, table, left, right, t),
    }
}
