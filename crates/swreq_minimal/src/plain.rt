//! Type parameters that are plain in a list.
ghost use Rattle.std.specs.Prelude.{◌≡◌, ◌<◌, Contains, IsTrue, List, length};
ghost use Rattle.swreq_machine.specs.swreq_param.{declared.ids.ParamId.{ParamId}, declared.ids.ProtoId.{ProtoId}, declared.ids.Step.TheVariants.{Bound}, Terms.Term.{Member}};
ghost use Rattle.swreq_machine.specs.swreq_derive.{Derivation.TermRequirement.{Conforms}, Facts.{generic_params, requirement_of}, Inheritance.{LeadsTo}};
ghost use Rattle.swreq_machine.specs.swreq_lexicon.Views.{IsProtocol};
ghost use Rattle.swreq_candidates.specs.Evidence.{HasPlainTypes, IsPlain, IsPlainIn};
ghost use Rattle.swreq_machine.specs.swreq_symbols.{Meaning.{facts_of}, Texts.{IsRequirementOfText, IsTypeOfText, term_of, world_of}};
ghost use Rattle.swreq_machine.specs.swreq_world.Closed.{IsStepOf};
ghost use Rattle.swreq_minimal.specs.TextLists.{facts_by, said_by};

use crate::text_lists::TextList;
use swreq_machine::derive::Requirement;
use swreq_machine::param::{AssocId, ProtoId, Step, TermId};
use swreq_machine::symbols::Text;

/// Whether a protocol is p, or inherits it.
fn leads(text: &Text<'_>, q: ProtoId, p: ProtoId) -> bool
    requires q { IsProtocol text.now.world.now.lexicon q }
    requires p { IsProtocol text.now.world.now.lexicon p }
    ensures { IsTrue result → LeadsTo (facts_of (world_of text.now)) q p }
{
    if q.rank == p.rank {
        return true;
    }
    text.world.inherits(q, p)
}

/// Whether a requirement is a conformance of t to p, or to a protocol that inherits p.
fn says_conformance(text: &Text<'_>, r: Requirement, t: TermId, p: ProtoId) -> bool
    requires r { IsRequirementOfText text.now r }
    requires p { IsProtocol text.now.world.now.lexicon p }
    ensures { IsTrue result → (q : ProtoId)
        × (requirement_of text.now.table.now r ≡ Conforms (term_of text.now t) q)
        × LeadsTo (facts_of (world_of text.now)) q p }
{
    match r {
        Requirement::Conf { subject, proto } => {
            if subject == t {
                leads(text, proto, p)
            } else {
                false
            }
        }
        _ => false,
    }
}

/// Whether the list holds a conformance of t to p, or to a protocol that inherits p.
fn holds_conformance(among: &TextList<'_, '_>, t: TermId, p: ProtoId) -> bool
    requires { IsProtocol among.now.text.world.now.lexicon p }
    ensures { IsTrue result → (q : ProtoId)
        × Contains (said_by among.now) (Conforms (term_of among.now.text t) q)
        × LeadsTo (facts_by among.now) q p }
{
    for k in 0..among.list.len() {
        let r = among.list[k];
        if says_conformance(&among.text, r, t, p) {
            return true;
        }
    }
    false
}

/// Whether t with this associated type after it is plain in the list where t is. True comes only where it is.
fn gives_assoc(among: &TextList<'_, '_>, t: TermId, d: AssocId) -> bool
    requires { d.rank < length among.now.text.world.now.lexicon.associated }
    ensures { IsTrue result → (ps : List ParamId)
        → IsPlainIn (facts_by among.now) ps (said_by among.now)
        (term_of among.now.text t)
        → IsPlainIn (facts_by among.now) ps (said_by among.now)
        (Member (term_of among.now.text t) (Bound d)) }
{
    let declared = among.text.world.assoc(d);
    holds_conformance(among, t, declared.proto)
}

/// Whether t with this step after it is plain in the list where t is. True comes only where it is.
fn gives_step(among: &TextList<'_, '_>, t: TermId, step: Step) -> bool
    requires { IsStepOf among.now.text.world.now.lexicon step }
    ensures { IsTrue result → (ps : List ParamId)
        → IsPlainIn (facts_by among.now) ps (said_by among.now)
        (term_of among.now.text t)
        → IsPlainIn (facts_by among.now) ps (said_by among.now)
        (Member (term_of among.now.text t) step) }
{
    match step {
        Step::Bound(d) => gives_assoc(among, t, d),
        Step::Name(_) => false,
    }
}

/// Whether t is plain in the list. True comes only where it is.
fn is_plain(among: &TextList<'_, '_>, t: TermId) -> bool
    requires { IsTypeOfText among.now.text t }
    ensures { IsTrue result
        → IsPlainIn (facts_by among.now) (generic_params among.now.params)
        (said_by among.now) (term_of among.now.text t) }
{
    let mut at = t;
    for _ in 0..u32::MAX {
        match among.text.table.split(at) {
            None => return among.params.has(among.text.table.head(at)),
            Some((base, step)) => {
                if !gives_step(among, base, step) {
                    return false;
                }
                at = base;
            }
        }
    }
    false
}

/// Whether the type parameters of a requirement are plain in the list. True comes only where they are.
pub(crate) fn has_plain_types(among: &TextList<'_, '_>, r: Requirement) -> bool
    requires { IsRequirementOfText among.now.text r }
    ensures { IsTrue result → HasPlainTypes (facts_by among.now)
        (generic_params among.now.params) (said_by among.now)
        (requirement_of among.now.text.table.now r) }
{
    match r {
        Requirement::Conf { subject, .. } => is_plain(among, subject),
        Requirement::Layout { subject } => is_plain(among, subject),
        Requirement::Same { left, right } => {
            if is_plain(among, left) {
                is_plain(among, right)
            } else {
                false
            }
        }
    }
}

/// Whether the type parameters of the list are plain in it. True comes only where they are.
pub(crate) fn are_plain(among: &TextList<'_, '_>) -> bool
    ensures { IsTrue result → IsPlain (facts_by among.now)
        (generic_params among.now.params) (said_by among.now) }
{
    for k in 0..among.list.len() {
        let r = among.list[k];
        if !has_plain_types(among, r) {
            return false;
        }
    }
    true
}
