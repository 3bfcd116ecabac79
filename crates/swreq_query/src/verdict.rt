//! Whether a requirement is derivable.
ghost use Rattle.std.specs.Prelude.{◌≡◌, List, length};
ghost use Rattle.swreq_print.specs.swreq_derive.{Derivation.{TermRequirement}, Derivation.TermRequirement.{Equals}, Facts.{requirement_of}};
ghost use Rattle.swreq_machine.specs.swreq_map.Follows.{IsMapOf};
ghost use Rattle.swreq_print.specs.swreq_lexicon.Views.{LexiconView};
ghost use Rattle.swreq_print.specs.swreq_lowering.declared.ids.Asks.TheVariants as asked;
ghost use Rattle.swreq_machine.specs.swreq_symbols.Texts.{term_of, world_of};
ghost use Rattle.swreq_machine.specs.{Asked.{HasRoomFor, IsDerivable}, Having.{IsBelow, has}, Machines.{IsMachineOf}};
ghost use Rattle.swreq_machine.specs.swreq_valid.Rounds.{last_rules};
ghost use Rattle.swreq_query.specs.{Answers.{IsAnswered, answer_line}, Asked.{HasRoomToAnswer, answer_of, verdict_of}};

use swreq_machine::map::PropertyMap;
use swreq_machine::symbols::Text;
use swreq_machine::{Machine, Property, Scratch};
use swreq_print::derive::Requirement;
use swreq_print::param::TermId;

/// The answer to a query of a requirement.
#[derive(Clone, Copy, Debug, PartialEq, Eq)]
pub enum Verdict {
    /// A side is not valid.
    Invalid,
    /// The requirement is derivable.
    Yes,
    /// The sides are valid, and the requirement is not derivable.
    No,
}

impl Verdict {
    /// Its line, with the line feed.
    pub fn line(self) -> &'static [u8]
        ensures { (x : LexiconView) → result.now ≡ answer_line x (answer_of self) }
    {
        match self {
            Verdict::Invalid => b"invalid\n",
            Verdict::Yes => b"yes\n",
            Verdict::No => b"no\n",
        }
    }
}

/// The verdict where a side is not valid, or where the sides are and this is whether the requirement is derivable.
fn verdict_of(derivable: Option<bool>) -> Verdict
    ensures { result ≡ verdict_of derivable }
{
    match derivable {
        None => Verdict::Invalid,
        Some(true) => Verdict::Yes,
        Some(false) => Verdict::No,
    }
}

/// Whether t is valid and has the property.
fn judge_property(
    text: &Text<'_>,
    machine: &Machine,
    map: &PropertyMap,
    t: TermId,
    property: Property,
    scratch: &mut Scratch,
) -> Verdict
    requires t { HasRoomFor text.now scratch.old t }
    requires map { IsMapOf (last_rules machine.now.rounds) map.now }
    requires property { IsBelow map.now.protocols property }
    ensures answer { (list : List TermRequirement)
        → IsMachineOf (world_of text.now) list machine.now
        → IsAnswered (IsDerivable (world_of text.now) machine.now list)
        (has (term_of text.now t) property) (answer_of result) }
    ensures room { scratch.new.room ≡ scratch.old.room }
{
    verdict_of(machine.has(text, map, t, property, scratch))
}

/// Whether a and b are valid and equal.
fn judge_equality(
    text: &Text<'_>,
    machine: &Machine,
    a: TermId,
    b: TermId,
    scratch: &mut Scratch,
) -> Verdict
    requires a { HasRoomFor text.now scratch.old a }
    requires b { HasRoomFor text.now scratch.old b }
    ensures answer { (list : List TermRequirement)
        → IsMachineOf (world_of text.now) list machine.now
        → IsAnswered (IsDerivable (world_of text.now) machine.now list)
        (Equals (term_of text.now a) (term_of text.now b))
        (answer_of result) }
    ensures room { scratch.new.room ≡ scratch.old.room }
{
    verdict_of(machine.are_equal(text, a, b, scratch))
}

/// The verdict on a requirement, from every list of which m is the machine.
///
/// The map is that of the rules of m, and the scratch has room for each side.
pub fn judge(
    text: &Text<'_>,
    machine: &Machine,
    map: &PropertyMap,
    requirement: Requirement,
    scratch: &mut Scratch,
) -> Verdict
    requires requirement { HasRoomToAnswer text.now scratch.old (asked.Requirement requirement) }
    requires map { IsMapOf (last_rules machine.now.rounds) map.now }
    requires protocols { map.now.protocols ≡ length text.now.world.now.lexicon.protocols }
    ensures answer { (list : List TermRequirement)
        → IsMachineOf (world_of text.now) list machine.now
        → IsAnswered (IsDerivable (world_of text.now) machine.now list)
        (requirement_of text.now.table.now requirement) (answer_of result) }
    ensures room { scratch.new.room ≡ scratch.old.room }
{
    match requirement {
        Requirement::Conf { subject, proto } => judge_property(
            text,
            machine,
            map,
            subject,
            Property::Protocol(proto),
            scratch,
        ),
        Requirement::Layout { subject } => judge_property(
            text,
            machine,
            map,
            subject,
            Property::Layout,
            scratch,
        ),
        Requirement::Same { left, right } => judge_equality(text, machine, left, right, scratch),
    }
}
