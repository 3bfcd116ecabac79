//! What holds of runs and of verdicts on texts, over the definitions alone.
ghost use Rattle.std.specs.Prelude.{◌≡◌, ◌≢◌, ℕ, List, Some, [], map};
ghost use Rattle.swreq_reply.specs.swreq_complete.declared.limit.Limits.{Limits};
ghost use Rattle.swreq_print.specs.swreq_decl.{declared.skeleton.Skeleton.{Skeleton}, Skeletons.{StandsFor}};
ghost use Rattle.swreq_world.specs.swreq_derive.WellFormed.{IsWellFormed};
ghost use Rattle.swreq_world.specs.swreq_resolve.Resolving.{Resolve};
ghost use Rattle.swreq_print.specs.swreq_rule.declared.rules.Rule.{Rule};
ghost use Rattle.swreq_watch.specs.declared.events.Event.{Event};
ghost use Rattle.swreq_words.specs.{declared.command.CommandLine.{CommandLine}, declared.command.Input.TheVariants.{OnePart}, Commands.{input as reads}, Form.{Says}};
ghost use Rattle.swreq_world.specs.{FactsAt.{source_of}, WorldOf.{IsWorldOf}, Worlds.{TextWorld}};
ghost use Rattle.swreq_reply.specs.swreq_symbols.Meaning.{facts_of};
ghost use Rattle.swreq_reply.specs.swreq_valid.declared.refused.Refused.TheVariants.{NotATypeParameter};
ghost use Rattle.swreq_print.specs.Names.{Text};
ghost use Rattle.swreq_reply.specs.swreq_query.Ended.{IsWorldOfText};
ghost use Rattle.swreq_reply.specs.Inputs.{AreParts, Parts};
ghost use Rattle.swreq_reply.specs.swreq_check.Machines.{IsBuiltOver, IsChecked};
ghost use Rattle.swreq_top.specs.{Contract.{IsRun}, InOrder.{IsInOrder}, Run.{IsAnswerable, Run, known_text}};

use swreq_text::laws::some_streams_never_fail;
use swreq_text::{CountSink, Sink, Source, SureSource};

/// A run over the empty text is answerable, whatever the limits are, where its command reads a text of one part.
pub fn empty_text_is_answerable()
    ensures { (r : Run) (line : CommandLine) → Says r.words line → reads line.command ≡ OnePart
        → r.before.left ≡ Some [] → IsAnswerable r }
{}

/// A text that is in the grammar, whose names resolve, in which no protocol inherits itself, and whose world is in order for the command, is
/// answerable. In order is one whose sides are type parameters, for which no rounds stop at a limit, and with the second part that is read.
pub fn texts_in_order_are_answerable()
    ensures { (r : Run) (line : CommandLine) (text : Text) (p : Parts) (s : Skeleton)
        → Says r.words line → known_text line r.before.left ≡ Some text
        → AreParts line.command text p
        → StandsFor p.source s → Resolve p.source s
        → ((w : TextWorld) → IsWorldOf p.source s w → IsInOrder line p w)
        → IsAnswerable r }
{}

/// A text whose check refuses nothing is well formed: each side of each requirement is a type parameter. And no check refuses a side of a text
/// that is well formed.
pub fn checked_texts_are_well_formed()
    ensures formed { (text : Text) (w : TextWorld) (limits : Limits)
        (rules : List Rule) (told : List Event)
        → IsWorldOfText text w → IsBuiltOver limits w rules told
        → IsWellFormed (facts_of w) (map source_of w.signatures) }
    ensures unrefused { (w : TextWorld) (limits : Limits) (at : ℕ) (told : List Event)
        → IsWellFormed (facts_of w) (map source_of w.signatures)
        → IsChecked limits w (Some (NotATypeParameter at)) told → ⊥ }
{}

/// A run over a source and a sink in memory that never fail ends with neither status 4 nor status 5.
pub fn runs_in_memory_never_fail()
    ensures read { (r : Run) (left rest : List ℕ) → IsRun r
        → r.before.read_faults ≡ ⟦<SureSource as Source>⟧.faults left
        → r.after.read_faults ≡ ⟦<SureSource as Source>⟧.faults rest → r.status ≢ 4 }
    ensures write { (r : Run) (old new : ℕ) → IsRun r
        → r.before.write_faults ≡ ⟦<CountSink as Sink>⟧.faults old
        → r.after.write_faults ≡ ⟦<CountSink as Sink>⟧.faults new → r.status ≢ 5 }
{
    some_streams_never_fail();
}

/// A text has at most one world. So what a run says of a world of its text it says of each.
pub fn one_world(text: &[u8])
    ensures { (w v : TextWorld) → IsWorldOfText text.now w → IsWorldOfText text.now v → w ≡ v }
{
    swreq_print::decl::one_skeleton(text);
    swreq_world::laws::world_is_one(text);
}
