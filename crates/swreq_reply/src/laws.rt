//! What holds of the verdicts on inputs.
ghost use Rattle.std.specs.Prelude.{◌≡◌, ◌≢◌, ◌≤◌, [], Contains, List, length};
ghost use Rattle.swreq_valid.specs.swreq_watch.declared.events.Event.{Event};
ghost use Rattle.swreq_print.specs.Names.{Text};
ghost use Rattle.swreq_print.specs.swreq_derive.Derivation.{TermRequirement};
ghost use Rattle.swreq_print.specs.swreq_lowering.{Queries.{TermQuery}, Queries.TermAsks.{AsksRequirement}};
ghost use Rattle.swreq_valid.specs.swreq_world.Worlds.{TextWorld};
ghost use Rattle.swreq_query.specs.Ended.{IsWorldOfText};
ghost use Rattle.swreq_verify.specs.{declared.judging.Judgement.TheVariants.{Derived}, Judgements.{IsJudged}, SecondParts.{TermSection}};
ghost use Rattle.swreq_words.specs.{declared.command.Command.TheVariants.{Verify}, declared.command.CommandLine.{CommandLine}};
ghost use Rattle.swreq_reply.specs.{declared.outcome.Outcome.{Outcome}, Commands.{content_of}, Explained.{IsLaidUnderYes}, Inputs.{AreParts, Parts, second_at}, Replies.{TellsPart}, Verdict.{IsRefused, IsVerdict}};
ghost use Rattle.swreq_check.specs.{declared.content.Backing.TheVariants.{Derivation}, Contents.{backing_of}, QueryLines.{IsDerivationText}};

/// An input with this source text, and with its second part from this offset on, that is refused has no other verdict.
pub fn one_verdict(input: &[u8], source: &[u8], from: u32)
    requires { from ≤ length input.now }
    ensures { (line : CommandLine) (p : Parts) → AreParts line.command input.now p
        → p.source ≡ source.now → second_at p ≡ from
        → (o q : Outcome) (told also : List Event) → IsRefused line input.now o told
        → IsVerdict line input.now q also → q ≡ o }
{
    swreq_valid::lex::one_reading(source);
    swreq_print::decl::one_skeleton(source);
    swreq_print::decl::one_verdict(source);
    swreq_valid::world::world_is_one(source);
    swreq_valid::lex::one_reading_from(input, from);
    swreq_print::decl::one_list_of_calls(input, from);
    swreq_print::decl::one_verdict_on_calls(input, from);
}

/// An input with this source text, and with its second part from this offset on, has at most one outcome with status 0. The derivations of
/// `explain` alone may be others.
pub fn one_output(input: &[u8], source: &[u8], from: u32)
    requires { from ≤ length input.now }
    ensures { (line : CommandLine) (p : Parts) → AreParts line.command input.now p
        → p.source ≡ source.now → second_at p ≡ from
        → backing_of (content_of line) ≢ Derivation
        → (o q : Outcome) (told also : List Event) → IsVerdict line input.now o told
        → IsVerdict line input.now q also
        → o.status ≡ 0 → q.status ≡ 0 → q ≡ o }
{
    swreq_print::decl::one_skeleton(source);
    swreq_valid::world::world_is_one(source);
    swreq_valid::world::signatures_are_found_by_name(source);
    swreq_print::laws::names_tell_ids_apart(source);
    swreq_print::decl::one_list_of_calls(input, from);
}

/// With `verify` nothing is told, whether the input has a verdict or memory runs out.
pub fn verify_tells_nothing()
    ensures verdict { (line : CommandLine) (input : Text) (o : Outcome) (told : List Event)
        → line.command ≡ Verify
        → IsVerdict line input o told → told ≡ [] }
    ensures part { (line : CommandLine) (input : Text) (told : List Event) → line.command ≡ Verify
        → TellsPart line input told → told ≡ [] }
{}

/// What `explain` prints after a `yes`, `verify` calls `ok` under the same query: after a line `yes` it is a section, and of each section
/// that is laid so `ok` is said. A second part has at most 1,048,576 bytes.
pub fn explained_is_ok(text: &[u8])
    ensures section { (w : TextWorld) (q : TermQuery) (r : TermRequirement) (behind : Text)
        → IsWorldOfText text.now w → Contains w.queries q → q.asks ≡ AsksRequirement r
        → IsDerivationText w q.f r behind → length behind ≤ 1048576
        → (s : TermSection) × IsLaidUnderYes w behind s }
    ensures ok { (w : TextWorld) (q : TermQuery) (r : TermRequirement) (behind : Text)
        (s : TermSection)
        → IsWorldOfText text.now w → Contains w.queries q → q.asks ≡ AsksRequirement r
        → IsDerivationText w q.f r behind → length behind ≤ 1048576 → IsLaidUnderYes w behind s
        → IsJudged w q s Derived }
{
    swreq_print::lowering::lists_are_short(text);
    swreq_valid::world::worlds_are_closed(text);
    swreq_valid::world::worlds_are_short(text);
    swreq_print::laws::names_tell_ids_apart(text);
    swreq_lines::laws::names_are_of_one_line(text);
}
