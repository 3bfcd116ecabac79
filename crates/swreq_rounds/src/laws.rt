//! Laws on rounds, over the definitions alone.
ghost use Rattle.std.specs.Prelude.{◌↔◌, List, Contains};
ghost use Rattle.swreq_correspondence.specs.swreq_param.{declared.ids.ParamId.{ParamId}, declared.ids.ProtoId.{ProtoId}};
ghost use Rattle.swreq_correspondence.specs.swreq_derive.{Derivation.{TermRequirement, TermFacts}, Derivation.Source.{Written}};
ghost use Rattle.swreq_complete.specs.swreq_rule.declared.rules.Rule.{Rule};
ghost use Rattle.swreq_complete.specs.swreq_watch.declared.events.Event.{Event};
ghost use Rattle.swreq_complete.specs.declared.limit.Limits.{Limits};
ghost use Rattle.swreq_correspondence.specs.{Symbols.{Symbols, AreSymbolsOf, AreOfText, IsInText}, Equations.{UsableOf, UsableIn}};
ghost use Rattle.swreq_rounds.specs.{Plan.{Item, Plan}, Given.{protocols_plan, list_plan, of_self, of_list}, Rounds.{IsLastRound}, Presents.{AreProtocolRules, AreListRules}, Laws.{OutcomesAreOne, PartsAreFronts}};

/// Unless memory runs out, rounds come out in one way and tell one list of events.
pub fn outcomes_are_one()
    ensures { (limits : Limits) (plan : Plan) → OutcomesAreOne limits plan }
{}

/// What rounds tell until memory runs out is a front of what they tell in all.
pub fn parts_are_fronts()
    ensures { (limits : Limits) (plan : Plan) → PartsAreFronts limits plan }
{}

/// The last round of the protocols uses exactly the usable requirements, and its rules stand for their equations.
pub fn last_round_of_protocols()
    ensures used { (m : Symbols) (f : TermFacts) (limits : Limits) (used : List Item)
        (rules : List Rule) (told : List Event)
        → AreSymbolsOf m f → AreOfText m f → IsLastRound limits (protocols_plan m f) used rules told
        → (p : ProtoId) (r : TermRequirement) → Contains used (of_self p r) ↔ UsableOf f p r }
    ensures rules { (m : Symbols) (f : TermFacts) (limits : Limits) (used : List Item)
        (rules : List Rule) (told : List Event)
        → AreSymbolsOf m f → AreOfText m f → IsLastRound limits (protocols_plan m f) used rules told
        → AreProtocolRules m f rules }
{}

/// Over the rules of the protocols, the last round of a list uses just its usable members, and its rules stand for the equations of
/// these and of the usable requirements of the protocols.
pub fn last_round_of_list()
    ensures used { (m : Symbols) (f : TermFacts) (limits : Limits) (base : List Rule)
        (gs : List ParamId) (rs : List TermRequirement)
        (used : List Item) (rules : List Rule) (told : List Event)
        → AreSymbolsOf m f → AreOfText m f → IsInText m (Written gs rs) → AreProtocolRules m f base
        → IsLastRound limits (list_plan m f base gs rs) used rules told
        → (r : TermRequirement) → Contains used (of_list gs rs r) ↔ UsableIn f (Written gs rs) r }
    ensures rules { (m : Symbols) (f : TermFacts) (limits : Limits) (base : List Rule)
        (gs : List ParamId) (rs : List TermRequirement)
        (used : List Item) (rules : List Rule) (told : List Event)
        → AreSymbolsOf m f → AreOfText m f → IsInText m (Written gs rs) → AreProtocolRules m f base
        → IsLastRound limits (list_plan m f base gs rs) used rules told
        → AreListRules m f gs rs rules }
{}
