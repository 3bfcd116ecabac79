//! What holds of calls.
ghost use Rattle.std.specs.Prelude.{◌≡◌, ◌↔◌, [], ℕ, Contains, List, Some, length, slice_get};
ghost use Rattle.swreq_resolve.specs.swreq_decl.{declared.skeleton.CallDecl.{CallDecl}, declared.skeleton.Skeleton.{Skeleton}, declared.skeleton.TypeDecl.{TypeDecl}, Skeletons.{StandsFor}};
ghost use Rattle.swreq_machine.specs.swreq_param.{declared.ids.ParamId.{ParamId}, Terms.{Term}};
ghost use Rattle.swreq_machine.specs.swreq_derive.{declared.known.Params.{Params}, Derivation.{Derivable, Source, TermFacts, TermRequirement, TermStatement}, Derivation.Source.{Written}, Derivation.TermStatement.{IsValid}, Facts.{generic_params}, Substitution.{substitute_into}};
ghost use Rattle.swreq_resolve.specs.{declared.refusal.Refusal.{Refusal}, Resolving.{Resolve}};
ghost use Rattle.swreq_machine.specs.swreq_lowering.declared.ids.FuncId.{FuncId};
ghost use Rattle.swreq_print.specs.{Names.{Text}, Reading.{TellsApart}};
ghost use Rattle.swreq_resolve.specs.swreq_rank.Ranks.{Bytes};
ghost use Rattle.swreq_machine.specs.swreq_world.{ByTable.{world_by}, Closed.{IsClosed, IsTermOf}, FactsAt.{facts_of, source_of}, WorldOf.{IsWorldOf}, Worlds.{IdWorld, TextWorld, signature_at}};
ghost use Rattle.swreq_subst.specs.{Arguments.{argument_of, param_count, place_of}, Calls.{TermCall}, Failing.{AreFailing, Holds}, Lines.{IsLineOf}, Refusals.{refusals}, Refused.{IsRefused}, Saying.{HasUnknown, HaveIds, SayCalls, SaysType}};

use swreq_machine::world::signatures_are_found_by_name;

/// Where the names of a text resolve, what names refer to has ids in its world.
pub fn names_have_ids(text: &[u8])
    ensures { (terms : List Term) (s : Skeleton) (w : IdWorld) → StandsFor text.now s
        → IsWorldOf text.now s (world_by terms w)
        → Resolve text.now s → HaveIds w }
{
    signatures_are_found_by_name(text);
}

/// The list of the refusals of calls, in the order in which the code looks at them, has exactly their refused names, in a world in which
/// what names refer to has ids.
pub fn refusals_are_the_refused()
    ensures { (w : IdWorld) (text : Bytes) → HaveIds w → (calls : List CallDecl) (r : Refusal)
        → Contains (refusals w text calls) r
        ↔ ((c : CallDecl) × Contains calls c × IsRefused w text c r) }
{}

/// At most one list of calls is written, where names tell ids apart.
pub fn one_list_of_calls()
    ensures { (w : IdWorld) (text : Bytes) → HaveIds w → TellsApart w.lexicon
        → (cs es : List TermCall) (ds : List CallDecl)
        → SayCalls w text cs ds → SayCalls w text es ds → cs ≡ es }
{}

/// What is written and what is refused is the same over the ids of a table and over its type parameters.
pub fn calls_by_table()
    ensures say { (terms : List Term) (w : IdWorld) (text : Bytes)
        (cs : List TermCall) (ds : List CallDecl)
        → SayCalls w text cs ds → SayCalls (world_by terms w) text cs ds }
    ensures refusals { (terms : List Term) (w : IdWorld) (text : Bytes) (ds : List CallDecl)
        → refusals (world_by terms w) text ds ≡ refusals w text ds }
{}

/// A type with a name that the world lacks is no type parameter of it, and each type parameter that is derivable from the list of a
/// signature is one of the world.
pub fn unknown_names_are_not_derivable()
    ensures no_type { (w : IdWorld) (text : Bytes) (f : FuncId) (u : Term) (t : TypeDecl)
        → SaysType w text f u t
        → ¬ (HasUnknown w text t.steps) }
    ensures derivable { (w : TextWorld) (f : FuncId) (u : Term) → IsClosed w
        → Derivable (facts_of w) (source_of (signature_at w f)) (IsValid u) → IsTermOf w.lexicon u }
{}

/// The place of a generic parameter is its place in the order of all, the outer ones first, and there is one type for each.
pub fn arguments_stand_in_order()
    ensures place { (params : Params) (g : ParamId) → Contains (generic_params params) g
        → slice_get (generic_params params) (place_of params g) ≡ Some g }
    ensures count { (params : Params) → length (generic_params params) ≡ param_count params }
{}

/// None fails if and only if each requirement of the callee, with the types put in, is derivable from the caller's list.
pub fn none_fails_where_all_hold()
    ensures { (f : TermFacts) (from : Source) (params : Params) (args : List Term)
        (rs : List TermRequirement) (ns : List ℕ)
        → AreFailing f from params args rs ns
        → (ns ≡ []) ↔ ((r : TermRequirement) → Contains rs r → Holds f from params args r) }
{}

/// Where none fails and the types are derivable, all that is derivable from the callee's list is derivable from the caller's, with the
/// types put in.
pub fn callees_stand_on_callers()
    ensures { (f : TermFacts) (from : Source) (params : Params) (args : List Term)
        (rs : List TermRequirement)
        → AreFailing f from params args rs [] → length args ≡ param_count params
        → ((t : Term) → Contains args t → Derivable f from (IsValid t))
        → (st : TermStatement) → Derivable f (Written (generic_params params) rs) st
        → Derivable f from (substitute_into (argument_of params args) st) }
{}

/// A call has at most one line.
pub fn one_line()
    ensures { (w : TextWorld) (c : TermCall) (a b : Text) → IsLineOf w c a
        → IsLineOf w c b → a ≡ b }
{}
