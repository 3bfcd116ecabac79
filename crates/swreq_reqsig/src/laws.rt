//! Laws on requirement signatures, over the definitions alone.
ghost use Rattle.std.specs.Prelude.{◌≡◌, ◌++◌, ◌∷◌, [], ℕ, List};
ghost use Rattle.swreq_valid.specs.swreq_derive.{Kept.{DeriveTheSame, Keeps, Owned}, WellFormed.{AreProtocolsWellFormed}};
ghost use Rattle.swreq_valid.specs.swreq_symbols.Meaning.{facts_of};
ghost use Rattle.swreq_valid.specs.swreq_world.{Closed.{IsClosed}, Worlds.{TextWorld}};
ghost use Rattle.swreq_valid.specs.Sides.{HoldsOfEach, IsValidSide, protocol_sides};
ghost use Rattle.swreq_reqsig.specs.{Families.{AreRequirementSignatures, IsGivenFamily, associated_types_of, members, owned}, Reaching.{ConformsByReach, DerivesByReach, FlagsGivePart}, Saying.{UnsaidIsNotDerivable}};

/// What is left of the requirements, going through them by flags, is what is kept of their list.
pub fn given_family_is_kept()
    ensures { (w : TextWorld) (kept : List (List ℕ)) → IsGivenFamily w kept
        → Keeps (associated_types_of w) [] (owned w) (members w kept) }
{}

/// Going through the requirements leaves one family.
pub fn given_family_is_one()
    ensures { (w : TextWorld) (kept others : List (List ℕ)) → IsGivenFamily w kept
        → IsGivenFamily w others → kept ≡ others }
{}

/// With any member of a family of requirement signatures left out not the same is derivable from each protocol.
pub fn requirement_signatures_lack_nothing()
    ensures { (w : TextWorld) (family before after : List Owned) (o : Owned)
        → AreRequirementSignatures w family → family ≡ before ++ (o ∷ after)
        → DeriveTheSame (associated_types_of w) (before ++ after) family → ⊥ }
{}

/// Protocols are well formed where each side of what they require is a type parameter.
pub fn valid_sides_are_well_formed()
    ensures { (w : TextWorld) → IsClosed w
        → HoldsOfEach (IsValidSide (facts_of w)) (protocol_sides w)
        → AreProtocolsWellFormed (facts_of w) }
{}

/// From `[τ_0_0 : P]` just the same statements are derivable with a family and with its part that P reaches.
pub fn reached_part_derives_the_same()
    ensures { DerivesByReach }
{}

/// No conformance is derivable from `[τ_0_0 : P]` to a protocol that P does not reach.
pub fn conformances_are_to_reached_protocols()
    ensures { ConformsByReach }
{}

/// The flags of the part that a protocol reaches give that part.
pub fn reached_flags_give_the_part()
    ensures { FlagsGivePart }
{}

/// A requirement of which a family says nothing of the kind is not derivable from it.
pub fn unsaid_requirements_are_not_derivable()
    ensures { UnsaidIsNotDerivable }
{}
