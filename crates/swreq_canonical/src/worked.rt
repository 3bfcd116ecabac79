//! Worked texts: their canonical requirements, generators and minimised lists.
//!
//! Each function is one text, whose facts and lists stand in `specs/Worked.antt` here and in `swreq_derive`. Nothing is computed: the
//! clauses are theorems.
ghost use Rattle.std.specs.Prelude.{[], Contains};
ghost use Rattle.swreq_derive.specs.{Derivation.{TermRequirement}, Derivation.TermRequirement.{Conforms, IsAnyObject, Equals}, Equivalence.{AreEquivalent}, Worked.{◌·◌, bound, of_one, of_two, τ_0_0, τ_0_1, P, A, A_of_P, A_of_Q, shared, shared_f, layouts, layouts_f, members}};
ghost use Rattle.swreq_canonical.specs.{Canonical.{IsCanonical}, CanonicalOrder.{IsStrictlySorted}, Generators.{IsGenerator, IsGeneratorList}, Minimised.{Leaves, IsMinimised}, Worked.{one, two, inherited, inherited_f, inherited_g, members_h, members_left, layouts_canonical, layouts_minimised}};

/// `protocol Base { }`, `protocol Derived: Base { }`, `func f<T: Base & Derived>()` and `func g<T: Derived>()`: equivalent lists. Both
/// conformances are generators, since the one to `Base` comes first, and then that one is dropped.
pub fn conformance_by_inheritance()
    ensures equivalent { AreEquivalent inherited one inherited_f inherited_g }
    ensures generators { IsGeneratorList inherited one inherited_g inherited_f }
    ensures minimised { IsMinimised inherited one inherited_f inherited_g }
    ensures itself { IsMinimised inherited one inherited_g inherited_g }
{}

/// `protocol P: AnyObject { }` and `func f<T: P, U>() where U == T`: a conformance of U and the equality with the greater side on its left
/// are not canonical. The layout is, but it is not a generator, since it follows from the conformance. The conformance and the equality are
/// the generators, and both are left.
pub fn equal_parameters()
    ensures canonical { (r : TermRequirement) → Contains layouts_canonical r
        → IsCanonical layouts (of_two layouts_f) r }
    ensures sorted { IsStrictlySorted layouts_canonical }
    ensures of_greater { IsCanonical layouts (of_two layouts_f) (Conforms τ_0_1 P) → ⊥ }
    ensures greater_on_left { IsCanonical layouts (of_two layouts_f) (Equals τ_0_1 τ_0_0) → ⊥ }
    ensures to_itself { IsCanonical layouts (of_two layouts_f) (Equals τ_0_0 τ_0_0) → ⊥ }
    ensures generator { IsGenerator layouts two layouts_f (Conforms τ_0_0 P) }
    ensures no_generator { IsGenerator layouts two layouts_f (IsAnyObject τ_0_0) → ⊥ }
    ensures generators { IsGeneratorList layouts two layouts_f layouts_minimised }
    ensures minimised { IsMinimised layouts two layouts_f layouts_minimised }
{}

/// `protocol P { associatedtype A }`, `protocol Q { associatedtype A }` and `func f<T: P & Q>()`: the equality of the two bound members is
/// canonical, but it is not a generator, since it follows from the conformances. That of a bound and an unbound member is not canonical.
pub fn one_name_in_two_protocols()
    ensures bounds { IsCanonical shared (of_one shared_f)
        (Equals (bound τ_0_0 A_of_P) (bound τ_0_0 A_of_Q)) }
    ensures unbound { IsCanonical shared (of_one shared_f) (Equals (bound τ_0_0 A_of_P) (τ_0_0 · A))
        → ⊥ }
    ensures no_generator { IsGenerator shared one shared_f
        (Equals (bound τ_0_0 A_of_P) (bound τ_0_0 A_of_Q)) → ⊥ }
{
    swreq_derive::worked::one_name_in_two_protocols();
}

/// `protocol P { associatedtype A }` and `func h<T: P, U: P>() where T == U`: each conformance is derivable from the other and the
/// equality, and only the later one is dropped.
pub fn later_one_is_dropped()
    ensures { Leaves members two [] members_h members_left }
{}
