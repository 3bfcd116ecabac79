//! Worked texts: words, equations, readings and types of a handful of their type parameters.
//!
//! Each function is one text, whose symbols stand in `specs/Worked.antt`. Nothing is computed: the clauses are theorems.
ghost use Rattle.std.specs.Prelude.{◌≡◌, [], ◌∷◌};
ghost use Rattle.swreq_derive.specs.swreq_param.Terms.{self};
ghost use Rattle.swreq_word.specs.declared.symbols.Symbol.TheVariants.{Proto, Member, Name};
ghost use Rattle.swreq_derive.specs.{Derivation.Source.{SelfOf}, Worked.{◌·◌, bound, of_one, of_two, τ_0_0, N, Next, Next_of_N, endless, endless_f, A, A_of_P, A_of_Q, shared, shared_f, shared_g, Next_of_Late, redeclared, redeclared_f, looped, looped_f, circular, circular_f}};
ghost use Rattle.swreq_correspondence.specs.{Symbols.{Word, AreSymbolsOf, word_of}, Equations.{AreCongruent, UsableEquation}, Readings.{HasReading, reading}, Types.{IsTypeOf}, Worked.{first_param, second_param, endless_symbols, shared_symbols, redeclared_symbols, looped_symbols, circular_symbols, inherited, inherited_f, inherited_symbols}};

/// `protocol N { associatedtype Next: N }` and `func f<T: N>()`, where `Missing` has the rank 0 and `Next` the rank 1.
pub fn members_without_end()
    ensures names { word_of endless_symbols (of_one endless_f) (τ_0_0 · Next · Next)
        ≡ first_param ∷ Name 1 ∷ Name 1 ∷ [] }
    ensures bounds { word_of endless_symbols (of_one endless_f) (bound (τ_0_0 · Next) Next_of_N)
        ≡ first_param ∷ Name 1 ∷ Member 0 ∷ [] }
    ensures of_self { word_of endless_symbols (SelfOf N) (self · Next) ≡ Proto 0 ∷ Name 1 ∷ [] }
    ensures symbols { AreSymbolsOf endless_symbols endless }

    // The equations, each with its sides as they stand.
    ensures twice { UsableEquation endless_symbols endless (of_one endless_f)
        (Proto 0 ∷ Proto 0 ∷ []) (Proto 0 ∷ []) }
    ensures member { UsableEquation endless_symbols endless (of_one endless_f)
        (Proto 0 ∷ Name 1 ∷ []) (Member 0 ∷ []) }
    ensures of_protocol { UsableEquation endless_symbols endless (of_one endless_f)
        (Proto 0 ∷ Name 1 ∷ Proto 0 ∷ []) (Proto 0 ∷ Name 1 ∷ []) }
    ensures of_list { UsableEquation endless_symbols endless (of_one endless_f)
        (first_param ∷ Proto 0 ∷ []) (first_param ∷ []) }

    // The readings.
    ensures reads { HasReading endless_symbols endless (of_one endless_f)
        (first_param ∷ Member 0 ∷ Name 1 ∷ Proto 0 ∷ []) }
    ensures read_as { reading endless_symbols (first_param ∷ Member 0 ∷ Name 1 ∷ Proto 0 ∷ [])
        ≡ τ_0_0 · Next · Next }
    ensures no_reading { HasReading endless_symbols endless (of_one endless_f)
        (first_param ∷ Name 0 ∷ []) → ⊥ }
    ensures typed { IsTypeOf endless_symbols endless (of_one endless_f)
        (first_param ∷ Member 0 ∷ []) (bound τ_0_0 Next_of_N) }
{}

/// `protocol P { associatedtype A }`, `protocol Q { associatedtype A }`, `func f<T: P & Q>()` and `func g<T: P>()`: the words of the two
/// associated types are congruent where both protocols are there, and the one has no reading where its protocol is not.
pub fn one_name_in_two_protocols()
    ensures congruent { AreCongruent shared_symbols shared (of_one shared_f)
        (word_of shared_symbols (of_one shared_f) (bound τ_0_0 A_of_P))
        (word_of shared_symbols (of_one shared_f) (bound τ_0_0 A_of_Q)) }
    ensures no_reading { HasReading shared_symbols shared (of_one shared_g)
        (first_param ∷ Member 1 ∷ []) → ⊥ }
{
    swreq_derive::worked::one_name_in_two_protocols();
}

/// `protocol Late { associatedtype Next: Late }`, `protocol Early: Late { associatedtype Next: Early }` and `func f<T: Early>()`: the symbol
/// of the protocol that inherits more comes first, and stands for the associated type that is a root.
pub fn name_declared_again()
    ensures word { word_of redeclared_symbols (of_one redeclared_f) (bound τ_0_0 Next_of_Late)
        ≡ first_param ∷ Member 1 ∷ [] }
    ensures typed { IsTypeOf redeclared_symbols redeclared (of_one redeclared_f)
        (first_param ∷ Member 0 ∷ []) (bound τ_0_0 Next_of_Late) }
{}

/// `protocol P { associatedtype B where B == Self }` and `func f<X: P, Y>() where X.B == Y`: the equations of same-type requirements.
pub fn member_that_is_self()
    ensures of_protocol { UsableEquation looped_symbols looped (of_two looped_f)
        (Proto 0 ∷ Name 1 ∷ []) (Proto 0 ∷ []) }
    ensures of_list { UsableEquation looped_symbols looped (of_two looped_f)
        (first_param ∷ Name 1 ∷ []) (second_param ∷ []) }
{}

/// `protocol P { associatedtype A }`, `protocol Q { associatedtype B: P }` and `func f<T>() where T.A: Q, T.A.B == T`: no requirement of the
/// list is usable, so none gives an equation.
pub fn requirements_that_justify_one_another()
    ensures none { (u v : Word)
        → UsableEquation circular_symbols circular (of_one circular_f) (first_param ∷ u) v → ⊥ }
{
    swreq_derive::worked::requirements_that_justify_one_another();
}

/// `protocol Base { associatedtype A }`, `protocol Derived: Base { }` and `func f<T: Derived>()`: a member name that a protocol only inherits
/// has a symbol too, and its type is bound to the protocol that declares it.
pub fn inherited_member_name()
    ensures symbols { AreSymbolsOf inherited_symbols inherited }
    ensures member { UsableEquation inherited_symbols inherited (of_one inherited_f)
        (Proto 1 ∷ Name 0 ∷ []) (Member 0 ∷ []) }
    ensures read_as { reading inherited_symbols (first_param ∷ Member 0 ∷ []) ≡ τ_0_0 · A }
    ensures typed { IsTypeOf inherited_symbols inherited (of_one inherited_f)
        (first_param ∷ Member 0 ∷ []) (bound τ_0_0 A_of_P) }
{}
