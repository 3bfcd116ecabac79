//! Worked type parameters, in their order.
//!
//! Nothing is computed: the clauses are theorems on the type parameters of `specs/Worked.antt`.
ghost use Rattle.std.specs.Prelude.{[], ◌∷◌};
ghost use Rattle.swreq_param.specs.Worked.{◌·◌, S, T, Inner, Element, Iterator, Element_of_IteratorProtocol, Element_of_Sequence, Iterator_of_Sequence, AreInOrder};

/// Fewer members come first, then the base goes before the last step, bound steps before unbound
/// ones, and names before protocols.
pub fn type_parameters_in_order()
    ensures { AreInOrder (S ∷ T ∷ Inner
        ∷ S · Element_of_IteratorProtocol ∷ S · Element_of_Sequence ∷ S · Iterator_of_Sequence
        ∷ S · Element ∷ S · Iterator ∷ T · Element_of_Sequence
        ∷ S · Element_of_Sequence · Element ∷ []) }
{}
