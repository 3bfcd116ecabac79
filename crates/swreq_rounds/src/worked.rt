//! A worked text: which equations its rounds complete, in which order.
//!
//! The text and its lists stand in `specs/Worked.antt`. Nothing is computed: the clauses are theorems.
ghost use Rattle.std.specs.Prelude.{◌≡◌, List, [], ◌∷◌, ◌++◌};
ghost use Rattle.swreq_complete.specs.swreq_rule.declared.rules.Rule.{Rule};
ghost use Rattle.swreq_correspondence.specs.swreq_param.Terms.{self};
ghost use Rattle.swreq_complete.specs.swreq_word.declared.symbols.Symbol.TheVariants.{Proto};
ghost use Rattle.swreq_correspondence.specs.swreq_derive.{Derivation.TermRequirement.{Conforms, IsAnyObject, Equals}, Worked.{◌·◌}};
ghost use Rattle.swreq_correspondence.specs.Symbols.{AreSymbolsOf, AreOfText};
ghost use Rattle.swreq_rounds.specs.{Plan.{given}, Given.{protocols_plan, list_plan, of_self}, Worked.{Leaf, Tree, Color, Label, Next, Parent, trees, trees_symbols, trees_basic, trees_required, f_params, f_requirements, f_equations}};

/// `protocol Tree { associatedtype Parent: AnyObject; associatedtype Label: Tree }`,
/// `protocol Leaf: Tree { associatedtype Next where Next == Label; associatedtype Color: Leaf }` and
/// `func f<T: Leaf, U>() where T.Color == U`: the first round of the protocols completes the basic equations, for each protocol as the text
/// has them and by the names of its members; a round that uses all requirements completes these and then the equations of the
/// requirements, as the text has them. A round of the list of f that uses all of it completes its equations alone.
pub fn order_of_equations()
    ensures symbols { AreSymbolsOf trees_symbols trees }
    ensures of_text { AreOfText trees_symbols trees }
    ensures first_round { given (protocols_plan trees_symbols trees) [] ≡ trees_basic }
    ensures requirements { (protocols_plan trees_symbols trees).all
        ≡ of_self Tree (IsAnyObject (self · Parent)) ∷ of_self Tree (Conforms (self · Label) Tree)
        ∷ of_self Leaf (Conforms self Tree) ∷ of_self Leaf (Equals (self · Next) (self · Label))
        ∷ of_self Leaf (Conforms (self · Color) Leaf) ∷ [] }
    ensures all_used { given (protocols_plan trees_symbols trees)
        (protocols_plan trees_symbols trees).all
        ≡ trees_basic ++ trees_required }
    ensures some_used { given (protocols_plan trees_symbols trees)
        (of_self Leaf (Conforms self Tree) ∷ [])
        ≡ trees_basic ++ (Proto 0 ∷ Proto 1 ∷ [], Proto 0 ∷ []) ∷ [] }
    ensures list { (base : List Rule)
        → given (list_plan trees_symbols trees base f_params f_requirements)
        (list_plan trees_symbols trees base f_params f_requirements).all ≡ f_equations }
{}
