//! What holds of the names of each text, and of the bytes of each word.

ghost use Rattle.std.specs.Prelude.{◌≡◌, List, ℕ, Contains, map};
ghost use Rattle.swreq_lex.specs.{declared.token.TokenKind.TheVariants.{Name}, Slices.{IsSpelled, IsSpelledWord}};
ghost use Rattle.swreq_decl.specs.{declared.skeleton.Skeleton.{Skeleton}, Skeletons.{StandsFor}};
ghost use Rattle.swreq_names.specs.{Mentioned.{mentioned}, Names.{HasDeclared, NamesView}, Spaces.{word}, WordBytes.{HasWordBytes}};

use swreq_lex::laws::tokens_are_slices;

/// The names of protocols, of associated types and of members are spelled as names: each is a word, and not a reserved one.
pub fn names_are_words(text: &[u8])
    ensures protocols { (s : Skeleton) → StandsFor text.now s
        → (name : List ℕ)
        → Contains (map (λ p. word text.now p.name) s.protocols) name → IsSpelled Name name }
    ensures members { (s : Skeleton) → StandsFor text.now s
        → (name : List ℕ) → Contains (mentioned text.now s) name → IsSpelled Name name }
{
    tokens_are_slices(text);
}

/// The bytes of a word are letters, digits and `_`, and bytes of characters beyond ASCII.
pub fn words_have_word_bytes()
    ensures { (bytes : List ℕ) → IsSpelledWord bytes → HasWordBytes bytes }
{}

/// A skeleton has at most one view of its names: what it declares, the lists of direct inheritance, and which protocol inherits which.
pub fn names_are_one(text: &[u8])
    ensures { (s : Skeleton) (m n : NamesView) → HasDeclared text.now s m
        → HasDeclared text.now s n → m ≡ n }
{}
