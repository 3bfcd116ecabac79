//! Laws on the printed texts, over the definitions alone.

ghost use Rattle.std.specs.Prelude.{◌≡◌, List};
ghost use Rattle.swreq_lexicon.specs.swreq_decl.{declared.skeleton.Skeleton.{Skeleton}, Skeletons.{StandsFor}};
ghost use Rattle.swreq_lexicon.specs.swreq_derive.Derivation.{TermRequirement};
ghost use Rattle.swreq_print.specs.{Reading.{IsReadableSignature, TellsApart}, Signatures.{signature_text}};
ghost use Rattle.swreq_lexicon.specs.{Texts.{IsLexiconOf}, Views.{LexiconView}};

use swreq_lexicon::param::ParamId;

/// The text of a signature determines its generic parameters and its requirements: two signatures of one text that print alike are one.
pub fn texts_tell_signatures_apart()
    ensures params { (x : LexiconView) (params others : List ParamId) (rs qs : List TermRequirement)
        → TellsApart x
        → IsReadableSignature x params rs → IsReadableSignature x others qs
        → signature_text x params rs ≡ signature_text x others qs → params ≡ others }
    ensures requirements { (x : LexiconView) (params others : List ParamId)
        (rs qs : List TermRequirement) → TellsApart x
        → IsReadableSignature x params rs → IsReadableSignature x others qs
        → signature_text x params rs ≡ signature_text x others qs → rs ≡ qs }
{}

/// The names of each text tell its protocols, its names of members and its associated types apart, and have none of the bytes that
/// stand between them in printed texts.
pub fn names_tell_ids_apart(text: &[u8])
    ensures { (s : Skeleton) (x : LexiconView) → StandsFor text.now s
        → IsLexiconOf text.now s x → TellsApart x }
{}

/// So in each text the signature that is printed determines its generic parameters and its requirements.
pub fn signatures_of_a_text_are_told_apart(text: &[u8])
    ensures params { (s : Skeleton) (x : LexiconView) (params others : List ParamId)
        (rs qs : List TermRequirement)
        → StandsFor text.now s → IsLexiconOf text.now s x → IsReadableSignature x params rs
        → IsReadableSignature x others qs
        → signature_text x params rs ≡ signature_text x others qs → params ≡ others }
    ensures requirements { (s : Skeleton) (x : LexiconView) (params others : List ParamId)
        (rs qs : List TermRequirement)
        → StandsFor text.now s → IsLexiconOf text.now s x → IsReadableSignature x params rs
        → IsReadableSignature x others qs
        → signature_text x params rs ≡ signature_text x others qs → rs ≡ qs }
{
    names_tell_ids_apart(text);
    texts_tell_signatures_apart();
}
