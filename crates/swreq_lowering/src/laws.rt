//! What holds of the written requirements of each text.
ghost use Rattle.std.specs.Prelude.{ℕ, ◌≤◌, All, AllPairs, Contains, length};
ghost use Rattle.swreq_lexicon.specs.swreq_decl.{declared.skeleton.FunctionDecl.{FunctionDecl}, declared.skeleton.ProtocolDecl.{ProtocolDecl}, declared.skeleton.Skeleton.{Skeleton}, declared.skeleton.StructDecl.{StructDecl}, Skeletons.{StandsFor}};
ghost use Rattle.swreq_lowering.specs.{Heads.{IsOverSelf}, Requirements.{in_function, in_nested, in_protocol, in_struct}, Short.{HasFewRequirements, HasShortLists}, Standing.{InOrder, StandsInOne, of_function, of_nested, of_protocol, of_struct}, Words.{WordsView}};

use swreq_lex::laws::tokens_are_slices;

/// The requirements of a protocol are over `τ_0_0` alone.
pub fn protocols_write_of_self()
    ensures { (w : WordsView) (p : ProtocolDecl)
        → All (λ r. IsOverSelf r.requirement) (in_protocol w p) }
{}

/// Each requirement of a protocol or a signature is one of its constraints, and its sides stand where words of that constraint begin:
/// a bound at the first word of what it is on, the equality of an argument at the protocol's name and at the argument's first word, and
/// any other equality at the first words of its types.
pub fn requirements_stand_at_their_words()
    ensures protocols { (w : WordsView) (p : ProtocolDecl)
        → All (StandsInOne w (of_protocol p)) (in_protocol w p) }
    ensures structs { (w : WordsView) (i : ℕ) (s : StructDecl)
        → All (StandsInOne w (of_struct i s)) (in_struct w i s) }
    ensures functions { (w : WordsView) (i : ℕ) (f : FunctionDecl)
        → All (StandsInOne w (of_function i f)) (in_function w i f) }
    ensures nested { (w : WordsView) (i : ℕ) (s : StructDecl) (j : ℕ) (f : FunctionDecl)
        → All (StandsInOne w (of_nested i s j f)) (in_nested w i s j f) }
{}

/// The requirements of each protocol and signature of a text are in the order of the words with which they are written out: a bound with
/// what stands on the right of the colon, and an equality with the first word of its right side.
pub fn requirements_in_written_order(text: &[u8])
    ensures protocols { (w : WordsView) → StandsFor text.now w.skeleton → (p : ProtocolDecl)
        → Contains w.skeleton.protocols p
        → AllPairs (InOrder w (of_protocol p)) (in_protocol w p) }
    ensures structs { (w : WordsView) → StandsFor text.now w.skeleton → (i : ℕ) (s : StructDecl)
        → Contains w.skeleton.structs s
        → AllPairs (InOrder w (of_struct i s)) (in_struct w i s) }
    ensures functions { (w : WordsView) → StandsFor text.now w.skeleton → (i : ℕ) (f : FunctionDecl)
        → Contains w.skeleton.functions f
        → AllPairs (InOrder w (of_function i f)) (in_function w i f) }
    ensures nested { (w : WordsView) → StandsFor text.now w.skeleton
        → (i : ℕ) (s : StructDecl) (j : ℕ) (f : FunctionDecl)
        → Contains w.skeleton.structs s → Contains s.functions f
        → AllPairs (InOrder w (of_nested i s j f)) (in_nested w i s j f) }
{
    tokens_are_slices(text);
}

/// The lists of the skeleton of a text of at most 1,048,576 bytes are no longer than that.
pub fn lists_are_short(text: &[u8])
    ensures { length text.now ≤ 1048576 → (s : Skeleton) → StandsFor text.now s
        → HasShortLists text.now s }
{
    tokens_are_slices(text);
}

/// In a text of at most 1,048,576 bytes no protocol or signature has more requirements than that.
pub fn requirements_are_few(text: &[u8])
    ensures { length text.now ≤ 1048576 → (w : WordsView) → StandsFor text.now w.skeleton
        → HasFewRequirements w }
{
    tokens_are_slices(text);
}
