//! What holds of the skeletons and refusals of each text, and of the calls and refusals of each part of it.

ghost use Rattle.std.specs.{Prelude.{◌≡◌, ◌≤◌, ◌⊎◌, ℕ, List, Option, Some, length, map}, List.{flat_map}};
ghost use Rattle.swreq_lex.specs.declared.token.Token as lexed;
ghost use Rattle.swreq_lex.specs.{Marks.{spellings}, Tokens.{HasTokens, HasTokensFrom}, Words.{reserved}};
ghost use Rattle.swreq_decl.specs.{declared.kind.Kind.{Kind}, declared.skeleton.CallDecl.{CallDecl}, declared.skeleton.Item.{Item}, declared.skeleton.Skeleton.{Skeleton}, declared.terminal.Terminal.TheVariants.{Query}};
ghost use Rattle.swreq_decl.specs.Calls as calls;
ghost use Rattle.swreq_decl.specs.{Signatures.{HasParts, item_signatures, signature_decls}, Skeletons.{RefusedFor, StandsFor, skeleton_of}};
ghost use Rattle.swreq_decl.specs.Source as lines;
ghost use Rattle.swreq_decl.specs.{Spellings.{spelling}, Terminals.{marks, query_word, reserved_words}};
ghost use Rattle.swreq_decl.specs.Written as written;
ghost use Rattle.swreq_decl.specs.Written.{SameTexts};

use swreq_lex::laws::{one_reading, one_reading_from, tokens_are_slices};

/// At most one skeleton stands for a text.
pub fn one_skeleton(text: &[u8])
    ensures { (s t : Skeleton) → StandsFor text.now s → StandsFor text.now t → s ≡ t }
{
    one_reading(text);
}

/// A text that has tokens has a skeleton or a refusal of the grammar, and one of them alone.
pub fn one_verdict(text: &[u8])
    ensures some { (ts : List lexed.Token) → HasTokens text.now ts → ((s : Skeleton)
        × StandsFor text.now s) ⊎ ((at : ℕ) × (kind : Option Kind) × RefusedFor text.now at kind) }
    ensures one { (at place : ℕ) (kind other : Option Kind) → RefusedFor text.now at kind
        → RefusedFor text.now place other → (at ≡ place) × (kind ≡ other) }
    ensures never_both { (s : Skeleton) (at : ℕ) (kind : Option Kind) → StandsFor text.now s
        → ¬ (RefusedFor text.now at kind) }
{
    one_reading(text);
}

/// The source has the texts and values that it has by its lines as they are written.
pub fn source_as_written()
    ensures { SameTexts lines.source written.source }
{}

/// At most one list of calls stands for a part of a text.
pub fn one_list_of_calls(text: &[u8], from: u32)
    requires { from ≤ length text.now }
    ensures { (a b : List CallDecl) → calls.StandsFor text.now from a
        → calls.StandsFor text.now from b → a ≡ b }
{
    one_reading_from(text, from);
}

/// A part that has tokens stands for calls or is refused at one place, and not both.
pub fn one_verdict_on_calls(text: &[u8], from: u32)
    requires { from ≤ length text.now }
    ensures some { (ts : List lexed.Token) → HasTokensFrom text.now from ts
        → ((a : List CallDecl) × calls.StandsFor text.now from a)
        ⊎ ((at : ℕ) × calls.RefusedAt text.now from at) }
    ensures one { (at place : ℕ) → calls.RefusedAt text.now from at
        → calls.RefusedAt text.now from place → at ≡ place }
    ensures never_both { (a : List CallDecl) (at : ℕ) → calls.StandsFor text.now from a
        → ¬ (calls.RefusedAt text.now from at) }
{
    one_reading_from(text, from);
}

/// The calls have the texts and values that they have by the lines of their grammar as they are written.
pub fn calls_as_written()
    ensures { SameTexts calls.calls written.calls }
{}

/// The signatures that are read off the skeleton of a text are those of its parts, in written order.
pub fn signatures_in_written_order(text: &[u8])
    ensures { (parts : List Item) → HasParts text.now parts
        → signature_decls (skeleton_of parts) ≡ flat_map item_signatures parts }
{
    tokens_are_slices(text);
}

/// The terminals of the reserved words and marks, in the order in which the tokens count them, are spelled as those are.
pub fn terminals_are_spelled()
    ensures words { map spelling reserved_words ≡ map (λ word. Some word) reserved }
    ensures marks { map spelling marks ≡ map (λ mark. Some mark) spellings }
    ensures query { spelling Query ≡ Some query_word }
{}
