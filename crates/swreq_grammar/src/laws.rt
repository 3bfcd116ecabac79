//! The laws of grammars and of their reader with one token ahead.

ghost use Rattle.std.specs.Prelude.{◌≡◌, ◌++◌, ℕ, List, Result, Ok, Err, true};
ghost use Rattle.swreq_grammar.specs.{declared.token.Token.{Token}, Grammar.{Grammar, Matches}, Refusal.{RefusedAt, Refuses, Viable, is_well_labelled}, Reader.{Fault, is_predictive, read_whole}};

/// The grammar that the laws are about.
pub trait Language {
    type Terminal;

    type Label;

    type Value;

    ghost number: { Self.Terminal → ℕ };

    ghost grammar: { Grammar Self.Terminal Self.Label Self.Value };
}

/// Over a predictive grammar, what is read is a text of the grammar with its value, and each text is read.
pub fn texts_are_read<G: Language>()
    ensures read { is_predictive G.number G.grammar ≡ true → (ts : List (Token G.Terminal))
        (v : G.Value) → Matches G.number G.grammar ts v → read_whole G.number G.grammar ts ≡ Ok v }
    ensures text { is_predictive G.number G.grammar ≡ true → (ts : List (Token G.Terminal))
        (v : G.Value) → read_whole G.number G.grammar ts ≡ Ok v → Matches G.number G.grammar ts v }
{}

/// At most one value stands for a text of a predictive grammar.
pub fn one_value<G: Language>()
    ensures { is_predictive G.number G.grammar ≡ true
        → (ts : List (Token G.Terminal)) (v w : G.Value) → Matches G.number G.grammar ts v
        → Matches G.number G.grammar ts w → v ≡ w }
{}

/// Over a predictive grammar that is well labelled, the reader refuses a text exactly at its refused token, with the
/// label that stands there.
pub fn refusals_are_read<G: Language>()
    ensures read { is_predictive G.number G.grammar ≡ true → is_well_labelled G.grammar ≡ true
        → (ts : List (Token G.Terminal)) (fault : Fault G.Terminal G.Label)
        → Refuses G.number G.grammar ts fault → read_whole G.number G.grammar ts ≡ Err fault }
    ensures refused { is_predictive G.number G.grammar ≡ true → is_well_labelled G.grammar ≡ true
        → (ts : List (Token G.Terminal)) (fault : Fault G.Terminal G.Label)
        → read_whole G.number G.grammar ts ≡ Err fault → Refuses G.number G.grammar ts fault }
{}

/// Over each grammar, a text of the grammar begins with each front of the tokens before the refused one, so that this is
/// the first such that none begins with the tokens up to and with it. At most one token of a text is the refused one, and
/// no token of a text of the grammar is.
pub fn one_refused_token<G: Language>()
    ensures first { (front back rest : List (Token G.Terminal))
        → RefusedAt G.number G.grammar (front ++ back) rest → Viable G.number G.grammar front }
    ensures one { (before rest other left : List (Token G.Terminal))
        → before ++ rest ≡ other ++ left → RefusedAt G.number G.grammar before rest
        → RefusedAt G.number G.grammar other left → (before ≡ other) × (rest ≡ left) }
    ensures none { (before rest : List (Token G.Terminal)) (v : G.Value) → Matches G.number
        G.grammar (before ++ rest) v → RefusedAt G.number G.grammar before rest → ⊥ }
{}
