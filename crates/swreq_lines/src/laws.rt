//! What is written of lines is read as the same lines.

ghost use Rattle.std.specs.{Prelude.{◌≡◌, ◌≤◌, ℕ, List, Contains, length, map}, List.{AllByRecursion}};
ghost use Rattle.swreq_print.specs.swreq_decl.{declared.skeleton.Skeleton.{Skeleton}, Skeletons.{StandsFor}};
ghost use Rattle.swreq_print.specs.swreq_derive.{declared.lines.Line.{Line}, Instances.{TermLine}, Lines.{line_of}};
ghost use Rattle.swreq_print.specs.swreq_lexicon.{Texts.{IsLexiconOf}, Views.{LexiconView}};
ghost use Rattle.swreq_print.specs.swreq_param.{Tables.{AreDistinct, Extends}, Terms.{Term}};
ghost use Rattle.swreq_print.specs.Reading.{TellsApart};
ghost use Rattle.swreq_lines.specs.{GoodLines.{AreLinesOf, IsFirstNotGood, IsReadableLine}, LineTexts.{HasLineIds, line_text, lines_text}, Writing.{AreNamesOfOneLine}};

use swreq_print::names::{names_are_words, words_have_word_bytes};

/// No name of a text has a line feed.
pub fn names_are_of_one_line(text: &[u8])
    ensures { (s : Skeleton) (x : LexiconView) → StandsFor text.now s
        → IsLexiconOf text.now s x → AreNamesOfOneLine x }
{
    names_are_words(text);
    words_have_word_bytes();
}

/// Each line that is written of lines of a text is good, and what is read of them are those lines. Over a table that begins with that
/// of the written lines they have the same ids.
pub fn written_lines_are_read_back()
    ensures good { (x : LexiconView) (written : List TermLine) (n : ℕ) → TellsApart x
        → AreNamesOfOneLine x → AllByRecursion (IsReadableLine x) written
        → length (lines_text x written) ≤ 1048576 → IsFirstNotGood x (lines_text x written) n → ⊥ }
    ensures same { (x : LexiconView) (terms : List Term) (written : List TermLine)
        (read : List Line) → TellsApart x → AreNamesOfOneLine x
        → AllByRecursion (IsReadableLine x) written → length (lines_text x written) ≤ 1048576
        → AreLinesOf x terms (lines_text x written) read → map (line_of terms) read ≡ written }
    ensures ids { (x : LexiconView) (old new : List Term) (written read : List Line)
        → TellsApart x → AreNamesOfOneLine x
        → Extends old new → AreDistinct new → ((l : Line) → Contains written l → HasLineIds x old l)
        → ((l : Line) → Contains read l → HasLineIds x new l)
        → AllByRecursion (IsReadableLine x) (map (line_of old) written)
        → length (lines_text x (map (line_of old) written)) ≤ 1048576
        → AreLinesOf x new (lines_text x (map (line_of old) written)) read → read ≡ written }
{}

/// The text of a line, with its number, determines the line.
pub fn texts_tell_lines_apart()
    ensures { (x : LexiconView) (n : ℕ) (l k : TermLine) → TellsApart x
        → IsReadableLine x l → IsReadableLine x k
        → line_text x n l ≡ line_text x n k → l ≡ k }
{}
