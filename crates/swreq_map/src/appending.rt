// A symbol put after a least word. A left side can then stand only near the end of the word.
ghost use Rattle.std.specs.Prelude.{◌≡◌, ◌+◌, ◌≤◌, [], ◌∷◌, ◌++◌, vec_capacity, vec_len};
ghost use Rattle.swreq_complete.specs.swreq_word.{Least.{IsLeast}, Relations.{Linked}};
ghost use Rattle.swreq_complete.specs.swreq_rule.Steps.{Step};

use swreq_complete::CompleteRules;
use swreq_complete::word::Symbol;

/// Puts a symbol last, where there is room for it.
pub(crate) fn put(word: &mut Vec<Symbol>, x: Symbol)
    requires { vec_len word.old + 1 ≤ vec_capacity word.old }
    ensures items { word.new.items ≡ word.old.items ++ x ∷ [] }
    ensures room { vec_capacity word.old ≤ vec_capacity word.new }
{
    if let Err(_) = word.push(x) {}
}

/// Puts a symbol after the least word of a class, and reduces the longer word to the least one of its own class. No memory is taken:
/// there is room for one symbol more.
pub fn append(rules: &CompleteRules<'_>, word: &mut Vec<Symbol>, x: Symbol)
    requires least { IsLeast (Linked (Step rules.now)) word.old.items }
    requires fits { vec_len word.old + 1 ≤ vec_capacity word.old }
    ensures congruent { Linked (Step rules.now) (word.old.items ++ x ∷ []) word.new.items }
    ensures least { IsLeast (Linked (Step rules.now)) word.new.items }
    ensures no_longer { vec_len word.new ≤ vec_len word.old + 1 }
    ensures room { vec_capacity word.old ≤ vec_capacity word.new }
{
    let _complete = rules.count();
    let longest = rules.longest();
    put(word, x);
    let from = word.len().saturating_sub(longest);
    rules.reduce_from(word, from);
}
