// Whether a symbol vanishes after a word.
ghost use Rattle.std.specs.{Prelude.{◌≡◌, ◌+◌, ◌-◌, ◌≤◌, [], ◌∷◌, ◌++◌, length, vec_capacity, vec_len, IfSome}, Bool.{Decides}};
ghost use Rattle.swreq_complete.specs.swreq_word.{Least.{IsLeast}, Relations.{Linked}};
ghost use Rattle.swreq_complete.specs.swreq_rule.{Search.{NoneLonger}, Steps.{Step}};
ghost use Rattle.swreq_map.specs.Properties.{IsProperty, Vanishes};

use crate::appending::append;
use swreq_complete::CompleteRules;
use swreq_complete::word::{Symbol, are_same};

/// Writes the word, where there is room for it.
fn write(room: &mut Vec<Symbol>, u: &[Symbol])
    requires { length u.now ≤ vec_capacity room.old }
    ensures items { room.new.items ≡ u.now }
    ensures room { vec_capacity room.old ≤ vec_capacity room.new }
{
    room.clear();
    put_all(room, u);
}

fn put_all(room: &mut Vec<Symbol>, u: &[Symbol])
    requires { vec_len room.old + length u.now ≤ vec_capacity room.old }
    ensures items { room.new.items ≡ room.old.items ++ u.now }
    ensures room { vec_capacity room.old ≤ vec_capacity room.new }
{
    if let Err(_) = room.extend_from_slice(u) {}
}

/// Whether a word is the other one with this symbol after it.
fn is_followed(w: &[Symbol], u: &[Symbol], x: Symbol) -> bool
    ensures { Decides result (w.now ≡ u.now ++ x ∷ []) }
{
    w.len() == u.len() + 1 && w[u.len()] == x && are_same(&w[..u.len()], u)
}

/// Whether the symbol vanishes after the least word of a class, by the ending of the word from a place on, to which left sides that end
/// after the word do not reach. Where the ending alone does not tell, the answer is None.
fn vanishes_by_ending(
    rules: &CompleteRules<'_>,
    u: &[Symbol],
    from: usize,
    x: Symbol,
    room: &mut Vec<Symbol>,
) -> Option<bool>
    requires least { IsLeast (Linked (Step rules.now)) u.now }
    requires from { NoneLonger rules.now (length u.now - from) }
    requires within { from ≤ length u.now }
    requires fits { length u.now + 1 ≤ vec_capacity room.old }
    ensures answer { IfSome result (λ b. Decides b (Vanishes rules.now u.now x)) }
    ensures room { vec_capacity room.old ≤ vec_capacity room.new }
{
    let _complete = rules.count();
    let ending = &u[from..];
    write(room, ending);
    append(rules, room, x);
    if are_same(room, ending) {
        return Some(true);
    }
    if is_followed(room, ending, x) {
        return Some(false);
    }
    None
}

/// The same by the whole word.
fn vanishes_by_all(
    rules: &CompleteRules<'_>,
    u: &[Symbol],
    x: Symbol,
    room: &mut Vec<Symbol>,
) -> bool
    requires least { IsLeast (Linked (Step rules.now)) u.now }
    requires fits { length u.now + 1 ≤ vec_capacity room.old }
    ensures answer { Decides result (Vanishes rules.now u.now x) }
    ensures room { vec_capacity room.old ≤ vec_capacity room.new }
{
    let _complete = rules.count();
    write(room, u);
    append(rules, room, x);
    are_same(room, u)
}

/// Whether the symbol vanishes after the least word of a class. The room is for one symbol more than the word.
///
/// A left side that reaches past the word can stand only near its end, so mostly the last symbols tell, however long the word is.
pub fn vanishes(rules: &CompleteRules<'_>, u: &[Symbol], x: Symbol, room: &mut Vec<Symbol>) -> bool
    requires least { IsLeast (Linked (Step rules.now)) u.now }
    requires fits { length u.now + 1 ≤ vec_capacity room.old }
    ensures answer { Decides result (Vanishes rules.now u.now x) }
    ensures room { vec_capacity room.old ≤ vec_capacity room.new }
{
    let longest = rules.longest();
    if u.len() <= longest {
        return vanishes_by_all(rules, u, x, room);
    }
    match vanishes_by_ending(rules, u, u.len() - longest, x, room) {
        Some(answer) => answer,
        None => vanishes_by_all(rules, u, x, room),
    }
}

/// Whether the symbol is a protocol below this number, or the layout.
pub fn is_property(protocols: u32, x: Symbol) -> bool
    ensures { Decides result (IsProperty protocols x) }
{
    match x {
        Symbol::Proto(p) => p < protocols,
        Symbol::Layout => true,
        Symbol::Member(_) | Symbol::Param(_, _) | Symbol::Name(_) => false,
    }
}
