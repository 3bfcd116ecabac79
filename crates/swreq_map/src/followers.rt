// The properties that are kept with words.
ghost use Rattle.std.specs.Prelude.{◌≡◌, ◌<◌, List, [], ◌∷◌, ◌++◌, Contains, length, OnOk};
ghost use Rattle.swreq_complete.specs.swreq_word.{declared.symbols.Symbol.{Symbol}, Interned.{AreDistinct}};
ghost use Rattle.swreq_map.specs.{Follows.{Follows, IsListed, KeepsListed}, Properties.{IsProperty}};

use crate::vanishing::is_property;
use std::alloc::{AllocError, Global};
use swreq_complete::word::{Symbol, WordTable};

/// Makes room for a list at a place.
fn make_room(alloc: Global, lists: &mut Vec<Vec<Symbol>>, place: usize) -> Result<(), AllocError>
    ensures room { OnOk result (place < length lists.new.items) }
    ensures kept { KeepsListed lists.old.items lists.new.items }
{
    'room: while lists.len() <= place {
        lists.push(Vec::new(alloc))?;
    }
    Ok(())
}

fn push(list: &mut Vec<Symbol>, x: Symbol) -> Result<(), AllocError>
    ensures added { OnOk result (Contains list.new.items x) }
    ensures kept { (other : Symbol) → Contains list.old.items other
        → Contains list.new.items other }
{
    list.push(x)?;
    Ok(())
}

/// Puts a symbol last in the list at a place.
fn put(
    alloc: Global,
    lists: &mut Vec<Vec<Symbol>>,
    place: usize,
    x: Symbol,
) -> Result<(), AllocError>
    ensures added { OnOk result (IsListed lists.new.items place x) }
    ensures kept { KeepsListed lists.old.items lists.new.items }
{
    make_room(alloc, lists, place)?;
    push(&mut lists[place], x)
}

/// Keeps a symbol with a word. If memory runs out, what was kept stays.
fn add(
    alloc: Global,
    table: &mut WordTable,
    lists: &mut Vec<Vec<Symbol>>,
    v: &[Symbol],
    x: Symbol,
) -> Result<(), AllocError>
    ensures added { OnOk result (Follows table.new lists.new.items v.now x) }
    ensures kept { (w : List Symbol) (y : Symbol) → Follows table.old lists.old.items w y
        → Follows table.new lists.new.items w y }
    ensures distinct { AreDistinct table.new }
{
    let id = table.intern(v)?;
    put(alloc, lists, id.place, x)
}

/// Keeps the last symbol of a left side with the word before it, if it is a property.
pub fn add_end(
    alloc: Global,
    table: &mut WordTable,
    lists: &mut Vec<Vec<Symbol>>,
    protocols: u32,
    left: &[Symbol],
) -> Result<(), AllocError>
    requires { AreDistinct table.old }
    ensures added { OnOk result ((v : List Symbol) (x : Symbol) → left.now ≡ v ++ x ∷ []
        → IsProperty protocols x → Follows table.new lists.new.items v x) }
    ensures kept { (w : List Symbol) (y : Symbol) → Follows table.old lists.old.items w y
        → Follows table.new lists.new.items w y }
    ensures distinct { AreDistinct table.new }
{
    let count = left.len();
    if count == 0 {
        return Ok(());
    }
    let last = left[count - 1];
    if !is_property(protocols, last) {
        return Ok(());
    }
    add(alloc, table, lists, &left[..count - 1], last)
}

/// The symbols that are kept with a word.
pub fn followers<'a>(table: &WordTable, lists: &'a [Vec<Symbol>], v: &[Symbol]) -> &'a [Symbol]
    requires { AreDistinct table.now }
    ensures { (x : Symbol) → Follows table.now lists.now v.now x → Contains result.now x }
{
    match table.find_symbols(v) {
        Some(id) => list_at(lists, id.place),
        None => &[],
    }
}

fn list_at(lists: &[Vec<Symbol>], place: usize) -> &[Symbol]
    ensures { (x : Symbol) → IsListed lists.now place x → Contains result.now x }
{
    match lists.get(place) {
        Some(list) => list,
        None => &[],
    }
}
