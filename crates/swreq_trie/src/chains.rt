//! The chains in which edges are found. Each edge names the one before it in its chain, and a head names the last one.

ghost use Rattle.std.specs.{Prelude.{◌≡◌, ℕ, ◌<◌, MatchOption, IfOk}, Bool.{Decides}};
ghost use Rattle.swreq_trie.specs.{Paths.{IsChild, IsGrown, NoChild}, Chains.{AreChained, AreLinked, IsLeft, chain_of, edges_of, number_of}};

use crate::edges::Edge;
use crate::ends::{end_at, make_room};
use std::alloc::AllocError;
use swreq_rule::word::Symbol;

// In how many chains the edges of one node stand, at most.
const SPREAD: usize = 4096;

/// An edge, and the place of the one before it in its chain.
#[derive(Clone, Copy, Debug)]
pub(crate) struct Link {
    pub edge: Edge,
    pub before: Option<u32>,
}

// The number of the symbol among those of its kind.
fn number(symbol: Symbol) -> u64
    ensures { result ≡ number_of symbol }
{
    match symbol {
        Symbol::Proto(rank) => rank as u64,
        Symbol::Member(rank) => rank,
        Symbol::Param(_, index) => index as u64,
        Symbol::Name(rank) => rank as u64,
        Symbol::Layout => 0,
    }
}

// The chain of the edge. Those of one node go side by side, by the numbers of symbols, since the root has an edge for
// each symbol of a side.
fn chain(edge: Edge) -> usize
    ensures { result ≡ chain_of edge }
{
    let beside = number(edge.symbol) as usize % SPREAD;
    edge.from.saturating_add(beside)
}

fn is_same(a: Edge, b: Edge) -> bool
    ensures { Decides result (a ≡ b) }
{
    a == b
}

// The node to which the edge leads, or None where it is none of these. It is sought along its chain, in which it stands
// no later than here.
fn find_from(links: &[Link], start: Option<u32>, edge: Edge) -> Option<usize>
    requires linked { AreLinked links.now }
    requires left { IsLeft links.now edge start }
    ensures { MatchOption result
        (NoChild (edges_of links.now) edge.from edge.symbol)
        (λ child. IsChild (edges_of links.now) edge.from edge.symbol child) }
{
    let mut last = start;
    'back: while let Some(place) = last {
        let place = place as usize;
        let link = &links[place];
        if is_same(link.edge, edge) {
            return Some(place + 1);
        }
        last = link.before;
    }
    None
}

/// The node to which the edge leads, or None where it is none of these.
pub(crate) fn find_child(links: &[Link], heads: &[Option<u32>], edge: Edge) -> Option<usize>
    requires { AreChained links.now heads.now }
    ensures { MatchOption result
        (NoChild (edges_of links.now) edge.from edge.symbol)
        (λ child. IsChild (edges_of links.now) edge.from edge.symbol child) }
{
    find_from(links, end_at(heads, chain(edge)), edge)
}

// The place as a number of 32 bits. Past these there is no room for an edge, which is answered as if memory ran out.
fn numbered(place: usize) -> Result<u32, AllocError>
    ensures { IfOk result (λ number. number ≡ place) }
{
    if place <= u32::MAX as usize {
        Ok(place as u32)
    } else {
        Err(AllocError)
    }
}

// Puts the edge last, also in its chain, and answers the node to which it leads. If memory runs out, no edge is put in.
fn add_child(
    links: &mut Vec<Link>,
    heads: &mut Vec<Option<u32>>,
    edge: Edge,
) -> Result<usize, AllocError>
    requires chained { AreChained links.old.items heads.old.items }
    requires new { NoChild (edges_of links.old.items) edge.from edge.symbol }
    ensures child { IfOk result
        (λ child. IsChild (edges_of links.new.items) edge.from edge.symbol child) }
    ensures grown { IsGrown (edges_of links.old.items) (edges_of links.new.items) }
    ensures chained { AreChained links.new.items heads.new.items }
{
    let chain = chain(edge);
    make_room(heads, chain)?;
    let place = links.len();
    let number = numbered(place)?;
    let before = end_at(heads, chain);
    links.push(Link { edge, before })?;
    heads[chain] = Some(number);
    Ok(place + 1)
}

/// The node to which the edge leads, which is put there where it is none of these.
pub(crate) fn make_child(
    links: &mut Vec<Link>,
    heads: &mut Vec<Option<u32>>,
    edge: Edge,
) -> Result<usize, AllocError>
    requires { AreChained links.old.items heads.old.items }
    ensures child { IfOk result
        (λ child. IsChild (edges_of links.new.items) edge.from edge.symbol child) }
    ensures grown { IsGrown (edges_of links.old.items) (edges_of links.new.items) }
    ensures chained { AreChained links.new.items heads.new.items }
{
    match find_child(links, heads, edge) {
        Some(child) => Ok(child),
        None => add_child(links, heads, edge),
    }
}
