//! The edges of a trie, each of which leads to a node of its own.

ghost use Rattle.std.specs.Prelude.{◌≡◌, [], ◌++◌, MatchOption, IfOk};
ghost use Rattle.swreq_trie.specs.Paths.{IsChild, IsForked, IsGrown, NoChild};

use crate::chains::{Link, find_child, make_child};
use std::alloc::{AllocError, Global};
use std::marker::Model;
use swreq_rule::word::Symbol;

/// The node that the edge leaves, and its symbol.
#[derive(Clone, Copy, Debug, PartialEq, Eq)]
pub(crate) struct Edge {
    pub from: usize,
    pub symbol: Symbol,
}

/// Edges, each once. The root is node 0, and the edge at place k leads to node k + 1.
#[derive(Drop)]
pub(crate) struct Edges {
    links: Vec<Link>,
    // The place of the last edge of each chain.
    heads: Vec<Option<u32>>,
}

impl Model for Edges {
    ghost use Rattle.std.specs.Prelude.{List};
    ghost use Rattle.swreq_trie.specs.{declared.edges.Edge.{Edge}, Chains.{AreChained, edges_of}};

    ghost Value = { List Edge };

    ghost view = { λ e. edges_of e.links.items };

    ghost invariant = { λ e. AreChained e.links.items e.heads.items };
}

impl Edges {
    /// No edges, which takes no memory.
    pub fn new(alloc: Global) -> Edges
        ensures { result ≡ [] }
    {
        Edges {
            links: Vec::new(alloc),
            heads: Vec::new(alloc),
        }
    }

    /// The same edges once more.
    pub fn copy(&self, alloc: Global) -> Result<Edges, AllocError>
        ensures { IfOk result (λ copy. copy ≡ self.now) }
    {
        let links = Vec::from_slice(alloc, &self.links)?;
        let heads = Vec::from_slice(alloc, &self.heads)?;
        Ok(Edges { links, heads })
    }

    /// The node to which an edge leads from this node by the symbol, or None where there is none.
    pub fn child(&self, node: usize, symbol: Symbol) -> Option<usize>
        ensures found { MatchOption result (NoChild self.now node symbol)
            (λ child. IsChild self.now node symbol child) }
        ensures forked { IsForked self.now }
    {
        find_child(&self.links, &self.heads, Edge { from: node, symbol })
    }

    /// The node to which an edge leads from this node by the symbol, which is made where there is none.
    pub fn make_child(&mut self, node: usize, symbol: Symbol) -> Result<usize, AllocError>
        ensures child { IfOk result (λ child. IsChild self.new node symbol child) }
        ensures grown { IsGrown self.old self.new }
        ensures forked { IsForked self.new }
    {
        make_child(
            &mut self.links,
            &mut self.heads,
            Edge { from: node, symbol },
        )
    }
}
