// The world of a text.
ghost use Rattle.std.specs.{Prelude.{◌≡◌, ◌↔◌, ◌<◌, IsTrue, Some, None, length, map, IfOk, MatchOption}, Option.{option_map}};
ghost use Rattle.swreq_lexicon.specs.swreq_derive.Facts.{AreOneToOne};
ghost use Rattle.swreq_lexicon.specs.Lexicons.{associated_types};
ghost use Rattle.swreq_world.specs.{Additions.{AddsNothing}, Entries.{entry_view}, Lookups.{func_named, is_struct, outer_name, param_of_signature}, Ready.{IsReady}, Worlds.{requirements_of, signature_at}};

use crate::entry::{Entry, adds_nothing, whole, whole_after};
use crate::listed::{RequirementList, bare_of};
use crate::made::WorldLists;
use crate::order::Order;
use std::alloc::{AllocError, Global};
use std::marker::Model;
use swreq_lexicon::Lexicon;
use swreq_lexicon::derive::{Params, Requirement};
use swreq_lexicon::names::{Param, Signature};
use swreq_lowering::{FuncId, Query, Written};
use swreq_param::{ParamId, ProtoId};
use swreq_text::Seq;

/// The protocols, names, signatures and queries of a text, with the requirements that are written in it.
///
/// A protocol, a name or an associated type is of the world where its rank is below the number of these, and a signature where
/// its place is below `functions`. What a struct requires is kept once, for itself and its functions: the lists of signatures are put
/// together when they are asked, and no other call takes memory.
#[derive(Drop)]
pub struct World {
    lexicon: Box<Lexicon>,
    order: Box<Order>,
    requirements: Seq<RequirementList>,
    signatures: Seq<Entry>,
    queries: Seq<Query>,
}

impl Model for World {
    ghost use Rattle.swreq_world.specs.{Inside.{view_of, IsWhole}, Worlds.{IdWorld}};

    ghost Value = { IdWorld };

    ghost view = { view_of };

    ghost invariant = { IsWhole };
}

impl World {
    /// The world with this lexicon and these lists.
    pub(crate) fn of(lexicon: Box<Lexicon>, made: WorldLists) -> World
        requires { IsReady lexicon.value made }
        ensures { result ≡ record {
          lexicon = lexicon.value;
          requirements = made.requirements.items;
          signatures = map (entry_view made.signatures.items) made.signatures.items;
          queries = made.queries.items;
        } }
    {
        let WorldLists {
            order,
            requirements,
            signatures,
            queries,
        } = made;
        World {
            lexicon,
            order,
            requirements: Seq::new(requirements),
            signatures: Seq::new(signatures),
            queries: Seq::new(queries),
        }
    }

    /// The number of protocols.
    pub fn protocols(&self) -> u32
        ensures { result ≡ length self.now.lexicon.protocols }
    {
        self.lexicon.protocols()
    }

    /// The number of signatures.
    pub fn functions(&self) -> u32
        ensures { result ≡ length self.now.signatures }
    {
        self.signatures.items().len() as u32
    }

    /// The facts of the lists of signatures: each declared pair is one associated type.
    pub(crate) fn declared_once(&self)
        ensures { AreOneToOne (associated_types self.now.lexicon.associated) }
    {
        let _count = self.lexicon.protocols();
    }

    /// What the words of the text stand for.
    pub fn lexicon(&self) -> &Lexicon
        ensures { result.now ≡ self.now.lexicon }
    {
        &self.lexicon
    }

    /// The requirements of a protocol, in written order.
    pub fn requirements(&self, protocol: ProtoId) -> &[Written]
        requires { protocol.rank < length self.now.lexicon.protocols }
        ensures { result.now ≡ requirements_of self.now protocol }
    {
        self.requirements.items()[protocol.rank as usize].written()
    }

    /// The requirements of a protocol without the places of their sides.
    pub fn bare_requirements(&self, protocol: ProtoId) -> &[Requirement]
        requires { protocol.rank < length self.now.lexicon.protocols }
        ensures { result.now ≡ map (λ r. r.requirement) (requirements_of self.now protocol) }
    {
        self.requirements.items()[protocol.rank as usize].bare()
    }

    /// The list of a signature, in written order.
    pub fn signature(&self, alloc: Global, signature: FuncId) -> Result<Vec<Written>, AllocError>
        requires { signature.place < length self.now.signatures }
        ensures { IfOk result (λ v. v.items ≡ (signature_at self.now signature).requirements) }
    {
        let entries = self.signatures.items();
        whole(alloc, entries, &entries[signature.place as usize])
    }

    /// The list of a signature without the places of the sides of its requirements.
    pub fn bare_signature(
        &self,
        alloc: Global,
        signature: FuncId,
    ) -> Result<Vec<Requirement>, AllocError>
        requires { signature.place < length self.now.signatures }
        ensures { IfOk result (λ v. v.items
            ≡ map (λ r. r.requirement) (signature_at self.now signature).requirements) }
    {
        let list = self.signature(alloc, signature)?;
        bare_of(alloc, &list)
    }

    /// The list of a signature without the places of sides, made of `list`, that of the signature `last`. What a struct around both
    /// requires is kept as it stands there.
    pub fn bare_signature_after(
        &self,
        alloc: Global,
        last: FuncId,
        list: Vec<Requirement>,
        signature: FuncId,
    ) -> Result<Vec<Requirement>, AllocError>
        requires last { last.place < length self.now.signatures }
        requires list { list.items
            ≡ map (λ r. r.requirement) (signature_at self.now last).requirements }
        requires f { signature.place < length self.now.signatures }
        ensures { IfOk result (λ v. v.items
            ≡ map (λ r. r.requirement) (signature_at self.now signature).requirements) }
    {
        let entries = self.signatures.items();
        whole_after(
            alloc,
            entries,
            &entries[last.place as usize],
            list,
            &entries[signature.place as usize],
        )
    }

    /// The generic parameters of a signature.
    pub fn params(&self, signature: FuncId) -> Params
        requires { signature.place < length self.now.signatures }
        ensures { result ≡ (signature_at self.now signature).params }
    {
        self.entry(signature).params
    }

    /// Whether a signature is a function of the struct `outer` in which nothing of its own is written: it has the generic parameters
    /// and the list of the struct.
    pub fn adds_nothing(&self, outer: FuncId, function: FuncId) -> bool
        requires outer { outer.place < length self.now.signatures }
        requires f { function.place < length self.now.signatures }
        ensures { IsTrue result ↔ AddsNothing self.now.signatures outer function }
    {
        adds_nothing(self.signatures.items(), outer, function)
    }

    /// The queries, in written order.
    pub fn queries(&self) -> &[Query]
        ensures { result.now ≡ self.now.queries }
    {
        self.queries.items()
    }

    /// The name of a signature.
    pub fn func_name(&self, signature: FuncId) -> &[u8]
        requires { signature.place < length self.now.signatures }
        ensures { result.now ≡ (signature_at self.now signature).name }
    {
        self.entry(signature).name.items()
    }

    /// Whether a signature is a struct.
    pub fn is_struct(&self, signature: FuncId) -> bool
        requires { signature.place < length self.now.signatures }
        ensures { result ≡ is_struct (signature_at self.now signature).signature }
    {
        matches!(self.entry(signature).signature, Signature::Struct(_))
    }

    /// The name of the struct around a signature, or None if and only if it is no function of a struct.
    pub fn func_outer(&self, signature: FuncId) -> Option<&[u8]>
        requires { signature.place < length self.now.signatures }
        ensures { MatchOption result
            (outer_name self.now (signature_at self.now signature).outer ≡ None)
            (λ name. outer_name self.now (signature_at self.now signature).outer ≡ Some name.now) }
    {
        let outer = self.entry(signature).outer?;
        Some(self.name_at(outer))
    }

    /// The function of the struct `outer` with this name, or without `outer` the struct or function at the top. None if and only if there
    /// is none.
    pub fn find_func(&self, outer: Option<&[u8]>, name: &[u8]) -> Option<FuncId>
        ensures { result ≡ func_named self.now (option_map (λ o. o.now) outer.entry) name.now }
    {
        match outer {
            Some(outer) => self.find_nested(outer, name),
            None => self.find_top(name),
        }
    }

    /// The generic parameter of a signature that a name refers to, or None if and only if it refers to none.
    pub fn find_param(&self, signature: FuncId, name: &[u8]) -> Option<ParamId>
        requires { signature.place < length self.now.signatures }
        ensures { result ≡ param_of_signature self.now signature name.now }
    {
        let entry = self.entry(signature);
        match self.lexicon.resolved().find_param(entry.signature, name)? {
            Param::Outer(place) => Some(ParamId {
                depth: 0,
                index: place as u32,
            }),
            Param::Own(place) => Some(ParamId {
                depth: entry.own_depth,
                index: place as u32,
            }),
        }
    }

    fn find_nested(&self, outer: &[u8], name: &[u8]) -> Option<FuncId>
        ensures { result ≡ func_named self.now (Some outer.now) name.now }
    {
        let signature = self.lexicon.resolved().find_nested(outer, name)?;
        Some(self.order.func_id(signature))
    }

    fn find_top(&self, name: &[u8]) -> Option<FuncId>
        ensures { result ≡ func_named self.now None name.now }
    {
        let signature = self.lexicon.resolved().find_signature(name)?;
        Some(self.order.func_id(signature))
    }

    /// What is kept of a signature.
    fn entry(&self, signature: FuncId) -> &Entry
        requires { signature.place < length self.now.signatures }
        ensures signature { result.now.signature ≡ (signature_at self.now signature).signature }
        ensures name { result.now.name ≡ (signature_at self.now signature).name }
        ensures outer { result.now.outer ≡ (signature_at self.now signature).outer }
        ensures own_depth { result.now.own_depth ≡ (signature_at self.now signature).own_depth }
        ensures params { result.now.params ≡ (signature_at self.now signature).params }
    {
        &self.signatures.items()[signature.place as usize]
    }

    /// The name of a signature, or nothing where there is none.
    fn name_at(&self, signature: FuncId) -> &[u8]
        ensures { result.now ≡ (signature_at self.now signature).name }
    {
        match self.signatures.items().get(signature.place as usize) {
            Some(entry) => entry.name.items(),
            None => &[],
        }
    }
}
