// The names that a text declares.
ghost use Rattle.std.specs.Prelude.{◌≡◌, ◌↔◌, ℕ, [], slice_index_or, Contains, IfOk};
ghost use Rattle.swreq_names.specs.{Spaces.{spaces, protocol_of, struct_of, signature_of, nested_in, nested_of, outer_params, own_params, param_of, declares}, Directories.{names_of}};

use crate::declarers::Declarers;
use crate::directory::Directory;
use crate::kinds::{OfFunctions, OfNested, OfProtocols, OfStructs};
use crate::signature::{Param, Signature};
use std::alloc::{AllocError, Global};
use std::marker::Model;
use swreq_decl::Skeleton;

/// The names that a text declares, in their spaces.
#[derive(Drop)]
pub struct Declared {
    protocols: Box<OfProtocols>,
    structs: Box<OfStructs>,
    functions: Box<OfFunctions>,
    declarers: Declarers,
    /// What is answered for a list of declarations that is not there.
    empty: Directory,
}

impl Model for Declared {
    ghost use Rattle.std.specs.Prelude.{◌≡◌, []};
    ghost use Rattle.swreq_names.specs.{Spaces.{Spaces}, Directories.{AreDeclarers}};

    ghost Value = { Spaces };

    ghost view = { λ d. record {
      protocols = d.protocols.value.names;
      members = d.protocols.value.members.items;
      primaries = d.protocols.value.primaries.items;
      structs = d.structs.value.names;
      struct_params = d.structs.value.params.items;
      nested = d.structs.value.nested.items;
      nested_params = d.structs.value.nested_params.items;
      functions = d.functions.value.names;
      params = d.functions.value.params.items;
    } };

    ghost invariant = { λ d. AreDeclarers d.protocols.value.members.items d.declarers.ranks d.declarers.lists × (d.empty ≡ []) };
}

impl Declared {
    /// The names that the skeleton of a text declares.
    pub fn of(alloc: Global, text: &[u8], s: &Skeleton) -> Result<Self, AllocError>
        ensures { IfOk result (λ d. d ≡ spaces text.now s.now) }
    {
        let protocols = OfProtocols::of(alloc, text, s.protocols.items())?;
        let structs = OfStructs::of(alloc, text, s.structs.items())?;
        let functions = OfFunctions::of(alloc, text, s.functions.items())?;
        let declarers = Declarers::of(alloc, &protocols.members)?;
        let empty = Directory::of(alloc, Vec::new(alloc))?;
        Ok(Declared {
            protocols,
            structs,
            functions,
            declarers,
            empty,
        })
    }

    /// The names of the protocols.
    pub fn protocols(&self) -> &Directory
        ensures { result.now ≡ self.now.protocols }
    {
        &self.protocols.names
    }

    /// The names of the structs.
    pub fn structs(&self) -> &Directory
        ensures { result.now ≡ self.now.structs }
    {
        &self.structs.names
    }

    /// The names of the functions at the top.
    pub fn functions(&self) -> &Directory
        ensures { result.now ≡ self.now.functions }
    {
        &self.functions.names
    }

    /// The names of the associated types of a protocol.
    pub fn members(&self, protocol: usize) -> &Directory
        ensures { result.now ≡ slice_index_or self.now.members protocol [] }
    {
        at(&self.protocols.members, protocol, &self.empty)
    }

    /// The primary names of a protocol.
    pub fn primaries(&self, protocol: usize) -> &Directory
        ensures { result.now ≡ slice_index_or self.now.primaries protocol [] }
    {
        at(&self.protocols.primaries, protocol, &self.empty)
    }

    /// The names of the functions of a struct.
    pub fn nested(&self, outer: usize) -> &Directory
        ensures { result.now ≡ slice_index_or self.now.nested outer [] }
    {
        at(&self.structs.nested, outer, &self.empty)
    }

    /// The protocol that a name refers to.
    pub fn protocol_of(&self, name: &[u8]) -> Option<usize>
        ensures { result ≡ protocol_of self.now name.now }
    {
        self.protocols().refers_to(self.structs(), name)
    }

    /// The struct that a name refers to among the signatures.
    pub fn struct_of(&self, name: &[u8]) -> Option<usize>
        ensures { result ≡ struct_of self.now name.now }
    {
        self.structs().refers_to(self.functions(), name)
    }

    /// The struct, or the function at the top, that a name refers to.
    pub fn signature_of(&self, name: &[u8]) -> Option<Signature>
        ensures { result ≡ signature_of self.now name.now }
    {
        match self.struct_of(name) {
            Some(place) => Some(Signature::Struct(place)),
            None => {
                let place = self.functions().refers_to(self.structs(), name)?;
                Some(Signature::Function(place))
            }
        }
    }

    /// The function of a struct that a name refers to.
    pub fn nested_in(&self, outer: usize, name: &[u8]) -> Option<Signature>
        ensures { result ≡ nested_in self.now outer name.now }
    {
        let function = self.nested(outer).find(name)?;
        Some(Signature::Nested { outer, function })
    }

    /// The function that `name` refers to in the struct that `outer` refers to.
    pub fn nested_of(&self, outer: &[u8], name: &[u8]) -> Option<Signature>
        ensures { result ≡ nested_of self.now outer.now name.now }
    {
        self.nested_in(self.struct_of(outer)?, name)
    }

    /// The generic parameters of the struct around a signature.
    pub fn outer_params(&self, signature: Signature) -> &Directory
        ensures { result.now ≡ outer_params self.now signature }
    {
        match signature {
            Signature::Nested { outer, .. } => at(&self.structs.params, outer, &self.empty),
            _ => &self.empty,
        }
    }

    /// The generic parameters of a signature itself.
    pub fn own_params(&self, signature: Signature) -> &Directory
        ensures { result.now ≡ own_params self.now signature }
    {
        match signature {
            Signature::Struct(place) => at(&self.structs.params, place, &self.empty),
            Signature::Function(place) => at(&self.functions.params, place, &self.empty),
            Signature::Nested { outer, function } => {
                at(
                    list_of(&self.structs.nested_params, outer),
                    function,
                    &self.empty,
                )
            }
        }
    }

    /// The generic parameter of a signature that a name refers to.
    pub fn param_of(&self, signature: Signature, name: &[u8]) -> Option<Param>
        ensures { result ≡ param_of self.now signature name.now }
    {
        match self.outer_params(signature).find(name) {
            Some(place) => Some(Param::Outer(place)),
            None => {
                let place = self.own_params(signature).find(name)?;
                Some(Param::Own(place))
            }
        }
    }

    /// Whether a protocol declares the name itself.
    pub fn declares(&self, protocol: usize, name: &[u8]) -> bool
        ensures { result ≡ declares self.now protocol name.now }
    {
        self.members(protocol).has(name)
    }

    /// The protocols that declare the name themselves.
    pub fn declarers(&self, name: &[u8]) -> &[usize]
        ensures { (j : ℕ) → Contains result.now j
            ↔ Contains (names_of (slice_index_or self.now.members j [])) name.now }
    {
        self.declarers.of_name(name)
    }
}

/// The directory at this place, or the empty one if there is none.
fn at<'a>(directories: &'a [Directory], place: usize, empty: &'a Directory) -> &'a Directory
    requires { empty.now ≡ [] }
    ensures { result.now ≡ slice_index_or directories.now place [] }
{
    match directories.get(place) {
        Some(directory) => directory,
        None => empty,
    }
}

/// The list at this place, or the empty one if there is none.
fn list_of(lists: &[OfNested], place: usize) -> &[Directory]
    ensures { result.now ≡ slice_index_or lists.now place [] }
{
    match lists.get(place) {
        Some(list) => &list.params,
        None => &[],
    }
}
