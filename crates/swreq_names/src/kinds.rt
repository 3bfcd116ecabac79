// The names that each kind of declaration declares, with what stands in it.
ghost use Rattle.std.specs.Prelude.{◌≡◌, map, IfOk};
ghost use Rattle.swreq_names.specs.Spaces.{declarations, of_params};

use crate::directory::Directory;
use crate::words::{Named, declarations};
use std::alloc::{AllocError, Global};
use std::marker::Model;
use swreq_decl::{FunctionDecl, ProtocolDecl, StructDecl};

/// The names of the protocols, and of what stands in each.
#[derive(Drop)]
pub struct OfProtocols {
    pub names: Directory,
    pub members: Vec<Directory>,
    pub primaries: Vec<Directory>,
}

impl OfProtocols {
    /// The names that the protocols declare.
    pub fn of(
        alloc: Global,
        text: &[u8],
        protocols: &[ProtocolDecl],
    ) -> Result<Box<Self>, AllocError>
        ensures names { IfOk result
            (λ d. d.value.names ≡ declarations text.now (map (λ p. p.name) protocols.now)) }
        ensures members { IfOk result (λ d. d.value.members.items
            ≡ map (λ p. declarations text.now (map (λ m. m.name) p.members)) protocols.now) }
        ensures primaries { IfOk result (λ d.
            d.value.primaries.items ≡ map (λ p. declarations text.now p.primaries) protocols.now) }
    {
        let found = OfProtocols {
            names: directory_of(alloc, text, protocols)?,
            members: members(alloc, text, protocols)?,
            primaries: primaries(alloc, text, protocols)?,
        };
        Ok(Box::new(alloc, found)?)
    }
}

/// The names of the generic parameters of each function of a struct.
#[derive(Drop)]
pub struct OfNested {
    pub params: Vec<Directory>,
}

impl Model for OfNested {
    ghost use Rattle.std.specs.Prelude.{List};
    ghost use Rattle.swreq_names.specs.declared.directory.Declaration.{Declaration};

    ghost Value = { List (List Declaration) };

    ghost view = { λ n. n.params.items };
}

/// The names of the structs, and of what stands in each.
#[derive(Drop)]
pub struct OfStructs {
    pub names: Directory,
    pub params: Vec<Directory>,
    pub nested: Vec<Directory>,
    pub nested_params: Vec<OfNested>,
}

impl OfStructs {
    /// The names that the structs declare.
    pub fn of(alloc: Global, text: &[u8], structs: &[StructDecl]) -> Result<Box<Self>, AllocError>
        ensures names { IfOk result
            (λ d. d.value.names ≡ declarations text.now (map (λ t. t.name) structs.now)) }
        ensures params { IfOk result
            (λ d. d.value.params.items ≡ map (λ t. of_params text.now t.params) structs.now) }
        ensures nested { IfOk result (λ d. d.value.nested.items
            ≡ map (λ t. declarations text.now (map (λ f. f.name) t.functions)) structs.now) }
        ensures nested_params { IfOk result (λ d. d.value.nested_params.items
            ≡ map (λ t. map (λ f. of_params text.now f.params) t.functions) structs.now) }
    {
        let found = OfStructs {
            names: directory_of(alloc, text, structs)?,
            params: struct_params(alloc, text, structs)?,
            nested: nested(alloc, text, structs)?,
            nested_params: nested_params(alloc, text, structs)?,
        };
        Ok(Box::new(alloc, found)?)
    }
}

/// The names of the functions at the top, and of their generic parameters.
#[derive(Drop)]
pub struct OfFunctions {
    pub names: Directory,
    pub params: Vec<Directory>,
}

impl OfFunctions {
    /// The names that the functions at the top declare.
    pub fn of(
        alloc: Global,
        text: &[u8],
        functions: &[FunctionDecl],
    ) -> Result<Box<Self>, AllocError>
        ensures names { IfOk result
            (λ d. d.value.names ≡ declarations text.now (map (λ f. f.name) functions.now)) }
        ensures params { IfOk result
            (λ d. d.value.params.items ≡ map (λ f. of_params text.now f.params) functions.now) }
    {
        let found = OfFunctions {
            names: directory_of(alloc, text, functions)?,
            params: params(alloc, text, functions)?,
        };
        Ok(Box::new(alloc, found)?)
    }
}

/// The names of these items.
fn directory_of<T: Named>(alloc: Global, text: &[u8], items: &[T]) -> Result<Directory, AllocError>
    ensures { IfOk result (λ d. d ≡ declarations text.now (map T.name_of items.now)) }
{
    let names = declarations(alloc, text, items)?;
    Directory::of(alloc, names)
}

fn members(
    alloc: Global,
    text: &[u8],
    protocols: &[ProtocolDecl],
) -> Result<Vec<Directory>, AllocError>
    ensures { IfOk result (λ found. found.items
        ≡ map (λ p. declarations text.now (map (λ m. m.name) p.members)) protocols.now) }
{
    let mut found = Vec::new(alloc);
    for protocol in protocols {
        let names = directory_of(alloc, text, protocol.members.items())?;
        found.push(names)?;
    }
    Ok(found)
}

fn primaries(
    alloc: Global,
    text: &[u8],
    protocols: &[ProtocolDecl],
) -> Result<Vec<Directory>, AllocError>
    ensures { IfOk result
        (λ found. found.items ≡ map (λ p. declarations text.now p.primaries) protocols.now) }
{
    let mut found = Vec::new(alloc);
    for protocol in protocols {
        let names = directory_of(alloc, text, protocol.primaries.items())?;
        found.push(names)?;
    }
    Ok(found)
}

fn struct_params(
    alloc: Global,
    text: &[u8],
    structs: &[StructDecl],
) -> Result<Vec<Directory>, AllocError>
    ensures { IfOk result
        (λ found. found.items ≡ map (λ t. of_params text.now t.params) structs.now) }
{
    let mut found = Vec::new(alloc);
    for item in structs {
        let names = directory_of(alloc, text, item.params.items())?;
        found.push(names)?;
    }
    Ok(found)
}

fn nested(alloc: Global, text: &[u8], structs: &[StructDecl]) -> Result<Vec<Directory>, AllocError>
    ensures { IfOk result (λ found. found.items
        ≡ map (λ t. declarations text.now (map (λ f. f.name) t.functions)) structs.now) }
{
    let mut found = Vec::new(alloc);
    for item in structs {
        let names = directory_of(alloc, text, item.functions.items())?;
        found.push(names)?;
    }
    Ok(found)
}

fn params(
    alloc: Global,
    text: &[u8],
    functions: &[FunctionDecl],
) -> Result<Vec<Directory>, AllocError>
    ensures { IfOk result
        (λ found. found.items ≡ map (λ f. of_params text.now f.params) functions.now) }
{
    let mut found = Vec::new(alloc);
    for function in functions {
        let names = directory_of(alloc, text, function.params.items())?;
        found.push(names)?;
    }
    Ok(found)
}

fn nested_params(
    alloc: Global,
    text: &[u8],
    structs: &[StructDecl],
) -> Result<Vec<OfNested>, AllocError>
    ensures { IfOk result (λ found.
        found.items ≡ map (λ t. map (λ f. of_params text.now f.params) t.functions) structs.now) }
{
    let mut found = Vec::new(alloc);
    for item in structs {
        let params = params(alloc, text, item.functions.items())?;
        found.push(OfNested { params })?;
    }
    Ok(found)
}
