//! What is found in a world by its name.
ghost use Rattle.std.specs.Prelude.{◌≡◌, ◌<◌, ◌≤◌, length};
ghost use Rattle.swreq_samples.specs.swreq_decl.Skeletons.{StandsFor};

use std::alloc::Global;
use std::process::Abort;
use std::test::Fail;
use swreq_samples::skeleton_of;
use swreq_world::World;
use swreq_world::decl::Skeleton;
use swreq_world::lowering::FuncId;
use swreq_world::param::{NameId, ParamId, ParamTable, ProtoId};

/// A text with two protocols that declare one name, and a struct.
const TEXT: &[u8] = b"\
protocol P { associatedtype A }
protocol Q { associatedtype A }
func f<T: P & Q>()
func g<T: P>()
struct S { func k<U>() }
";

/// What is found of a word: the protocol, the name of a member, the signature and the function of S of that name, and the generic parameter
/// of g.
type Found = (
    Option<ProtoId>,
    Option<NameId>,
    Option<FuncId>,
    Option<FuncId>,
    Option<ParamId>,
);

const P: ProtoId = ProtoId { rank: 0 };

const Q: ProtoId = ProtoId { rank: 1 };

const A: NameId = NameId { rank: 0 };

const F: FuncId = FuncId { place: 0 };

const G: FuncId = FuncId { place: 1 };

const S: FuncId = FuncId { place: 2 };

const K: FuncId = FuncId { place: 3 };

const T: ParamId = ParamId { depth: 0, index: 0 };

/// Words by name, each with what is found of it.
const FOUND: &[(&str, &str, Found)] = &[
    ("the first protocol", "P", (Some(P), None, None, None, None)),
    (
        "the second protocol",
        "Q",
        (Some(Q), None, None, None, None),
    ),
    (
        "a member of both protocols",
        "A",
        (None, Some(A), None, None, None),
    ),
    ("the first function", "f", (None, None, Some(F), None, None)),
    (
        "the second function",
        "g",
        (None, None, Some(G), None, None),
    ),
    ("the struct", "S", (None, None, Some(S), None, None)),
    (
        "the function of the struct",
        "k",
        (None, None, None, Some(K), None),
    ),
    (
        "the generic parameter of g",
        "T",
        (None, None, None, None, Some(T)),
    ),
    (
        "a generic parameter of k alone",
        "U",
        (None, None, None, None, None),
    ),
];

/// Whether this is found of the word.
fn finds(world: &World, word: &[u8], found: &Found) -> bool
    requires { 1 < length world.now.signatures }
{
    world.find_proto(word) == found.0
        && world.find_name(word) == found.1
        && world.find_func(None, word) == found.2
        && world.find_func(Some(b"S"), word) == found.3
        && world.find_param(G, word) == found.4
}

/// Asserts what is found of each word, and that P has the name A, does not inherit Q, and inherits no protocol.
fn assert_found(rt: &impl Abort, world: &World) {
    assert!(rt; world.functions() == 4);
    for (name, word, found) in FOUND {
        assert!(rt; finds(world, word.as_bytes(), found), "{name}");
    }
    assert!(rt; world.has_member(P, A) && !world.inherits(P, Q));
    assert_eq!(rt; world.depth(P), 0);
}

/// Asserts what is found in the world of the text.
fn assert_resolved(rt: &impl Abort, alloc: Global, text: &[u8], s: &Skeleton) -> Result<(), Fail>
    requires short { length text.now ≤ 1048576 }
    requires stands { StandsFor text.now s.now }
{
    let mut table = ParamTable::new(alloc);
    let world = World::resolve(alloc, text, s, &mut table)?;
    assert_found(rt, &world);
    Ok(())
}

#[test]
fn names_are_found(rt: HostRuntime) -> Result<(), Fail> {
    let skeleton = skeleton_of(rt.alloc(), TEXT)?;
    assert_resolved(&rt, rt.alloc(), TEXT, &skeleton)
}
