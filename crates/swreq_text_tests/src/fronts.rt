//! Fronts of texts of the grammar.

use std::alloc::Global;
use std::process::Abort;
use swreq_world::decl::{ParseErr, parse};
use swreq_world::lex::TEXT_LIMIT;

/// Texts of the grammar by name, with a space between all tokens.
const WHOLES: &[(&str, &str)] = &[
    (
        "a protocol",
        "public protocol P < A , B > : Q < A , B . C > & R , S where Self . A == B , C : D < E > { associatedtype E : F < G > where G == H ; } ",
    ),
    (
        "a struct",
        "internal struct S < T : P < U > > where T : Q { public func f ( ) ; func g < V > ( ) where V == T { } } ",
    ),
    (
        "a function",
        "private func f < T : P & Q , U > ( ) where T . A : B & C , Self == U { } ",
    ),
    (
        "a query of an equality",
        "query f ( T . [ P ] A . B == U . [ Q ] C ) ",
    ),
    ("a query of a layout", "query S . f ( T . A : AnyObject ) "),
];

/// Whether the text is of the grammar, or refused at its end.
fn is_of_the_grammar_or_ends_too_early(rt: &impl Abort, alloc: Global, text: &[u8]) -> bool {
    assert!(rt; text.len() <= TEXT_LIMIT);
    match parse(alloc, text) {
        Ok(_) => true,
        Err(ParseErr::Syntax { at }) => at as usize == text.len(),
        Err(_) => false,
    }
}

/// Asserts that each front of the text before a space is of the grammar, or refused at its end.
fn assert_fronts(rt: &impl Abort, alloc: Global, name: &str, whole: &[u8]) {
    for (length, byte) in whole.iter().enumerate() {
        if *byte == b' ' {
            let front = &whole[..length];
            assert!(rt;
                is_of_the_grammar_or_ends_too_early(rt, alloc, front),
                "{name}, {length} bytes of it"
            );
        }
    }
}

#[test]
fn a_text_that_ends_in_a_construct_is_refused_at_its_end(rt: HostRuntime) {
    for (name, whole) in WHOLES {
        assert_fronts(&rt, rt.alloc(), name, whole.as_bytes());
    }
}
