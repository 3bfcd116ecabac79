//! What follows where only inheritance and conformances are written.

use swreq_derive::param::{ParamId, ProtoId};
use swreq_derive::plain::{Conformance, Inheritance, is_derivable};

const P0: ProtoId = ProtoId { rank: 0 };

const P1: ProtoId = ProtoId { rank: 1 };

const P2: ProtoId = ProtoId { rank: 2 };

const P3: ProtoId = ProtoId { rank: 3 };

const T: ParamId = ParamId { depth: 0, index: 0 };

const U: ParamId = ParamId { depth: 0, index: 1 };

const V: ParamId = ParamId { depth: 0, index: 2 };

/// protocol P1: P0, and protocol P2: P1
const ENTRIES: &[Inheritance] = &[
    Inheritance {
        heir: P1,
        parent: P0,
    },
    Inheritance {
        heir: P2,
        parent: P1,
    },
];

/// func f<T: P2, U: P3, V: P0>()
const WRITTEN: &[Conformance] = &[
    Conformance {
        param: T,
        proto: P2,
    },
    Conformance {
        param: U,
        proto: P3,
    },
    Conformance {
        param: V,
        proto: P0,
    },
];

/// By name, a generic parameter, a protocol, and whether the one conforms to the other.
const ASKED: &[(&str, ParamId, ProtoId, bool)] = &[
    ("as it is written", T, P2, true),
    ("the parent of what is written", T, P1, true),
    ("the parent's parent", T, P0, true),
    ("a protocol without heirs or parents", T, P3, false),
    ("as it is written, without a parent", U, P3, true),
    ("a protocol of other generic parameters", U, P0, false),
    ("as it is written, with heirs", V, P0, true),
    ("an heir of what is written", V, P1, false),
];

#[test]
fn inheritance_goes_one_way(rt: HostRuntime) {
    for (name, param, proto, answer) in ASKED {
        let asked = Conformance {
            param: *param,
            proto: *proto,
        };
        assert_eq!(rt; is_derivable(ENTRIES, WRITTEN, asked), *answer, "{name}");
    }
}
