//! Generated texts, byte for byte.

ghost use Rattle.std.specs.Prelude.{◌≤◌};

use crate::lines::assert_text;
use std::alloc::{AllocError, Global};
use std::process::Abort;
use swreq_gen::text;

const FIRST: &str = "\
protocol L1 { associatedtype A1: L1 }
func f<T: L1, U: L1>() where T.A1 == U.A1 { }
query f(T.A1 : L1)
query f(T.A1 == U.A1)
query f(T.A1 : L1)
query f(T.A1 : L1)
query f()
";

const SECOND: &str = "\
protocol L1 { associatedtype A1: L2 }
protocol L2 { associatedtype A2: L1 }
func f<T: L1, U: L1>() where T.A1 == U.A1 { }
query f(T.A1 : L2)
query f(T.A1 == U.A1)
query f(T.A1 : L1)
query f(T.A1 : L1)
query f(T.A1.A2 : L1)
query f(T.A1.A2 == U.A1.A2)
query f(T.A1.A2 : L2)
query f(T.A2 : L1)
query f()
";

const THIRD: &str = "\
protocol L1 { associatedtype A1: L2 }
protocol L2 { associatedtype A2: L3 }
protocol L3 { associatedtype A3: L1 }
func f<T: L1, U: L1>() where T.A1 == U.A1 { }
query f(T.A1 : L2)
query f(T.A1 == U.A1)
query f(T.A1 : L1)
query f(T.A1 : L1)
query f(T.A1.A2 : L3)
query f(T.A1.A2 == U.A1.A2)
query f(T.A1.A2 : L2)
query f(T.A2 : L1)
query f(T.A1.A2.A3 : L1)
query f(T.A1.A2.A3 == U.A1.A2.A3)
query f(T.A1.A2.A3 : L3)
query f(T.A3 : L1)
query f()
";

/// The generated text of n, for 1 to 3, and its name.
fn wanted(n: u32) -> (&'static str, &'static str) {
    match n {
        1 => ("a protocol whose member conforms to it", FIRST),
        2 => ("two protocols in a ring", SECOND),
        _ => ("three protocols in a ring", THIRD),
    }
}

/// Asserts what the generated text of n is, for 1 to 3.
fn assert_generated(rt: &impl Abort, alloc: Global, n: u32) -> Result<(), AllocError>
    requires { (1 ≤ n) × (n ≤ 100) }
{
    let made = text(alloc, n)?;
    let (name, wanted) = wanted(n);
    assert_text(rt, alloc, name, &made, wanted)
}

/// How long the generated text of 100 is.
fn longest(alloc: Global) -> Result<usize, AllocError> {
    let made = text(alloc, 100)?;
    Ok(made.len())
}

#[test]
fn the_texts_of_1_to_3_and_the_length_of_that_of_100(rt: HostRuntime) -> Result<(), AllocError> {
    for n in 1..4 {
        assert_generated(&rt, rt.alloc(), n)?;
    }
    assert!(rt; longest(rt.alloc())? == 88_456);
    Ok(())
}
