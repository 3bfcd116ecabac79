//! Worked rows of paths.

ghost use Rattle.std.specs.Prelude.{IfOk};
ghost use Rattle.swreq_homotopy.specs.swreq_path.Paths.{HasTarget, IsPath};

use crate::notation::{assert_row, put_path, put_word, rules, word};
use std::alloc::{AllocError, Global};
use std::process::Abort;
use swreq_complete::path::{Path, compose, invert, path_of};
use swreq_complete::rule::Rule;

/// The rules of a protocol N with a member A, and of a generic parameter that conforms to it.
const RULES: &str = "NN=N NA=a aN=a Na=a aA=aa TN=T TA=Ta";

/// By name, a word, and the path of its reduction, the path back, and both.
const WAYS: &[(&str, &str, &str)] = &[
    (
        "a path of two steps",
        "TAA",
        "TAA +7A T+5 = Taa; Taa T-5 -7A = TAA; TAA +7A T+5 T-5 -7A = TAA; ",
    ),
    ("a path of no steps", "Ta", "Ta = Ta; Ta = Ta; Ta = Ta; "),
];

/// The word to which the path leads.
fn put_target(
    alloc: Global,
    rules: &[Rule],
    path: &Path,
    out: &mut String,
) -> Result<(), AllocError>
    requires { IsPath rules.now path.now }
{
    let target = path.target(alloc, rules)?;
    put_word(out, target.symbols())
}

/// The path, and the word to which it leads.
pub(crate) fn put_way(
    alloc: Global,
    rules: &[Rule],
    path: &Path,
    out: &mut String,
) -> Result<(), AllocError>
    requires { IsPath rules.now path.now }
{
    put_path(out, path)?;
    out.push_str(" = ")?;
    put_target(alloc, rules, path, out)?;
    out.push_str("; ")
}

/// Both paths, one after the other.
fn put_both(
    alloc: Global,
    rules: &[Rule],
    forth: &Path,
    back: &Path,
    out: &mut String,
) -> Result<(), AllocError>
    requires first { HasTarget rules.now forth.now back.now.start }
    requires second { IsPath rules.now back.now }
{
    let both = compose(alloc, rules, forth, back)?;
    put_way(alloc, rules, &both, out)
}

/// The path back, and both.
fn put_back(alloc: Global, rules: &[Rule], forth: &Path, out: &mut String) -> Result<(), AllocError>
    requires { IsPath rules.now forth.now }
{
    let back = invert(alloc, rules, forth)?;
    put_way(alloc, rules, &back, out)?;
    put_both(alloc, rules, forth, &back, out)
}

/// The path of the reduction of the word.
fn forth_of(
    rt: &impl Abort,
    alloc: Global,
    rules: &[Rule],
    letters: &str,
) -> Result<Path, AllocError>
    ensures { IfOk result (IsPath rules.now) }
{
    assert!(rt; rules.len() < 1000);
    let w = word(alloc, letters)?;
    path_of(alloc, rules, &w)
}

/// The path of the reduction of the word, the path back, and both.
fn put_ways(
    rt: &impl Abort,
    alloc: Global,
    rules: &[Rule],
    letters: &str,
    out: &mut String,
) -> Result<(), AllocError> {
    let forth = forth_of(rt, alloc, rules, letters)?;
    put_way(alloc, rules, &forth, out)?;
    put_back(alloc, rules, &forth, out)
}

#[test]
fn paths_of_reduction_go_forth_and_back(rt: HostRuntime) -> Result<(), AllocError> {
    let list = rules(rt.alloc(), RULES)?;
    for (name, letters, wanted) in WAYS {
        let mut out = String::new(rt.alloc());
        put_ways(&rt, rt.alloc(), list.rules(), letters, &mut out)?;
        assert_row(&rt, name, &out, wanted);
    }
    Ok(())
}
