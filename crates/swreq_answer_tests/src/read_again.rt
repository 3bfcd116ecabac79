//! Lines of derivations that are read and printed again.

ghost use Rattle.std.specs.Prelude.{◌≤◌, length};
ghost use Rattle.swreq_resolve.specs.swreq_decl.Skeletons.{StandsFor};
ghost use Rattle.swreq_print.specs.Reading.{TellsApart};

use crate::lines::assert_text;
use std::alloc::Global;
use std::process::Abort;
use std::test::Fail;
use swreq_lines::{lines_text, read_lines};
use swreq_print::decl::Skeleton;
use swreq_print::laws::names_tell_ids_apart;
use swreq_print::lexicon::Lexicon;
use swreq_print::lowering::lists_are_short;
use swreq_print::param::ParamTable;
use swreq_resolve::resolve_names;
use swreq_samples::skeleton_of;

/// A text with a protocol named `by`, and one named as a rule.
const TEXT: &str = "\
protocol N { associatedtype Next: N }
protocol by { associatedtype Next }
protocol CONF { associatedtype from }
";

/// A line by each rule.
const EACH_RULE: &str = "  1. τ_0_0 by GENERIC
  2. τ_0_0 : N by CONF 1
  3. τ_0_0 == τ_1_0 by SAME 2
  4. τ_0_0 : AnyObject by LAYOUT 3
  5. τ_0_0.Next by ASSOCNAME N Next from 2
  6. τ_0_0.[N]Next by ASSOCDECL N Next from 2
  7. τ_0_0.[N]Next == τ_0_0.Next by ASSOCBIND N Next from 2
  8. τ_0_0.[N]Next : N by ASSOCCONF N 1 from 2
  9. τ_0_0.from == τ_0_0.[CONF]from by ASSOCSAME CONF 2 from 2
  10. τ_0_0.[N]Next.Next.[by]Next : AnyObject by ASSOCLAYOUT by 3 from 2
  11. τ_0_0 == τ_0_0 by REFLEX from 1
  12. τ_1_0 == τ_0_0 by SYMM from 3
  13. τ_0_0 == τ_0_0 by TRANS from 3, 12
  14. τ_1_0 : N by SAMECONF N from 2, 12
  15. τ_1_0 : AnyObject by SAMELAYOUT from 4, 12
  16. τ_1_0.Next == τ_0_0.Next by SAMENAME N Next from 2, 12
  17. τ_1_0.[N]Next == τ_0_0.[N]Next by SAMEDECL N Next from 2, 12
";

/// Appends what is printed of the lines that are read.
fn put_again(alloc: Global, names: &Lexicon, text: &[u8], out: &mut Vec<u8>) -> Result<(), Fail>
    requires names { TellsApart names.now }
    requires short { length text.now ≤ 1048576 }
{
    let mut table = ParamTable::new(alloc);
    let lines = read_lines(alloc, names, &mut table, text)?;
    Ok(lines_text(alloc, names, &table, &lines, out)?)
}

/// Asserts that a line by each rule is read and printed again.
fn assert_again(rt: &impl Abort, alloc: Global, names: &Lexicon) -> Result<(), Fail>
    requires { TellsApart names.now }
{
    let mut out = Vec::new(alloc);
    put_again(alloc, names, EACH_RULE.as_bytes(), &mut out)?;
    Ok(assert_text(rt, alloc, "each rule", &out, EACH_RULE)?)
}

/// Asserts that the lines are read and printed again with the names of a text.
fn assert_with_names(rt: &impl Abort, alloc: Global, text: &[u8], s: &Skeleton) -> Result<(), Fail>
    requires short { length text.now ≤ 1048576 }
    requires stands { StandsFor text.now s.now }
{
    lists_are_short(text);
    names_tell_ids_apart(text);
    let names = resolve_names(alloc, text, s)?;
    let names = Lexicon::of(alloc, text, s, names)?;
    assert_again(rt, alloc, &names)
}

/// Each kind of statement, and each rule.
#[test]
fn lines_are_read_and_printed_again(rt: HostRuntime) -> Result<(), Fail> {
    let skeleton = skeleton_of(rt.alloc(), TEXT.as_bytes())?;
    assert_with_names(&rt, rt.alloc(), TEXT.as_bytes(), &skeleton)
}
