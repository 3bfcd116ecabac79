//! The laws of paths, over the definitions alone.

ghost use Rattle.swreq_path.specs.Laws.{PathsAreLinks, PathsHaveOneTarget, ReductionPathsReduce};

use swreq_rule::Rule;

/// A path over the rules has one target.
pub fn paths_have_one_target(rules: &[Rule])
    ensures { PathsHaveOneTarget rules.now }
{}

/// A path over the rules leads from one word to another if and only if steps, each forth or back, do.
pub fn paths_are_links(rules: &[Rule])
    ensures { PathsAreLinks rules.now }
{}

/// The path of a word's reduction is a path over the rules from the word to that to which it reduces.
pub fn reduction_paths_reduce(rules: &[Rule])
    ensures { ReductionPathsReduce rules.now }
{}
