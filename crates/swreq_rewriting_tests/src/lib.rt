//! Worked words, rules, pairs, paths and loops, and what is told and found of them: the tests of the theory of rewriting.
#![tactic(auto)]

#[cfg(test)]
mod complete_rules;
#[cfg(test)]
mod completions;
#[cfg(test)]
mod evidence;
#[cfg(test)]
mod notation;
#[cfg(test)]
mod pairs;
#[cfg(test)]
mod paths;
#[cfg(test)]
mod tries;
#[cfg(test)]
mod watchers;
#[cfg(test)]
mod words;
