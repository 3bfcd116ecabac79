//! Runs on streams that fail, with watchers, and on large texts.
#![tactic(auto)]

#[cfg(test)]
mod large;
#[cfg(test)]
mod running;
#[cfg(test)]
mod streams;
#[cfg(test)]
mod watchers;
