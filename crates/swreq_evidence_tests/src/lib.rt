//! The numbers of worked paths, calls that no text says, and what a caller of the library prints.
#![tactic(auto)]

#[cfg(test)]
mod calls;
#[cfg(test)]
mod names;
#[cfg(test)]
mod paths;
#[cfg(test)]
mod printed;
#[cfg(test)]
mod worlds;
