//! Words of command lines, generated texts, and lines of derivations that are read and printed again.
#![tactic(auto)]

#[cfg(test)]
mod command_lines;
#[cfg(test)]
mod generated;
#[cfg(test)]
mod lines;
#[cfg(test)]
mod read_again;
