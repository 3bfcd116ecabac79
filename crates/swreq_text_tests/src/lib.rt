//! Worked texts: their tokens, the fronts of texts of the grammar, and what is found in a world by its name.
#![tactic(auto)]

#[cfg(test)]
mod found;
#[cfg(test)]
mod fronts;
#[cfg(test)]
mod tokens;
