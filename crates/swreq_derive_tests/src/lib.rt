//! Type parameters in their table, and what follows from inheritance alone.
#![tactic(auto)]

#[cfg(test)]
mod params;
#[cfg(test)]
mod plain;
