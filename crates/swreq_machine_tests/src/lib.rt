//! What minimising takes, and the limits that it and the families of protocols have of their own.
#![tactic(auto)]

#[cfg(test)]
mod families;
#[cfg(test)]
mod minimised;
#[cfg(test)]
mod worlds;
