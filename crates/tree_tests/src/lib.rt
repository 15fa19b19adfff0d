//! Tests of a pair on a latch space, of spaces of trees, of the rows of a leaf, of pages by their numbers,
//! of guesses and of a descent beside a held tree: of what no clause says. Nothing stands on this crate.
#![tactic(auto)]

#[cfg(test)]
mod beside;
#[cfg(test)]
mod claims;
#[cfg(test)]
mod guesses;
#[cfg(test)]
mod held_tree;
#[cfg(test)]
mod opening;
#[cfg(test)]
mod pages;
#[cfg(test)]
mod pair;
#[cfg(test)]
mod rows;
#[cfg(test)]
mod setup;
