//! Tests of the engine: of what no clause of its calls says. Nothing stands on this crate.
#![tactic(auto)]

#[cfg(test)]
mod asked;
#[cfg(test)]
mod busy_leaf;
#[cfg(test)]
mod calls;
#[cfg(test)]
mod cases;
#[cfg(test)]
mod claims;
#[cfg(test)]
mod cursors;
#[cfg(test)]
mod errands;
#[cfg(test)]
mod guesses;
#[cfg(test)]
mod hashed;
#[cfg(test)]
mod lanes;
#[cfg(test)]
mod limits;
#[cfg(test)]
mod meanwhile;
#[cfg(test)]
mod merges;
#[cfg(test)]
mod names;
#[cfg(test)]
mod neighbours;
#[cfg(test)]
mod pieces;
#[cfg(test)]
mod plot;
#[cfg(test)]
mod recount;
#[cfg(test)]
mod restored;
#[cfg(test)]
mod room;
#[cfg(test)]
mod rounds;
#[cfg(test)]
mod scans;
#[cfg(test)]
mod sets;
#[cfg(test)]
mod setup;
#[cfg(test)]
mod site;
#[cfg(test)]
mod steps;
#[cfg(test)]
mod walking;
