//! Tests of `report_reading` and of `map_ranges`: of what no clause of them says. Nothing stands on this crate, and it has
//! no code but tests.
#![tactic(auto)]

#[cfg(test)]
mod edits;
#[cfg(test)]
mod forms;
#[cfg(test)]
mod scans;
#[cfg(test)]
mod seeks;
#[cfg(test)]
mod setup;
#[cfg(test)]
mod told;
