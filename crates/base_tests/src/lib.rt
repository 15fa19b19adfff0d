//! Tests of keys, maps, files of words and lines of reports: of what no clause of theirs says.
//! Nothing stands on this crate, and it has no code but tests.
#![tactic(auto)]

#[cfg(test)]
mod answers;
#[cfg(test)]
mod drawing;
#[cfg(test)]
mod drawn;
#[cfg(test)]
mod edited;
#[cfg(test)]
mod files;
#[cfg(test)]
mod folds;
#[cfg(test)]
mod generator;
#[cfg(test)]
mod grammar;
#[cfg(test)]
mod judged;
#[cfg(test)]
mod laws;
#[cfg(test)]
mod limits;
#[cfg(test)]
mod lines;
#[cfg(test)]
mod maps;
#[cfg(test)]
mod merges;
#[cfg(test)]
mod order;
#[cfg(test)]
mod rows;
#[cfg(test)]
mod scan_lines;
#[cfg(test)]
mod schema_sizes;
#[cfg(test)]
mod script_limits;
#[cfg(test)]
mod setup;
#[cfg(test)]
mod sizes;
#[cfg(test)]
mod sought;
#[cfg(test)]
mod uses;
