//! Tests of the hash's chains, partitions, learning and learner, of the upkeep of hashed leaves, and of the law of
//! hashed leaves by the program: what it says that a change of rows changes is done in a partition.
#![tactic(auto)]

#[cfg(test)]
mod chains;
#[cfg(test)]
mod changes;
#[cfg(test)]
mod claims;
#[cfg(test)]
mod drawn;
#[cfg(test)]
mod guesses;
#[cfg(test)]
mod learners;
#[cfg(test)]
mod leaves;
#[cfg(test)]
mod lessons;
#[cfg(test)]
mod partitions;
#[cfg(test)]
mod recount;
#[cfg(test)]
mod rows;
#[cfg(test)]
mod runs;
#[cfg(test)]
mod shared;
#[cfg(test)]
mod steps;
#[cfg(test)]
mod worked;
