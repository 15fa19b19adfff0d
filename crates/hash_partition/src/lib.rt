//! A partition of the hash: a bag of nodes with room for so many, and a stamp of each block.
//! It never looks at a row, and takes no memory once it is made.
#![tactic(auto)]

mod partition;

pub use partition::Partition;
