//! The row of an index that a mode asks for, on the leaf of a tuple's position or on those beside it.
//! Nothing here takes a tree or changes a row.
#![tactic(auto)]

mod hitting;
mod looking;
mod pairing;
mod row_seek;
mod seek_call;
mod seeking;
mod walking;

pub use row_seek::seek_row;
