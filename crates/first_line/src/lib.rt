//! A sink that passes all on to another, and keeps the beginning of what is put first.
//! It never puts anything of its own.
#![tactic(auto)]

mod first_line;

pub use first_line::FirstLine;
