//! Tests of the top call.
#![tactic(auto)]

#[cfg(test)]
mod dealt;
#[cfg(test)]
mod drawing;
#[cfg(test)]
mod drawn;
#[cfg(test)]
mod frames;
#[cfg(test)]
mod generated;
#[cfg(test)]
mod judged;
#[cfg(test)]
mod judging;
#[cfg(test)]
mod learnt;
#[cfg(test)]
mod limits;
#[cfg(test)]
mod meeting;
#[cfg(test)]
mod one_bit;
#[cfg(test)]
mod reading;
#[cfg(test)]
mod refused;
#[cfg(test)]
mod reported;
#[cfg(test)]
mod rows;
#[cfg(test)]
mod schema_sizes;
#[cfg(test)]
mod seeks;
#[cfg(test)]
mod setup;
#[cfg(test)]
mod sought;
#[cfg(test)]
mod tables;
#[cfg(test)]
mod together;
#[cfg(test)]
mod trail;
#[cfg(test)]
mod trees;
#[cfg(test)]
mod turns;
