//! Tests of pages. Nothing stands on this crate, so that no crate is proved a second time for them.
#![tactic(auto)]

#[cfg(test)]
mod claims;
#[cfg(test)]
mod dumps;
#[cfg(test)]
mod long_dumps;
#[cfg(test)]
mod records;
#[cfg(test)]
mod room;
#[cfg(test)]
mod rows;
#[cfg(test)]
mod setup;
#[cfg(test)]
mod twins;
