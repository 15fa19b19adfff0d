//! Tests of files in, bytes out, lanes in threads, and of reports and refusals that are put or said.
//! Nothing stands on this crate.
#![tactic(auto)]

#[cfg(test)]
mod copying;
#[cfg(test)]
mod doers;
#[cfg(test)]
mod ends;
#[cfg(test)]
mod fake_files;
#[cfg(test)]
mod fakes;
#[cfg(test)]
mod flaws;
#[cfg(test)]
mod meeting;
#[cfg(test)]
mod real;
#[cfg(test)]
mod refusals;
#[cfg(test)]
mod report;
#[cfg(test)]
mod said;
#[cfg(test)]
mod streams;
#[cfg(test)]
mod teller;
