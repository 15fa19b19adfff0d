//! Laws of legal reports: what follows from the definition for every report that meets it.
//! Each is the contract of a function that does nothing; the program doesn't use this crate.
#![tactic(auto)]

mod full;
mod samples;
mod spelling;

pub use full::{
    log_full_has_cause, no_log_full, no_log_full_of_index, no_space_full, space_full_has_cause,
};
pub use samples::{late_row_is_passed_over, one_put_may_find_none, two_puts_may_be_full};
pub use spelling::{
    answers_tell_all, bytes_spell_one_formed_report, bytes_spell_one_plain_report,
    bytes_spell_one_report,
};
