//! Worked reports: which are legal, and which are not, each the contract of a function that does
//! nothing. They show what the definition of a legal report lets through.
#![tactic(auto)]

mod legal;
mod scans;
mod spelt;
mod spoilt;

pub use legal::{
    absent_del_is_legal, absent_set_is_legal, empty_lane_is_legal, row_life_is_legal,
    second_put_is_legal,
};
pub use scans::{
    first_two_are_a_scan_of_two, last_left_out_is_no_scan, one_piece_is_a_scan,
    other_way_round_is_no_scan, puts_and_other_way_round_are_illegal, puts_and_scan_are_legal,
    row_left_out_is_no_scan, row_twice_is_no_scan, two_pieces_are_a_scan,
};
pub use spelt::{empty_lane_is_spelt, puts_and_scan_are_spelt, row_life_is_spelt};
pub use spoilt::{
    early_point_is_illegal, extra_change_is_illegal, late_point_is_illegal,
    missing_change_is_illegal, other_change_is_illegal, other_value_is_illegal,
    untold_search_is_illegal,
};
