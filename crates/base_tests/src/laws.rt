//! The laws of maps can be cited.
use map_history::{
    changes_are_local, lists_grow, maps_ascend, replies_stay, reports_without_full_have_room,
    searches_find, slices_change,
};

#[test]
fn the_laws_can_be_cited(_rt: HostRuntime) {
    maps_ascend();
    changes_are_local();
    slices_change();
    lists_grow();
    replies_stay();
    searches_find();
    reports_without_full_have_room();
}
