//! What a setting has to be.
use map_history::LANE_BLOCKS;
use settings::{Setting, find_setting};
use std::alloc::AllocError;
use std::fmt::Write;

/// Puts what the setting of this name has to be, for so many lanes.
pub fn put_wanted(text: &mut String, setting: &str, lanes: usize) -> Result<(), AllocError> {
    let wanted = match find_setting(setting.as_bytes()) {
        Some(Setting::Blocks) => return put_blocks(text, lanes),
        Some(Setting::Pages) => {
            "pages is to be as many as there are indexes or more, and at most 65,536"
        }
        Some(Setting::Parts) => {
            "parts is to be 1 to 512, and parts times blocks at most 16,777,216"
        }
        Some(Setting::Cells) => "cells is to be 1 or more, and parts times cells at most 4,194,304",
        Some(Setting::Nodes) => "parts times nodes is to be at most 4,194,304",
        Some(Setting::FoldBits) => "fold_bits is to be 1 to 64",
        Some(Setting::MaxChanges) => "max_changes is to be 1 to 8,388,608",
        None => return write!(text, "{setting} is outside its limits"),
    };
    text.push_str(wanted)
}

fn put_blocks(text: &mut String, lanes: usize) -> Result<(), AllocError> {
    let each = LANE_BLOCKS as usize;
    let want = lanes.saturating_add(1).saturating_mul(each);
    write!(
        text,
        "blocks is to be {want} or more for so many lanes, and at most 65,536"
    )
}
