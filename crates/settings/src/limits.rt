//! The limits of the settings.
ghost use Rattle.std.specs.Prelude.{◌≡◌, ◌≤◌};
ghost use Rattle.settings.specs.Limits.{first_broken, fits_limits};

use crate::setting::{ALL, Setting};
use map_history::{LANE_BLOCKS, MAX_LANES, Sizes};

const MAX_BLOCKS: u32 = 65_536;

const MAX_PAGES: u32 = 65_536;

const MAX_PARTS: u32 = 512;
/// The most partitions times blocks.
const MAX_COUNTERS: u64 = 16_777_216;
/// The most cells, and the most nodes, of all partitions.
const MAX_CELLS: u64 = 4_194_304;

const MAX_NODES: u64 = 4_194_304;

const MAX_FOLD_BITS: u32 = 64;

const MAX_CHANGES: u32 = 8_388_608;

/// The setting is within its limits, for so many indexes and lanes. Products of two settings
/// are judged with the second, but that of partitions and blocks with the first.
fn is_within(setting: Setting, sizes: &Sizes, indexes: u32, lanes: u32) -> bool
    requires { lanes ≤ MAX_LANES }
    ensures { result ≡ fits_limits sizes.now indexes lanes setting }
{
    let parts = u64::from(sizes.parts);
    match setting {
        Setting::Blocks => {
            LANE_BLOCKS * lanes + LANE_BLOCKS <= sizes.blocks && sizes.blocks <= MAX_BLOCKS
        }
        Setting::Pages => indexes <= sizes.pages && sizes.pages <= MAX_PAGES,
        Setting::Parts => {
            1 <= sizes.parts
                && sizes.parts <= MAX_PARTS
                && parts * u64::from(sizes.blocks) <= MAX_COUNTERS
        }
        Setting::Cells => 1 <= sizes.cells && parts * u64::from(sizes.cells) <= MAX_CELLS,
        Setting::Nodes => parts * u64::from(sizes.nodes) <= MAX_NODES,
        Setting::FoldBits => 1 <= sizes.fold_bits && sizes.fold_bits <= MAX_FOLD_BITS,
        Setting::MaxChanges => 1 <= sizes.max_changes && sizes.max_changes <= MAX_CHANGES,
    }
}

/// The first setting that isn't within its limits, for so many indexes and lanes.
pub fn broken_setting(sizes: &Sizes, indexes: u32, lanes: u32) -> Option<Setting>
    requires { lanes ≤ MAX_LANES }
    ensures { result ≡ first_broken sizes.now indexes lanes }
{
    for setting in ALL {
        if !is_within(setting, sizes, indexes, lanes) {
            return Some(setting);
        }
    }
    None
}
