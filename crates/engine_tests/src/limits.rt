//! What an opening refuses.
use crate::claims::{ensure, ensure_at};
use crate::setup::smallest;
use index_engine::{Engine, EngineError, EnginePass};
use map_history::Sizes;
use settings::{Setting, set_size};
use std::process::Abort;

/// A setting of the smallest sizes for three indexes, for so many lanes, and whether these open or
/// are refused.
type Case = (Setting, u32, u32, bool);

/// With 16 blocks, 1 part and 1 cell the products are within. 256 blocks are for 31 lanes.
static SETTINGS: [Case; 15] = [
    (Setting::Blocks, 15, 1, false),
    (Setting::Blocks, 65_537, 1, false),
    (Setting::Blocks, 256, 31, true),
    (Setting::Blocks, 256, 32, false),
    (Setting::Pages, 2, 1, false),
    (Setting::Pages, 65_537, 1, false),
    (Setting::Parts, 0, 1, false),
    (Setting::Parts, 513, 1, false),
    (Setting::Cells, 0, 1, false),
    (Setting::Nodes, 4_194_305, 1, false),
    (Setting::FoldBits, 0, 1, false),
    (Setting::FoldBits, 65, 1, false),
    (Setting::MaxChanges, 0, 1, false),
    (Setting::MaxChanges, 8_388_608, 1, true),
    (Setting::MaxChanges, 8_388_609, 1, false),
];

/// Whether an opening with these sizes gave a pass of them, or was refused by the setting.
fn is_so(opened: &Result<(Engine, EnginePass), EngineError>, sizes: &Sizes, case: &Case) -> bool {
    let (setting, _, _, opens) = *case;
    match opened {
        Ok((_, pass)) => opens && *pass.sizes() == *sizes,
        Err(EngineError::BadSize(refused)) => !opens && *refused == setting,
        Err(EngineError::NoMemory) => false,
    }
}

/// Whether these open with such sizes, or are refused by the setting.
fn is_opened_so<R: AllocGlobal + Abort>(rt: &R, case: &Case) -> bool {
    let (setting, number, lanes, _) = *case;
    let mut sizes = smallest(3, 1);
    set_size(&mut sizes, setting, number);
    ensure(rt, 0 < lanes && lanes <= 64, "so many lanes");
    is_so(
        &Engine::open(rt.alloc(), &sizes, &[1, 1, 4], lanes),
        &sizes,
        case,
    )
}

#[test]
fn a_setting_past_its_limit_is_named(rt: HostRuntime) {
    for (place, case) in SETTINGS.iter().enumerate() {
        ensure_at(&rt, is_opened_so(&rt, case), "setting", place);
    }
}
