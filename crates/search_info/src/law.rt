//! The rule of the learner's table.
ghost use Rattle.search_info.specs.Rule.{KeptWords, knows_first};

use crate::knows::Knows;
use atomic_table::TableRule;
use learning::Info;

/// What a learner is told when it is opened.
#[derive(Drop)]
pub struct Settings {
    pub starts: Vec<(Info, u8)>,
    pub passes: u32,
}

/// Each word is what its index has learnt from one list of events.
pub struct Law;

impl TableRule<u64, Knows, Settings> for Law {
    ghost holds = { KeptWords };

    ghost first = { knows_first };
}
