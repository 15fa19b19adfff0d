//! A learner, and how it begins.
ghost use Rattle.std.specs.Prelude.{◌≡◌, ◌+◌, length};

use crate::knows::Knows;
use crate::law::{Law, Settings};
use atomic_table::Table;
use std::alloc::Global;

/// What all indexes have learnt, a word for each, shared by all passes.
pub struct Learner {
    pub(crate) table: Table<u64, Knows, Settings, Law, Global>,
    pub(crate) settings: Settings,
    ghost keyed: { table.shared.key ≡ settings },
    ghost words: { table.shared.table_id.words ≡ length settings.starts.items + 1 },
}

// Written out, so that a crate above drops it by one call.
impl Drop for Learner {
    fn drop(self) {
        let Self {
            table: _,
            settings: _,
        } = self;
    }
}
