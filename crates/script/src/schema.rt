//! The indexes of a run.
ghost use Rattle.std.specs.Prelude.{map, string_bytes};
ghost use Rattle.script.specs.Schema.{IsSchema};

use map_history::Sizes;

/// Sizes, and for each index its name and how many fields its keys have: 1 to 64 indexes, numbered
/// from 0, of 1 to 4 fields, and no two of one name.
#[derive(Drop)]
pub struct Schema {
    pub sizes: Sizes,
    pub names: Vec<String>,
    pub fields: Vec<u8>,
    pub ghost shape: { IsSchema (map string_bytes names.items) fields.items },
}
