//! What a setting has among the sizes of a run.
ghost use Rattle.std.specs.Prelude.{◌≡◌};
ghost use Rattle.settings.specs.Sized.{size_of, with_size};

use crate::setting::Setting;
use map_history::Sizes;

/// What the setting is.
pub fn size(sizes: &Sizes, setting: Setting) -> u32
    ensures { result ≡ size_of sizes.now setting }
{
    match setting {
        Setting::Blocks => sizes.blocks,
        Setting::Pages => sizes.pages,
        Setting::Parts => sizes.parts,
        Setting::Cells => sizes.cells,
        Setting::Nodes => sizes.nodes,
        Setting::FoldBits => sizes.fold_bits,
        Setting::MaxChanges => sizes.max_changes,
    }
}

/// Makes the setting a number, and leaves the others as they are.
pub fn set_size(sizes: &mut Sizes, setting: Setting, number: u32)
    ensures { sizes.new ≡ with_size sizes.old setting number }
{
    match setting {
        Setting::Blocks => sizes.blocks = number,
        Setting::Pages => sizes.pages = number,
        Setting::Parts => sizes.parts = number,
        Setting::Cells => sizes.cells = number,
        Setting::Nodes => sizes.nodes = number,
        Setting::FoldBits => sizes.fold_bits = number,
        Setting::MaxChanges => sizes.max_changes = number,
    }
}
