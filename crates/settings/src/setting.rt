//! The settings and their words.
ghost use Rattle.std.specs.Prelude.{◌≡◌};
ghost use Rattle.settings.specs.Words.{setting_word, setting_named, place_of};

/// A setting of a schema.
#[derive(Debug, Clone, Copy)]
pub enum Setting {
    /// Buffer blocks.
    Blocks,
    /// Pages in all.
    Pages,
    /// Partitions of the hash.
    Parts,
    /// Cells of each partition.
    Cells,
    /// Nodes of each partition.
    Nodes,
    /// Bits of a fold that are kept.
    FoldBits,
    /// The most changes of an index.
    MaxChanges,
}

/// All settings, in the order in which they are judged.
pub(crate) const ALL: [Setting; 7] = [
    Setting::Blocks,
    Setting::Pages,
    Setting::Parts,
    Setting::Cells,
    Setting::Nodes,
    Setting::FoldBits,
    Setting::MaxChanges,
];

impl Setting {
    /// The schema's word for it.
    pub fn word(self) -> &'static str
        ensures { result.now ≡ setting_word self }
    {
        match self {
            Setting::Blocks => "blocks",
            Setting::Pages => "pages",
            Setting::Parts => "parts",
            Setting::Cells => "cells",
            Setting::Nodes => "nodes",
            Setting::FoldBits => "fold_bits",
            Setting::MaxChanges => "max_changes",
        }
    }

    /// Its place among all, in the order in which they are judged.
    pub fn place(self) -> u8
        ensures { result ≡ place_of self }
    {
        match self {
            Setting::Blocks => 0,
            Setting::Pages => 1,
            Setting::Parts => 2,
            Setting::Cells => 3,
            Setting::Nodes => 4,
            Setting::FoldBits => 5,
            Setting::MaxChanges => 6,
        }
    }
}

/// The setting of a word.
pub fn find_setting(word: &[u8]) -> Option<Setting>
    ensures { result ≡ setting_named word.now }
{
    for setting in ALL {
        if setting.word().as_bytes() == word {
            return Some(setting);
        }
    }
    None
}
