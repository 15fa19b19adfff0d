//! What a build came to.
ghost use Rattle.std.specs.Prelude.{◌≡◌};
ghost use Rattle.hash_upkeep.specs.Build.{built_after};

use key_tuple::Params;

/// What a build came to.
#[derive(Clone, Copy, PartialEq, Eq)]
pub enum Build {
    /// So many entries were entered.
    Built { nodes: u32 },
    /// The leaf was hashed with these parameters.
    NotNeeded,
    /// There are more entries than were spare once the old ones were out: the block isn't hashed.
    ArenaFull { need: u32, spare: u32 },
}

impl Build {
    /// With which parameters the block is hashed after a build with these, if it is.
    pub fn built_after(&self, params: Params) -> Option<Params>
        ensures { result ≡ built_after self.now params }
    {
        match self {
            Build::Built { .. } | Build::NotNeeded => Some(params),
            Build::ArenaFull { .. } => None,
        }
    }
}
