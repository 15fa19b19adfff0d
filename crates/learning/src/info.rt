//! What an index has learnt.
ghost use Rattle.std.specs.Prelude.{◌≡◌};
ghost use Rattle.learning.specs.Opening.{opening_info};

use key_tuple::Params;

/// What an index has learnt: a recommendation how to hash its keys, and what that promises.
#[derive(Clone, Copy, PartialEq, Eq)]
pub struct Info {
    /// How many descents the recommendation has waited to be looked at.
    pub analysis: u8,
    /// How often descents have confirmed the recommendation, and hits raised it.
    pub potential: u8,
    /// The recommendation.
    pub params: Params,
    /// Whether the last search would have been, or was, answered by the hash.
    pub last: bool,
    /// How many events have been counted.
    pub events: u32,
}

impl Info {
    /// What an index begins with: one whole field, the first row of a group, and no promise.
    pub fn opening() -> Info
        ensures { result ≡ opening_info }
    {
        Info {
            analysis: 0,
            potential: 0,
            params: Params {
                fields: 1,
                bytes: 0,
                left: true,
            },
            last: false,
            events: 0,
        }
    }
}
