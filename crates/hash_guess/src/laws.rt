//! The law of hits, the contract of a function that does nothing.
ghost use Rattle.hash_guess.specs.Hits.{HitsReach};

/// In each lawful state that fits a pass with a hit in hand, the hit's row is the one that a search
/// reaches.
pub fn hits_reach()
    ensures { HitsReach }
{}
