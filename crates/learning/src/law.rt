//! The laws of learning, each the contract of a function that does nothing.
ghost use Rattle.learning.specs.Laws.{WordsTellInfos, InfosStayBounded, EventsAreCounted, RecommendationsAreConfirmed};

/// A word tells the info that was packed into it.
pub fn words_tell_infos()
    ensures { WordsTellInfos }
{}

/// What an index learns asks for no more fields than the index has, and fits the word.
pub fn infos_stay_bounded()
    ensures { InfosStayBounded }
{}

/// The event count counts the events.
pub fn events_are_counted()
    ensures { EventsAreCounted }
{}

/// The search that recommends a prefix confirms it.
pub fn recommendations_are_confirmed()
    ensures { RecommendationsAreConfirmed }
{}
