//! The laws of counted replies.
ghost use Rattle.reply_counts.specs.Laws.{CountsFollowAnswers, RepliesAreAll};

/// Where an answer comes behind others, its reply is counted with theirs.
pub fn counts_follow_answers()
    ensures { CountsFollowAnswers }
{}

/// Where no list of changes was full and nothing was scanned, each answer is counted once.
pub fn replies_are_all()
    ensures { RepliesAreAll }
{}
