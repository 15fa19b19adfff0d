//! Lanes taken apart after they worked.
ghost use Rattle.std.specs.Prelude.{IfOk, OnOk};
ghost use Rattle.lane_threads.specs.Doing.{ArePartsOf, AddsPartsOf, GetsRoom};

use crate::doer::{DoneLane, LaneDoer};
use change_log::LaneLog;
use index_engine::EnginePass;
use key_tuple::NoMemory;
use map_history::Counts;
use report_text::Texts;
use std::alloc::Global;

/// What lanes had and were told, in order.
#[derive(Drop)]
pub(crate) struct Parts<'a> {
    pub(crate) passes: Vec<EnginePass>,
    pub(crate) answers: Vec<Texts>,
    pub(crate) logs: Vec<LaneLog<'a>>,
    pub(crate) counts: Vec<Vec<Counts>>,
}

impl<'a> Parts<'a> {
    /// Puts the parts of one more lane behind the others. A lane that isn't done makes it
    /// `NoMemory`.
    fn add(&mut self, mut doer: LaneDoer<'_, 'a>) -> Result<(), NoMemory>
        ensures { OnOk result (AddsPartsOf doer.entry self.old self.new) }
    {
        self.reserve_one()?;
        let Some(lane) = doer.done.take() else {
            return Err(NoMemory);
        };
        let DoneLane { pass, work } = lane;
        self.passes.push_reserved(pass);
        self.answers.push_reserved(work.answers);
        self.logs.push_reserved(work.log);
        self.counts.push_reserved(work.counts);
        Ok(())
    }

    /// Makes room for the parts of one more lane, so that no push is refused.
    fn reserve_one(&mut self) -> Result<(), NoMemory>
        ensures { OnOk result (GetsRoom self.old self.new) }
    {
        self.passes.reserve(1)?;
        self.answers.reserve(1)?;
        self.logs.reserve(1)?;
        self.counts.reserve(1)?;
        Ok(())
    }
}

/// The parts of all lanes. A lane that isn't done makes it `NoMemory`.
pub(crate) fn take_apart<'e, 'a>(
    alloc: Global,
    doers: Vec<LaneDoer<'e, 'a>>,
) -> Result<Parts<'a>, NoMemory>
    ensures { IfOk result (ArePartsOf doers.entry.items) }
{
    let mut parts = Parts {
        passes: Vec::new(alloc),
        answers: Vec::new(alloc),
        logs: Vec::new(alloc),
        counts: Vec::new(alloc),
    };
    for doer in doers {
        parts.add(doer)?;
    }
    Ok(parts)
}
