//! What one lane notes while it works.
use crate::change::LaneChange;
use key_tuple::NoMemory;
use std::alloc::{AllocError, Global};
use std::marker::Model;

/// The changes of one lane, of all indexes, in the order in which they were noted. A contract sees
/// the list `noted`, and as `room` how many it was reserved for.
#[derive(Drop)]
pub struct LaneLog<'a> {
    noted: Vec<LaneChange<'a>>,
}

impl<'a> Model for LaneLog<'a> {
    ghost use Rattle.std.specs.Prelude.{vec_capacity, map};
    ghost use Rattle.change_log.specs.Log.{Log, note_of};

    ghost Value = { Log };

    ghost view = { λ log. record {
      noted = map note_of log.noted.items;
      room = vec_capacity log.noted;
    } };
}

impl<'a> LaneLog<'a> {
    ghost use Rattle.std.specs.Prelude.{◌≡◌, ◌<◌, [], ◌∷◌, ◌++◌, length, IfOk, OnOk};
    ghost use Rattle.change_log.specs.Log.{note_of};
    ghost use Rattle.change_log.specs.Merge.{note_lists, Spreads};

    /// An empty log with room for so many changes.
    pub fn reserve(alloc: Global, n: usize) -> Result<LaneLog<'a>, NoMemory>
        ensures { IfOk result (λ log. (log.noted ≡ []) × (log.room ≡ n)) }
    {
        Ok(LaneLog {
            noted: Vec::with_capacity(alloc, n)?,
        })
    }

    /// Notes a change. It takes no memory.
    pub fn note(&mut self, change: LaneChange<'a>)
        requires { length self.old.noted < self.old.room }
        ensures noted { self.new.noted ≡ self.old.noted ++ note_of change.entry ∷ [] }
        ensures room { self.new.room ≡ self.old.room }
    {
        self.noted.push_reserved(change);
    }

    /// Puts each change behind those in the list of its index.
    pub(crate) fn spread(&self, lists: &mut Vec<Vec<LaneChange<'a>>>) -> Result<(), AllocError>
        ensures { OnOk result
            (Spreads self.now.noted (note_lists lists.old.items) (note_lists lists.new.items)) }
    {
        for change in &self.noted {
            spread_one(change, lists)?;
        }
        Ok(())
    }
}

ghost use Rattle.std.specs.Prelude.{[], ◌∷◌, OnOk};
ghost use Rattle.change_log.specs.Log.{note_of};
ghost use Rattle.change_log.specs.Merge.{note_lists, Spreads};

/// Puts a change behind those in the list of its index, if there is one.
fn spread_one<'a>(
    change: &LaneChange<'a>,
    lists: &mut Vec<Vec<LaneChange<'a>>>,
) -> Result<(), AllocError>
    ensures { OnOk result (Spreads (note_of change.now ∷ [])
        (note_lists lists.old.items) (note_lists lists.new.items)) }
{
    let index = change.line.op.index() as usize;
    if index < lists.len() {
        lists[index].push(*change)?;
    }
    Ok(())
}
