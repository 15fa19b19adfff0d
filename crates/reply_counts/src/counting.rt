//! Replies, counted one after another.
ghost use Rattle.std.specs.Prelude.{◌≡◌, ◌+◌, [], IfOk, OnOk, OnErr};
ghost use Rattle.reply_counts.specs.Replies.{replies_in, with_reply};

use key_tuple::NoMemory;
use map_history::Reply;

/// How many answers have each reply. One that a full list of changes refused is in none.
#[derive(Clone, Copy)]
pub struct ReplyCounts {
    /// Changes that were made.
    pub ok: u64,
    /// Rows that were found.
    pub found: u64,
    /// Rows that weren't there.
    pub absent: u64,
    /// Puts of a key that was there.
    pub duplicate: u64,
    /// Changes for which no page was left.
    pub full: u64,
}

impl ReplyCounts {
    /// No reply was counted.
    pub fn none() -> ReplyCounts
        ensures { result ≡ replies_in [] }
    {
        ReplyCounts {
            ok: 0,
            found: 0,
            absent: 0,
            duplicate: 0,
            full: 0,
        }
    }

    /// Counts a reply more. Where a number is at its end, memory is said to lack, and nothing is
    /// counted: it would take 2^64 answers.
    pub fn count(&mut self, reply: Reply) -> Result<(), NoMemory>
        ensures ok { OnOk result (self.new ≡ with_reply self.old reply) }
        ensures err { OnErr result (self.new ≡ self.old) }
    {
        match reply {
            Reply::Ok => self.ok = one_more(self.ok)?,
            Reply::Found => self.found = one_more(self.found)?,
            Reply::Absent => self.absent = one_more(self.absent)?,
            Reply::Duplicate => self.duplicate = one_more(self.duplicate)?,
            Reply::SpaceFull => self.full = one_more(self.full)?,
            Reply::LogFull(_) => {}
        }
        Ok(())
    }
}

/// The next number, if a number can be as large.
fn one_more(number: u64) -> Result<u64, NoMemory>
    ensures { IfOk result (λ more. more ≡ number + 1) }
{
    number.checked_add(1).ok_or(NoMemory)
}
