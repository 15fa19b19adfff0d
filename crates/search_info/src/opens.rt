//! How a learner begins, and what it was told then.
ghost use Rattle.std.specs.Prelude.{◌≡◌, ◌^◌, ◌<◌, length, IfOk};
ghost use Rattle.std.specs.List.{zip};
ghost use Rattle.search_info.specs.History.{AreStarts};
ghost use Rattle.search_info.specs.Passes.{knowledge, opening, IsLearnPassOf, HasUnique, opened_with, first_knows};
ghost use Rattle.search_info.specs.Rule.{first_words};

use crate::law::Settings;
use crate::learner::Learner;
use crate::pass::LearnPass;
use atomic_table::Table;
use key_tuple::NoMemory;
use learning::{Info, pack};
use std::alloc::{AllocError, Global};

impl Learner {
    /// A learner whose indexes know `first` and have `unique` fields each. Each info has to fit the
    /// word and to ask for no more fields than its index has, as `learning::is_info_of` tests.
    pub fn open(
        alloc: Global,
        first: &[Info],
        unique: &[u8],
        passes: u32,
    ) -> Result<(Learner, LearnPass), NoMemory>
        requires few { length first.now < 2 ^ 32 }
        requires each { length unique.now ≡ length first.now }
        requires starts { AreStarts (zip first.now unique.now) }
        requires one { 0 < passes }
        ensures opening { IfOk result (λ r. opening r.0 ≡ opened_with first.now unique.now passes) }
        ensures own { IfOk result (λ r. IsLearnPassOf r.0 r.1) }
        ensures pass { IfOk result (λ r. knowledge r.1 ≡ first_knows (opening r.0)) }
    {
        let starts = pairs(alloc, first, unique)?;
        let words = first_words_of(alloc, starts.as_slice())?;
        let settings = Settings { starts, passes };
        let (table, seat) = Table::of_words(alloc, words.as_slice(), &settings)?;
        let learner = Learner { table, settings };
        let pass = LearnPass {
            seat,
            low: 0,
            end: passes,
        };
        Ok((learner, pass))
    }

    /// How many indexes there are.
    pub fn indexes(&self) -> usize
        ensures { result ≡ length (opening self.now).starts }
    {
        self.settings.starts.len()
    }

    /// How many fields an index has.
    pub fn unique(&self, index: u32) -> u8
        requires { index < length (opening self.now).starts }
        ensures { HasUnique self.now index result }
    {
        self.settings.starts[index as usize].1
    }
}

/// Each index's info beside its number of fields.
fn pairs(alloc: Global, first: &[Info], unique: &[u8]) -> Result<Vec<(Info, u8)>, AllocError>
    requires { length unique.now ≡ length first.now }
    ensures { IfOk result (λ v. v.items ≡ zip first.now unique.now) }
{
    let mut starts = Vec::new(alloc);
    for n in 0..first.len() {
        starts.push((first[n], unique[n]))?;
    }
    Ok(starts)
}

/// The opening words, and one more for the steps that belong to no index.
fn first_words_of(alloc: Global, starts: &[(Info, u8)]) -> Result<Vec<u64>, AllocError>
    requires { AreStarts starts.now }
    ensures { IfOk result (λ v. v.items ≡ first_words starts.now) }
{
    let mut words = Vec::new(alloc);
    for (info, _) in starts {
        words.push(pack(info))?;
    }
    words.push(0)?;
    Ok(words)
}
