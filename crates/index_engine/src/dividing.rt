//! Passes of an engine are cut in two and joined.
ghost use Rattle.std.specs.Prelude.{◌≡◌, ◌+◌, ◌≤◌, IfOk, OnErr};
ghost use Rattle.latch_law.specs.Fitting.{IsFitted};
ghost use Rattle.latch_law.specs.Views.{left_part, right_part, both_parts};
ghost use Rattle.forest_law.specs.Law.{IsLawful};
ghost use Rattle.index_law.specs.Rightness.{IsRight};
ghost use Rattle.forest_law.specs.References.{IsReference};
ghost use Rattle.search_info.specs.Parts.{lower_part, upper_part, joined_parts};
ghost use Rattle.index_engine.specs.Engines.{known, lessons_of, IsOf, IsSame};

use crate::engine::{Engine, EnginePass};
use forest_world::fits;
use key_tuple::NoMemory;
use map_history::Sizes;
use std::alloc::Global;

impl Engine {
    /// A new pass, which gets the upper half of the numbers and their answers. After `NoMemory` the
    /// old one is as it was.
    pub fn split(&self, alloc: Global, pass: &mut EnginePass) -> Result<EnginePass, NoMemory>
        requires own { IsOf self.now pass.old }
        requires two { (known pass.old).low + 2 ≤ (known pass.old).end }
        ensures own { IsSame pass.old pass.new × IsOf self.now pass.new }
        ensures kept { IfOk result (λ _. known pass.new ≡ left_part (known pass.old)) }
        ensures given { IfOk result (λ other. IsOf self.now other × (other.sizes ≡ pass.old.sizes)
            × (known other ≡ right_part (known pass.old))) }
        ensures taught { IfOk result (λ other. (lessons_of pass.new ≡ lower_part (lessons_of pass.old))
            × (lessons_of other ≡ upper_part (lessons_of pass.old))) }
        ensures err { OnErr result ((known pass.new ≡ known pass.old)
            × (lessons_of pass.new ≡ lessons_of pass.old)) }
    {
        let Ok(world) = self.space.split(alloc, &mut pass.world) else {
            return Err(NoMemory);
        };
        let Ok(learn) = self.learner.split(&mut pass.learn) else {
            unreachable!()
        };
        Ok(EnginePass {
            world,
            learn,
            sizes: pass.sizes,
        })
    }

    /// Takes in the pass whose numbers follow. Its answers come behind the others.
    pub fn join(&self, pass: &mut EnginePass, other: EnginePass)
        requires own { IsOf self.now pass.old }
        requires others { IsOf self.now other }
        requires next { (known pass.old).end ≡ (known other).low }
        ensures own { IsSame pass.old pass.new × IsOf self.now pass.new }
        ensures joined { known pass.new ≡ both_parts (known pass.old) (known other) }
        ensures taught { lessons_of pass.new ≡ joined_parts (lessons_of pass.old) (lessons_of other) }
    {
        let (world, learn) = other.into_parts();
        self.space.join(&mut pass.world, world);
        self.learner.join(&mut pass.learn, learn);
    }
}

impl EnginePass {
    /// The lowest number, which is the pass's name, and the end of its numbers.
    pub fn numbers(&self) -> (u32, u32)
        ensures { (result.0 ≡ (known self.now).low) × (result.1 ≡ (known self.now).end) }
    {
        self.world.numbers()
    }

    /// Some lawful state fits the pass.
    pub fn fits(&self)
        ensures { IsFitted IsLawful IsRight IsReference (known self.now) }
    {
        fits(&self.world);
    }

    /// The sizes that its engine was opened with.
    pub fn sizes(&self) -> &Sizes
        ensures { result.now ≡ self.now.sizes }
    {
        &self.sizes
    }
}
