//! How an engine ends.
ghost use Rattle.std.specs.Prelude.{◌≡◌, IfOk};
ghost use Rattle.latch_law.specs.Fitting.{ClosesWith};
ghost use Rattle.index_law.specs.Rightness.{IsRight};
ghost use Rattle.forest_law.specs.Hashed.{IsHashExact};
ghost use Rattle.forest_law.specs.Law.{IsLawful};
ghost use Rattle.forest_law.specs.References.{IsReference};
ghost use Rattle.index_engine.specs.Engines.{known, IsOnlyPass, IsOf};

use crate::engine::{Engine, EnginePass};
use forest_world::Object;
use key_tuple::NoMemory;
use std::alloc::Global;

impl Engine {
    /// How many numbers all passes have together: a pass whose numbers are those from 0 up to this
    /// is the only one.
    pub fn lanes(&self) -> u32
        ensures { result ≡ self.now.space.terms.passes }
    {
        self.space.passes()
    }

    /// What lay in the engine: the pool, the tree of each index, the partitions of the hash, and
    /// the frames of all blocks. The pass has to be the only one, as its `numbers` and `lanes` tell.
    /// After `NoMemory` the engine and the pass are gone.
    pub fn close(self, alloc: Global, pass: EnginePass) -> Result<Vec<Object>, NoMemory>
        requires own { IsOf self pass }
        requires all { IsOnlyPass (known pass) }
        ensures closed { IfOk result (λ objects. ClosesWith IsLawful IsRight IsReference
            (known pass) objects.items) }
        ensures hashed { IfOk result (λ objects. IsHashExact (known pass).terms.shape
            objects.items) }
    {
        let (world, _) = pass.into_parts();
        let Ok(objects) = self.into_space().close(alloc, world) else {
            return Err(NoMemory);
        };
        Ok(objects)
    }
}
