//! The world of the trees: its types, its law, and why that lasts.
use forest_law::{ForestLayout, Object};
use index_law::{AsMadeChange, AsSaying};
use latch_space::{Pass, Space, World};

/// The law of the trees. No value of it is made.
pub struct ForestWorld;

impl World for ForestWorld {
    type Shape = ForestLayout;

    type Object = Object;

    type Change = AsMadeChange;

    type Answer = AsSaying;

    ghost use Rattle.index_law.specs.Shape.{no_shape};
    ghost use Rattle.forest_law.specs.Law.{IsLawful, MayFollow};
    ghost use Rattle.forest_law.specs.References.{IsReference};
    ghost use Rattle.index_law.specs.Rightness.{IsRight};
    ghost use Rattle.forest_law.proofs.WorldLemmas.{takes_stay_lawful, steps_stay_lawful};
    ghost use Rattle.forest_law.proofs.WorldLemmas.{answers_stay_right, references_last};

    ghost some_shape = { no_shape };

    ghost lawful = { IsLawful };

    ghost follows = { MayFollow };

    ghost answers = { IsRight };

    ghost refers = { IsReference };

    ghost taken = { takes_stay_lawful };

    ghost follows_keeps = { steps_stay_lawful };

    ghost answers_stay = { answers_stay_right };

    ghost refers_stay = { references_last.stay };

    ghost refers_new = { references_last.begin };

    ghost refers_held = { references_last.held };
}

/// A space of this world.
pub type ForestSpace = Space<ForestWorld>;

/// A pass of such a space.
pub type ForestPass = Pass<ForestWorld>;
