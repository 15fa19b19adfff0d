//! A partition in hand.
ghost use Rattle.std.specs.Prelude.{◌≡◌, ◌<◌};
ghost use Rattle.std.specs.Bool.{OnFalse, OnTrue};
ghost use Rattle.latch_space.specs.Passes.{count, IsSamePass};
ghost use Rattle.latch_space.specs.Spaces.{IsPassOf};
ghost use Rattle.hash_partition.specs.Part.{Part};
ghost use Rattle.forest_law.specs.declared.objects.Object.TheVariants as object;
ghost use Rattle.forest_law.specs.Numbers.{part_id};
ghost use Rattle.forest_world.specs.Held.{HasPart, HoldsPart, shape_of_pass};
ghost use Rattle.hash_maintain.specs.Parting.{GivesPart, HasPartOut, HasRoomFor, HoldsPartOut, IsInPlace, LacksPart};
ghost use Rattle.hash_maintain.specs.Parting.{PutsPartBack, TakesPartition, TakesPartOut, TellsPart};

use forest_world::{ForestPass, ForestSpace, Object, fits, shape};
use hash_partition::Partition;
use latch_space::Take;
use std::sync::Wait;

/// Finds the partition in hand, or takes it. Answers whether it was taken.
pub fn hold_part<R: Wait>(space: &ForestSpace, pass: &mut ForestPass, part: u32, wait: &R) -> bool
    requires own { IsPassOf space.now pass.old }
    requires there { part < (shape_of_pass pass.old).parts }
    requires room { HasRoomFor pass.old part }
    ensures own { IsSamePass pass.old pass.new × IsPassOf space.now pass.new }
    ensures took { OnTrue result (TakesPartition pass.old part pass.new) }
    ensures held { OnFalse result (LacksPart pass.old part → ⊥) }
    ensures found { OnFalse result (pass.new ≡ pass.old) }
{
    fits(pass);
    let number = part_number(space, pass, part);
    if pass.holds(number) {
        return false;
    }
    space.take(pass, number, wait);
    true
}

/// Takes the partition if nobody holds it at this call's one step.
pub fn try_part(space: &ForestSpace, pass: &mut ForestPass, part: u32) -> Take
    requires own { IsPassOf space.now pass.old }
    requires there { part < (shape_of_pass pass.old).parts }
    requires lacks { LacksPart pass.old part }
    requires room { count pass.old < 16 }
    ensures own { IsSamePass pass.old pass.new × IsPassOf space.now pass.new }
    ensures did { TellsPart pass.old part result pass.new }
{
    let number = part_number(space, pass, part);
    space.try_take(pass, number)
}

/// The partition as it stands now.
pub fn partition<'p>(space: &ForestSpace, pass: &'p ForestPass, part: u32) -> &'p Partition
    requires own { IsPassOf space.now pass.now }
    requires there { part < (shape_of_pass pass.now).parts }
    requires held { HoldsPart pass.now part }
    ensures { (x y : Part) → HasPart pass.now part x y → result.now ≡ y }
{
    as_part(pass.look(part_number(space, pass, part)))
}

/// The partition itself, which is found in hand or taken. Its place stays empty until `part_back`.
pub(crate) fn hold_part_out<R: Wait>(
    space: &ForestSpace,
    pass: &mut ForestPass,
    part: u32,
    wait: &R,
) -> Partition
    requires own { IsPassOf space.now pass.old }
    requires there { part < (shape_of_pass pass.old).parts }
    requires place { IsInPlace pass.old part }
    requires room { HasRoomFor pass.old part }
    ensures own { IsSamePass pass.old pass.new × IsPassOf space.now pass.new }
    ensures out { HoldsPartOut pass.old part result pass.new }
{
    hold_part(space, pass, part, wait);
    part_out(space, pass, part)
}

/// The partition itself. Its place in hand stays empty until `part_back`.
pub fn part_out(space: &ForestSpace, pass: &mut ForestPass, part: u32) -> Partition
    requires own { IsPassOf space.now pass.old }
    requires there { part < (shape_of_pass pass.old).parts }
    requires held { HoldsPart pass.old part }
    ensures own { IsSamePass pass.old pass.new × IsPassOf space.now pass.new }
    ensures out { TakesPartOut pass.old part result pass.new }
{
    let number = part_number(space, pass, part);
    into_part(pass.take_out(number))
}

/// Puts a partition into the place of the one that was taken out.
pub fn part_back(space: &ForestSpace, pass: &mut ForestPass, part: u32, partition: Partition)
    requires own { IsPassOf space.now pass.old }
    requires there { part < (shape_of_pass pass.old).parts }
    requires out { (x : Part) × HasPartOut pass.old part x }
    ensures own { IsSamePass pass.old pass.new × IsPassOf space.now pass.new }
    ensures back { PutsPartBack pass.old part partition pass.new }
{
    let number = part_number(space, pass, part);
    pass.put_back(number, Object::Part(partition));
}

/// Gives the partition back, which is what it is known to be.
pub fn give_part_back(space: &ForestSpace, pass: &mut ForestPass, part: u32)
    requires own { IsPassOf space.now pass.old }
    requires there { part < (shape_of_pass pass.old).parts }
    requires held { (x : Part) × HasPart pass.old part x x }
    ensures own { IsSamePass pass.old pass.new × IsPassOf space.now pass.new }
    ensures gave { GivesPart pass.old part pass.new }
{
    let number = part_number(space, pass, part);
    space.release(pass, number);
}

// The number of the partition, which nothing else here speaks of.
fn part_number(space: &ForestSpace, pass: &ForestPass, part: u32) -> u32
    requires own { IsPassOf space.now pass.now }
    requires there { part < (shape_of_pass pass.now).parts }
    ensures { result ≡ part_id (shape_of_pass pass.now) part }
{
    fits(pass);
    shape(space).part_id(part)
}

// The partition that an object is.
fn as_part(found: &Object) -> &Partition
    requires { (x : Part) × (found.now ≡ object.Part x) }
    ensures { found.now ≡ object.Part result.now }
{
    match found {
        Object::Part(partition) => partition,
        _ => unreachable!(),
    }
}

// The same, by value.
fn into_part(found: Object) -> Partition
    requires { (x : Part) × (found ≡ object.Part x) }
    ensures { found ≡ object.Part result }
{
    match found {
        Object::Part(partition) => partition,
        _ => unreachable!(),
    }
}
