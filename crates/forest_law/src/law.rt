//! Laws of the space, each the contract of a function that does nothing.
ghost use Rattle.forest_law.specs.Opening.{ForestsOpenLawfully};
ghost use Rattle.forest_law.specs.OutsideLaws.{OutsideIsHeld, FullPoolsAreShort};
ghost use Rattle.forest_law.specs.WorldLaws.{TakesStayLawful, ReleasesStayLawful, StepsStayLawful};
ghost use Rattle.forest_law.specs.WorldLaws.{AnswersStayRight, ReferencesLast};

use tree_law::numbers_balance;

/// A space that begins with the pool, the trees and the empty roots of its indexes begins lawfully.
pub fn forests_open_lawfully()
    ensures { ForestsOpenLawfully }
{}

/// A lawful state stays lawful when an object is taken.
pub fn takes_stay_lawful()
    ensures { TakesStayLawful }
{}

/// A lawful state stays lawful when an object is given back, unless that is a frame with a page
/// outside the trees.
pub fn releases_stay_lawful()
    ensures { ReleasesStayLawful }
{}

/// A lawful state stays lawful when a pass makes a step that follows.
pub fn steps_stay_lawful()
    ensures { StepsStayLawful }
{}

/// What is right at a point stays right there, whatever steps are made.
pub fn answers_stay_right()
    ensures { AnswersStayRight }
{}

/// What is known of an object that was given back stays so, whatever steps are made.
pub fn references_last()
    ensures { ReferencesLast }
{}

/// A page outside the trees is in a frame that somebody holds: in none that is free, and in no image.
pub fn outside_is_held()
    ensures { OutsideIsHeld }
{}

/// Where each number has a page, the pages are at most two for each index, each put and each set, and
/// one for each pass.
pub fn full_pools_are_short()
    ensures { FullPoolsAreShort }
{
    numbers_balance();
}
