//! Laws of the lanes that files spell.
ghost use Rattle.script_laws.specs.LaneLaws.{LinesAreTold, LinesCanBeWorked};

/// A lane has just the operations that the lines of its file say, each at its line's number.
pub fn lines_are_told()
    ensures { LinesAreTold }
{}

/// Each line asks what an index of the schema can be asked, within the limits of keys and values,
/// by any schema in which no index has more fields than a key may.
pub fn lines_can_be_worked()
    ensures { LinesCanBeWorked }
{}
