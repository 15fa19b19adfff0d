//! Small files that show how far the laws reach.
ghost use Rattle.script_laws.specs.Samples.{TwoLinesAreRead, FiveFieldsAreRead};

/// A schema and a lane with a comment between its two lines are read, so no law is empty.
pub fn two_lines_are_read()
    ensures { TwoLinesAreRead }
{}

/// By a schema that no file spells, a key of five fields is read.
pub fn five_fields_are_read()
    ensures { FiveFieldsAreRead }
{}
