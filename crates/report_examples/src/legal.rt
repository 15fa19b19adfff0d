//! Reports that are legal, whatever the sizes.
ghost use Rattle.std.specs.Prelude.{[]};
ghost use Rattle.report_examples.specs.Samples.{IsLegal, row_life, row_life_told, row_life_made, second_put, second_put_told, second_put_made, lone_del, lone_set, lone_told};

/// A lane that asks nothing.
pub fn empty_lane_is_legal()
    ensures { IsLegal [] [] [] }
{}

/// A row is put, read, taken out and sought again.
pub fn row_life_is_legal()
    ensures { IsLegal row_life row_life_told row_life_made }
{}

/// The second put of a key is a duplicate.
pub fn second_put_is_legal()
    ensures { IsLegal second_put second_put_told second_put_made }
{}

/// A del of a key that isn't there.
pub fn absent_del_is_legal()
    ensures { IsLegal lone_del lone_told [] }
{}

/// A set of a key that isn't there.
pub fn absent_set_is_legal()
    ensures { IsLegal lone_set lone_told [] }
{}
