//! Pieces that are what a scan of all rows, of at most nine, is answered, and pieces that aren't.
ghost use Rattle.std.specs.Prelude.{[], None};
ghost use Rattle.report_examples.specs.Samples.{IsLegal, IsIllegal};
ghost use Rattle.map_history.specs.Scans.{IsScan};
ghost use Rattle.report_examples.specs.ScanSamples.{three_puts, in_one_piece, in_two_pieces, first_two, puts_and_scan, puts_and_scan_told, puts_made, row_left_out, last_left_out, row_twice, other_way_round};

/// All rows in one piece.
pub fn one_piece_is_a_scan()
    ensures { IsScan [] None 9 three_puts in_one_piece }
{}

/// All rows in two pieces.
pub fn two_pieces_are_a_scan()
    ensures { IsScan [] None 9 three_puts in_two_pieces }
{}

/// The first rows, as many as a lower limit lets through.
pub fn first_two_are_a_scan_of_two()
    ensures { IsScan [] None 2 three_puts first_two }
{}

/// The whole report of three puts and the scan, with all rows in one piece, is legal.
pub fn puts_and_scan_are_legal()
    ensures { IsLegal puts_and_scan (puts_and_scan_told in_one_piece) puts_made }
{}

/// That report with the pieces the other way round isn't.
pub fn puts_and_other_way_round_are_illegal()
    ensures { IsIllegal puts_and_scan (puts_and_scan_told other_way_round) puts_made }
{}

/// A row in the middle is left out.
pub fn row_left_out_is_no_scan()
    ensures { ¬ IsScan [] None 9 three_puts row_left_out }
{}

/// The last row is left out, though the limit isn't reached.
pub fn last_left_out_is_no_scan()
    ensures { ¬ IsScan [] None 9 three_puts last_left_out }
{}

/// A row stands in two pieces.
pub fn row_twice_is_no_scan()
    ensures { ¬ IsScan [] None 9 three_puts row_twice }
{}

/// The pieces stand the other way round.
pub fn other_way_round_is_no_scan()
    ensures { ¬ IsScan [] None 9 three_puts other_way_round }
{}
