//! Reports as bytes.
ghost use Rattle.std.specs.Prelude.{◌≡◌, []};
ghost use Rattle.map_history.specs.Spelling.{spell};
ghost use Rattle.report_examples.specs.Samples.{one_lane_report, row_life_told, row_life_made};
ghost use Rattle.report_examples.specs.Bytes.{empty_lane_bytes, row_life_bytes, puts_and_scan_bytes};
ghost use Rattle.report_examples.specs.ScanSamples.{puts_and_scan_told, in_one_piece, puts_made};

/// The report of a lane that asks nothing.
pub fn empty_lane_is_spelt()
    ensures { spell (one_lane_report [] []) ≡ empty_lane_bytes }
{}

/// The report of the life of a row.
pub fn row_life_is_spelt()
    ensures { spell (one_lane_report row_life_told row_life_made) ≡ row_life_bytes }
{}

/// The report of three puts and a scan, with an empty field and a byte that is escaped.
pub fn puts_and_scan_are_spelt()
    ensures { spell (one_lane_report (puts_and_scan_told in_one_piece) puts_made)
        ≡ puts_and_scan_bytes }
{}
