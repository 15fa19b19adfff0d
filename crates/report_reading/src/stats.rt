//! The lines of a report that can only be one.
ghost use Rattle.std.specs.Prelude.{◌≡◌, [], ◌∷◌, codes, length, map, string_bytes};
ghost use Rattle.std.specs.List.{zip};
ghost use Rattle.line_forms.specs.Anew.{exactly};
ghost use Rattle.line_forms.specs.LineForms.{read_line};
ghost use Rattle.map_history.specs.Spelling.{stats_text};
ghost use Rattle.map_history.specs.Text.{line_of};
ghost use Rattle.report_forms.specs.Lists.{read_each};
ghost use Rattle.report_reading.specs.Reads.{Reads, without_things};
ghost use Rattle.report_reading.specs.Report.{read_stat};

use crate::misread::Misread;
use crate::text::ReportText;
use map_history::Counts;
use report_text::{report_end, report_head, stats};
use std::alloc::Global;

/// Takes the first line.
pub fn expect_head(alloc: Global, text: &mut ReportText<'_>) -> Result<(), Misread>
    ensures { Reads (λ _. tt) result text.new
        (read_line (exactly (line_of (codes "ahi" ∷ codes "run" ∷ []))) text.old) }
{
    let mut line = Vec::new(alloc);
    report_head(&mut line)?;
    text.expect_line(&line)
}

/// Takes the last line.
pub fn expect_end(alloc: Global, text: &mut ReportText<'_>) -> Result<(), Misread>
    ensures { Reads (λ _. tt) result text.new
        (read_line (exactly (line_of (codes "end" ∷ []))) text.old) }
{
    let mut line = Vec::new(alloc);
    report_end(&mut line)?;
    text.expect_line(&line)
}

/// Takes the statistics of each index.
pub fn expect_stats(
    alloc: Global,
    names: &[String],
    counts: &[Counts],
    text: &mut ReportText<'_>,
) -> Result<(), Misread>
    requires { length counts.now ≡ length names.now }
    ensures { Reads (λ _. tt) result text.new (without_things
        (read_each read_stat (zip (map string_bytes names.now) counts.now) text.old)) }
{
    for index in 0..names.len() {
        expect_stat(alloc, names[index].as_str(), &counts[index], text)?;
    }
    Ok(())
}

fn expect_stat<'a>(
    alloc: Global,
    name: &'a str,
    counts: &'a Counts,
    text: &mut ReportText<'_>,
) -> Result<(), Misread>
    ensures { Reads (λ _. tt) result text.new
        (read_line (exactly (stats_text name.now counts.now)) text.old) }
{
    let mut line = Vec::new(alloc);
    stats(&mut line, name, counts)?;
    text.expect_line(&line)
}
