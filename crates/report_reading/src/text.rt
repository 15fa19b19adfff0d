//! The lines of a report that are left.
ghost use Rattle.std.specs.Prelude.{◌≡◌, [], ◌∷◌, length, MatchOption};
ghost use Rattle.audit_law.specs.TextLines.{ended_lines};
ghost use Rattle.line_forms.specs.Anew.{exactly, without_end, words_of};
ghost use Rattle.line_forms.specs.LineForms.{read_line};
ghost use Rattle.report_reading.specs.Reads.{Reads, next_of};
ghost use Rattle.script.specs.Pieces.{pieces_left};

use crate::misread::Misread;
use memchr::memchr;
use script::Pieces;
use std::marker::Model;

/// The lines of a report that are left, each with its line feed, which the last may lack. Nothing is
/// copied.
#[derive(Drop)]
pub struct ReportText<'a> {
    rest: &'a [u8],
}

impl<'a> Model for ReportText<'a> {
    ghost use Rattle.audit_law.specs.TextLines.{ended_lines};
    ghost use Rattle.line_forms.specs.LineForms.{Lines};

    ghost Value = { Lines };

    ghost view = { λ t. ended_lines t.rest.now };
}

impl<'a> ReportText<'a> {
    /// The lines of some bytes.
    pub fn new(bytes: &'a [u8]) -> ReportText<'a>
        ensures { result ≡ ended_lines bytes.now }
    {
        ReportText { rest: bytes }
    }

    /// How many lines are left.
    pub fn count(&self) -> usize
        ensures { result ≡ length self.now }
    {
        count_lines(self.rest)
    }

    /// The words of the next line; where none is left, those of an empty one.
    pub fn words(&self) -> Pieces<'a>
        ensures { pieces_left result ≡ words_of (next_of self.now) }
    {
        let line = next_line(self.rest);
        Pieces::new(without_end(line), b' ')
    }

    /// Takes the next line, which has to be this one.
    pub fn expect_line(&mut self, printed: &[u8]) -> Result<(), Misread>
        ensures { Reads (λ _. tt) result self.new (read_line (exactly printed.now) self.old) }
    {
        match first_line(self.rest) {
            Some((line, behind)) if line == printed => {
                self.rest = behind;
                Ok(())
            }
            _ => Err(Misread::BadLine),
        }
    }
}

fn count_lines(bytes: &[u8]) -> usize
    ensures { result ≡ length (ended_lines bytes.now) }
{
    let mut count = 0;
    let mut rest = bytes;
    'lines: while let Some((_, behind)) = first_line(rest) {
        count += 1;
        rest = behind;
    }
    count
}

fn next_line(bytes: &[u8]) -> &[u8]
    ensures { result.now ≡ next_of (ended_lines bytes.now) }
{
    match first_line(bytes) {
        Some((line, _)) => line,
        None => &[],
    }
}

fn without_end(line: &[u8]) -> &[u8]
    ensures { result.now ≡ without_end line.now }
{
    match line {
        [] => &[],
        [front @ .., _] => front,
    }
}

/// The first line and what stands behind it.
fn first_line(bytes: &[u8]) -> Option<(&[u8], &[u8])>
    ensures { MatchOption result (ended_lines bytes.now ≡ [])
        (λ p. ended_lines bytes.now ≡ p.0.now ∷ ended_lines p.1.now) }
{
    if bytes.is_empty() {
        return None;
    }
    match memchr(b'\n', bytes) {
        Some(at) => Some((&bytes[..at + 1], &bytes[at + 1..])),
        None => Some((bytes, &[])),
    }
}
