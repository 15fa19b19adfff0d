//! Parts of a file, cut where a byte stands. Nothing is copied.
ghost use Rattle.std.specs.Prelude.{◌≡◌, MatchOption};
ghost use Rattle.std.specs.Iterator.{YieldsFirstRef, item_count};
ghost use Rattle.script.specs.Pieces.{LacksByte, IsFirstCut, pieces_by, pieces_left, lines_left};
ghost use Rattle.script.specs.Grammar.{lines_of};

use memchr::memchr;

/// What stands between the bytes of one value: one piece more than there are such bytes.
#[derive(Clone, Copy)]
pub struct Pieces<'a> {
    rest: Option<&'a [u8]>,
    separator: u8,
}

impl<'a> Pieces<'a> {
    /// The pieces of some bytes.
    pub fn new(bytes: &'a [u8], separator: u8) -> Pieces<'a>
        ensures { pieces_left result ≡ pieces_by separator bytes.now }
    {
        Pieces {
            rest: Some(bytes),
            separator,
        }
    }
}

impl<'a> Iterator for Pieces<'a> {
    type Item = &'a [u8];

    ghost next_gives = { YieldsFirstRef pieces_left };

    ghost remaining = { item_count pieces_left };

    fn next(&mut self) -> Option<&'a [u8]> {
        let rest = self.rest?;
        match cut(rest, self.separator) {
            Some((piece, after)) => {
                self.rest = Some(after);
                Some(piece)
            }
            None => {
                self.rest = None;
                Some(rest)
            }
        }
    }
}

/// The lines of a file. Each ends with the byte 10, which the last may lack.
#[derive(Clone, Copy)]
pub struct Lines<'a> {
    rest: &'a [u8],
}

impl<'a> Lines<'a> {
    /// The lines of some bytes.
    pub fn new(bytes: &'a [u8]) -> Lines<'a>
        ensures { lines_left result ≡ lines_of bytes.now }
    {
        Lines { rest: bytes }
    }
}

impl<'a> Iterator for Lines<'a> {
    type Item = &'a [u8];

    ghost next_gives = { YieldsFirstRef lines_left };

    ghost remaining = { item_count lines_left };

    fn next(&mut self) -> Option<&'a [u8]> {
        let rest = self.rest;
        if rest.is_empty() {
            return None;
        }
        match cut(rest, b'\n') {
            Some((line, after)) => {
                self.rest = after;
                Some(line)
            }
            None => {
                self.rest = &[];
                Some(rest)
            }
        }
    }
}

/// What stands before the first byte of this value, and what stands after it.
fn cut(bytes: &[u8], value: u8) -> Option<(&[u8], &[u8])>
    ensures { MatchOption result (LacksByte value bytes.now)
        (λ p. IsFirstCut value bytes.now p.0.now p.1.now) }
{
    let at = memchr(value, bytes)?;
    Some((&bytes[..at], &bytes[at + 1..]))
}
