//! Numbers of a line.
ghost use Rattle.std.specs.Prelude.{◌≡◌};
ghost use Rattle.report_reading.specs.Numbers.{small_number};
ghost use Rattle.report_forms.specs.Answers.{point_told};
ghost use Rattle.script.specs.Grammar.{decimal_from};

/// The number that the digits of a word make, below 2^64. Each byte counts as a digit: a line is
/// printed anew and compared.
pub fn find_digits(word: &[u8]) -> Option<u64>
    ensures { result ≡ small_number (decimal_from 0 word.now) }
{
    let mut value: u128 = 0;
    for byte in word {
        value = value * 10 + u128::from(byte.saturating_sub(b'0'));
        if u128::from(u64::MAX) < value {
            return None;
        }
    }
    Some(value as u64)
}

/// The number of a point, behind its first byte.
pub fn find_point(word: &[u8]) -> Option<u64>
    ensures { result ≡ small_number (point_told word.now) }
{
    match word {
        [] => Some(0),
        [_, digits @ ..] => find_digits(digits),
    }
}
