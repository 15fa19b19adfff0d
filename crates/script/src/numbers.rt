//! Numbers in decimal.
ghost use Rattle.std.specs.Prelude.{◌≡◌};
ghost use Rattle.std.specs.List.{list_all};
ghost use Rattle.script.specs.Grammar.{is_numeral, is_digit, number_spelled};

/// The number that a word spells, if it has a number's form and is below 2^32.
pub fn find_number(word: &[u8]) -> Option<u32>
    ensures { result ≡ number_spelled word.now }
{
    if !has_number_form(word) {
        return None;
    }
    let mut value: u64 = 0;
    for byte in word {
        value = value * 10 + u64::from(byte.saturating_sub(b'0'));
        if u64::from(u32::MAX) < value {
            return None;
        }
    }
    Some(value as u32)
}

fn has_number_form(word: &[u8]) -> bool
    ensures { result ≡ is_numeral word.now }
{
    match word {
        [] => false,
        [only] => only.is_ascii_digit(),
        [first, rest @ ..] => first.is_ascii_digit() && *first != b'0' && are_digits(rest),
    }
}

fn are_digits(bytes: &[u8]) -> bool
    ensures { result ≡ list_all is_digit bytes.now }
{
    bytes.iter().all(|byte| byte.is_ascii_digit())
}
