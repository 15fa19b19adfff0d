//! What is wrong with a line that isn't in its grammar.
use crate::lines::{count_of_words, word_of};
use key_tuple::{MAX_KEY_BYTES, MAX_VALUE_BYTES};
use settings::find_setting;

/// What is said of a schema's end.
pub const NO_INDEX: &str = "the schema names no index";

const SPACES: &str = "one space stands between two words, and none before or behind them";

const BYTES: &str = "a byte stands in it that has to be escaped";

const NAME: &str = "a name is 1 to 32 bytes of a to z, 0 to 9 and _, from a letter on";

/// What is wrong with a line of a schema.
pub fn flaw_of_schema(line: &[u8]) -> &'static str {
    if let Some(flaw) = flaw_of_words(line) {
        return flaw;
    }
    let (word, count) = (word_of(line, 0), count_of_words(line));
    if word == b"index".as_slice() {
        flaw_of_index(line, count)
    } else if find_setting(word).is_some() {
        flaw_of_setting(line, count)
    } else {
        "a line of a schema begins with index or a setting"
    }
}

fn flaw_of_setting(line: &[u8], count: usize) -> &'static str {
    if count != 2 {
        "a setting wants a number"
    } else if !is_number(word_of(line, 1)) {
        "a number is 0 to 4294967295, without a leading zero"
    } else {
        "a setting stands once, and before the first index"
    }
}

/// Whether the word is a number below 2^32, as files have them.
fn is_number(word: &[u8]) -> bool {
    let mut value: u64 = 0;
    for byte in word {
        if !byte.is_ascii_digit() {
            return false;
        }
        let digit = u64::from(byte.saturating_sub(b'0'));
        value = value.saturating_mul(10).saturating_add(digit);
    }
    let has_its_length = word.len() == 1 || word.first() != Some(&b'0');
    !word.is_empty() && has_its_length && value <= u64::from(u32::MAX)
}

fn flaw_of_index(line: &[u8], count: usize) -> &'static str {
    if count != 3 {
        return "index wants a name and a number of fields";
    }
    if !is_name(word_of(line, 1)) {
        return NAME;
    }
    match word_of(line, 2) {
        [b'1'..=b'4'] => "the name is taken, or 64 indexes stand before it",
        _ => "a key has 1, 2, 3 or 4 fields",
    }
}

/// The verbs of lanes, how many words their lines have, and what is said of a line that has not so
/// many.
static VERBS: [(&[u8], usize, &str); 5] = [
    (b"get", 3, "get wants an index and a key"),
    (b"del", 3, "del wants an index and a key"),
    (b"put", 4, "put wants an index, a key and a value"),
    (b"set", 4, "set wants an index, a key and a value"),
    (b"seek", 4, "seek wants an index, a mode and a tuple"),
];

/// What is wrong with a line of a lane.
pub fn flaw_of_lane(line: &[u8]) -> &'static str {
    if let Some(flaw) = flaw_of_words(line) {
        return flaw;
    }
    let word = word_of(line, 0);
    for (verb, count, wanted) in VERBS.iter() {
        if word == *verb {
            return flaw_of_verb(line, *count, *wanted);
        }
    }
    "a line of a lane begins with get, put, set, del or seek"
}

/// The same where its verb wants so many words, and is told else what it wants.
fn flaw_of_verb(line: &[u8], count: usize, wanted: &'static str) -> &'static str {
    if count_of_words(line) != count {
        wanted
    } else if !is_name(word_of(line, 1)) {
        NAME
    } else if is_seek(line) {
        flaw_of_seek(word_of(line, 2))
    } else {
        "the key or the value isn't spelled as one, or the key has too many or too few fields"
    }
}

fn is_seek(line: &[u8]) -> bool {
    word_of(line, 0) == b"seek".as_slice()
}

fn flaw_of_seek(mode: &[u8]) -> &'static str {
    match mode {
        b"ge" | b"g" | b"le" | b"l" => {
            "the tuple isn't spelled as one, or has more fields than the keys of its index"
        }
        _ => "the mode of a seek is ge, g, le or l",
    }
}

/// What is wrong with the words of a line, whatever they mean: of all its bytes, or else of where
/// its spaces stand.
fn flaw_of_words(line: &[u8]) -> Option<&'static str> {
    let mut before = b' ';
    let mut has_empty_word = false;
    for byte in line {
        if *byte < b' ' || *byte > b'~' {
            return Some(BYTES);
        }
        has_empty_word = has_empty_word || *byte == b' ' && before == b' ';
        before = *byte;
    }
    if has_empty_word || before == b' ' {
        return Some(SPACES);
    }
    None
}

fn is_name(word: &[u8]) -> bool {
    for byte in word {
        if !is_in_names(*byte) {
            return false;
        }
    }
    let Some(first) = word.first() else {
        return false;
    };
    first.is_ascii_lowercase() && word.len() <= 32
}

fn is_in_names(byte: u8) -> bool {
    byte.is_ascii_lowercase() || byte.is_ascii_digit() || byte == b'_'
}

/// Which part of a line of a lane has too many bytes.
pub fn long_part(line: &[u8]) -> &'static str {
    if is_seek(line) {
        "its tuple has more than 767 bytes"
    } else if spelled_bytes(word_of(line, 2), true) > MAX_KEY_BYTES as u64 {
        "its key has more than 767 bytes"
    } else if spelled_bytes(word_of(line, 3), false) > MAX_VALUE_BYTES as u64 {
        "its value has more than 2,048 bytes"
    } else {
        "its key or its value has too many bytes"
    }
}

/// How many bytes a word spells: an escape is one, the empty field none, nor are a key's commas.
fn spelled_bytes(word: &[u8], is_key: bool) -> u64 {
    let mut count: u64 = 0;
    let mut digits: u32 = 0;
    for byte in word {
        if digits > 0 {
            digits = digits.saturating_sub(1);
        } else if *byte == b'%' {
            digits = 2;
            count = count.saturating_add(1);
        } else if *byte != b'~' && !(is_key && *byte == b',') {
            count = count.saturating_add(1);
        }
    }
    count
}
