//! The two last words of answers, and the statistics that count them.
use crate::answers::Answer;
use crate::words::{first_word, is_among, number_of};

/// What a line of statistics says before the number of `cold`, where all answers say `cold no`.
pub const BEFORE_COLD: &str = "hit 0 off 0 cold";

/// What it says behind that number.
pub const BEHIND_COLD: &str =
    "short 0 part-busy 0 no-entry 0 block-busy 0 clock 0 unequal 0 by-clock 0 by-busy 0 by-moved 0 by-last 0 built 0 same 0 arena 0 raced 0 worn 0";

/// The words that are counted, in their order.
pub static COUNTED: [&str; 18] = [
    "hit",
    "off",
    "cold",
    "short",
    "part-busy",
    "no-entry",
    "block-busy",
    "clock",
    "unequal",
    "by-clock",
    "by-busy",
    "by-moved",
    "by-last",
    "built",
    "same",
    "arena",
    "raced",
    "worn",
];

/// The words that say how a search went, and those that may stand behind each of them: why it went down
/// the tree, and what became of a build then, or why it wasn't counted.
static COLUMNS: [(&[&str], &[&str]); 2] = [
    (&["hit"], &["-", "raced", "worn"]),
    (
        &[
            "off",
            "cold",
            "short",
            "part-busy",
            "no-entry",
            "block-busy",
            "clock",
            "unequal",
        ],
        &["no", "built", "same", "arena", "raced", "worn"],
    ),
];

/// Whether the two words may stand beside one another.
pub(crate) fn may_stand(how: &str, note: &str) -> bool {
    for (first, second) in COLUMNS.iter() {
        if is_among(how, first) {
            return is_among(note, second);
        }
    }
    false
}

/// Whether a line is that of an index's statistics, by the answers.
pub(crate) fn is_counted(line: &str, name: &str, index: usize, answers: &[Answer<'_>]) -> bool {
    let (first, rest) = first_word(line);
    let (second, mut rest) = first_word(rest);
    for word in COUNTED.iter() {
        let (said, number) = first_word(rest);
        let (number, behind) = first_word(number);
        if said != *word || number_of(number) != Some(times(word, index, answers)) {
            return false;
        }
        rest = behind;
    }
    first == "stats" && second == name && rest.is_empty() && !line.ends_with(' ')
}

/// How many answers of an index have the word.
fn times(word: &str, index: usize, answers: &[Answer<'_>]) -> u64 {
    let mut times: u64 = 0;
    for answer in answers {
        if answer.line.index == index && (answer.how == word || answer.note == word) {
            times = times.wrapping_add(1);
        }
    }
    times
}
