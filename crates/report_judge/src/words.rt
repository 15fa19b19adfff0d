//! Texts taken apart: lines, words and numbers.
use crate::judging::Lie;

/// The first word of a text, and what stands behind the space after it, or nothing where there is none.
pub(crate) fn first_word(text: &str) -> (&str, &str) {
    text.split_once(' ').unwrap_or((text, ""))
}

/// What stands before the space in front of the last word, or nothing where there is none, and that word.
pub(crate) fn last_word(text: &str) -> (&str, &str) {
    text.rsplit_once(' ').unwrap_or(("", text))
}

/// How many words spaces make of a text.
pub(crate) fn count_words(text: &str) -> usize {
    text.split(' ').count()
}

/// The name and the number of a line that begins so and has nothing else.
pub(crate) fn named_number<'a>(start: &str, line: &'a str) -> Option<(&'a str, u64)> {
    let Some(rest) = line.strip_prefix(start) else {
        return None;
    };
    let (name, number) = first_word(rest);
    Some(name).zip(number_of(number))
}

/// The number of a text that begins so and has nothing else.
pub(crate) fn number_behind(start: &str, text: &str) -> Option<u64> {
    text.strip_prefix(start).and_then(number_of)
}

/// The number that a word spells in its one way.
pub(crate) fn number_of(word: &str) -> Option<u64> {
    if word.starts_with('+') || (word.len() > 1 && word.starts_with('0')) {
        return None;
    }
    word.parse::<u64>().ok()
}

/// Whether a word is one of these.
pub(crate) fn is_among(word: &str, words: &[&str]) -> bool {
    for one in words {
        if *one == word {
            return true;
        }
    }
    false
}

/// What is left of a report, how many of its lines were taken, and the first lie that was found.
#[derive(Drop)]
pub(crate) struct Reader<'a> {
    rest: &'a str,
    line: u64,
    judged: Result<(), Lie>,
}

impl<'a> Reader<'a> {
    /// That of a text behind which this was found.
    pub(crate) fn new(text: &'a str, judged: Result<(), Lie>) -> Reader<'a> {
        Reader {
            rest: text,
            line: 0,
            judged,
        }
    }

    /// The first lie, if there was one.
    pub(crate) fn judged(&self) -> Result<(), Lie> {
        self.judged
    }

    /// The next line. Where none is left that ends, it is empty, as none of a report is.
    pub(crate) fn take_line(&mut self) -> &'a str {
        let (line, rest) = self.rest.split_once('\n').unwrap_or(("", ""));
        self.rest = rest;
        self.line = self.line.wrapping_add(1);
        line
    }

    /// Takes the next line, which is this one.
    pub(crate) fn expect_line(&mut self, wanted: &str) {
        let line = self.take_line();
        self.expect(line == wanted);
    }

    /// That nothing is left.
    pub(crate) fn expect_end(&mut self) {
        self.expect(self.rest.is_empty());
    }

    /// That the line taken last may stand there.
    pub(crate) fn expect(&mut self, may_stand: bool) {
        if !may_stand {
            tell(&mut self.judged, Lie::Form { line: self.line });
        }
    }

    /// Adds what the line taken last says, which it does where it may stand there.
    pub(crate) fn add<T: Drop>(&mut self, list: &mut Vec<T>, said: Option<T>) {
        add(&mut self.judged, list, said, Lie::Form { line: self.line });
    }
}

/// Tells a lie. Those behind the first don't count.
fn tell(judged: &mut Result<(), Lie>, lie: Lie) {
    if judged.is_ok() {
        *judged = Err(lie);
    }
}

/// Adds what is said to a list, or tells that it isn't said.
pub(crate) fn add<T: Drop>(
    judged: &mut Result<(), Lie>,
    list: &mut Vec<T>,
    said: Option<T>,
    lie: Lie,
) {
    let Some(item) = said else {
        return tell(judged, lie);
    };
    if list.push(item).is_err() {
        tell(judged, Lie::NoMemory);
    }
}
