//! What is said of each refusal: of the words, each code, each setting and each other status.
use crate::flaws::LINES;
use crate::said::{ENDS, RUN, Said, WORDS};
use first_line::FirstLine;
use io_port::{MemorySink, Sink};
use refusal_text::{explain, refused_file};
use std::process::Abort;

fn add<R: AllocGlobal + Abort>(rt: &R, words: &mut Vec<String>, word: &str) {
    let word = String::from_str(rt.alloc(), word).expect(rt, "a word");
    words.push(word).expect(rt, "memory for a word");
}

/// These words.
pub(crate) fn strings<R: AllocGlobal + Abort>(rt: &R, words: &[&str]) -> Vec<String> {
    let mut strings = Vec::new(rt.alloc());
    for word in words {
        add(rt, &mut strings, word);
    }
    strings
}

/// What is said of a run.
fn text_of<R: AllocGlobal + Abort>(
    rt: &R,
    status: u8,
    words: &[String],
    told: &str,
    bytes: Option<&[u8]>,
) -> String {
    explain(rt.alloc(), status, words, told.as_bytes(), bytes).expect(rt, "a text")
}

/// This is said of a run.
fn is_said<R: AllocGlobal + Abort>(rt: &R, row: &Said) -> bool {
    let (status, words, told, bytes, said) = row;
    text_of(rt, *status, &strings(rt, words), told, *bytes).as_str() == *said
}

/// All of this is said.
fn assert_said<R: AllocGlobal + Abort>(rt: &R, rows: &[Said]) {
    for row in rows {
        assert!(rt; is_said(rt, row), "{}", row.4);
    }
}

#[test]
fn each_refusal_is_said_in_words(rt: HostRuntime) {
    assert_said(&rt, &WORDS);
    assert_said(&rt, &ENDS);
    assert_said(&rt, &LINES);
}

/// This is said of too few blocks for so many lanes.
fn are_counted<R: AllocGlobal + Abort>(rt: &R, lanes: u8, said: &str) -> bool {
    let mut words = strings(rt, &["run", "s"]);
    for _ in 0..lanes {
        add(rt, &mut words, "l");
    }
    text_of(rt, 5, &words, "sizes blocks\n", None).as_str() == said
}

#[test]
fn the_blocks_of_all_lanes_are_counted(rt: HostRuntime) {
    let said = "blocks is to be 264 or more for so many lanes, and at most 65,536";
    assert!(rt; are_counted(&rt, 32, said));
    let said = "blocks is to be 520 or more for so many lanes, and at most 65,536";
    assert!(rt; are_counted(&rt, 64, said));
}

/// A line that puts a row whose key and value have so many bytes.
fn long_put<R: AllocGlobal + Abort>(rt: &R, key: usize, value: usize) -> Vec<u8> {
    let mut line = b"put t %61,".to_vec(rt.alloc()).expect(rt, "a line");
    line.resize(key.wrapping_add(9), b'k')
        .expect(rt, "memory for a key");
    line.push(b' ').expect(rt, "memory for a space");
    let whole = line.len().wrapping_add(value);
    line.resize(whole, b'v').expect(rt, "memory for a value");
    line
}

/// What is said of such a put begins so.
fn is_named<R: AllocGlobal + Abort>(rt: &R, key: usize, value: usize, part: &str) -> bool {
    let line = long_put(rt, key, value);
    text_of(rt, 1, &strings(rt, RUN), "script 1 1 3\n", Some(&line)).starts_with(part)
}

#[test]
fn the_part_that_is_too_long_is_named(rt: HostRuntime) {
    let part = "l1, line 1: its key has more than 767 bytes (put t %61,kkk";
    assert!(rt; is_named(&rt, 768, 1, part));
    let part = "l1, line 1: its value has more than 2,048 bytes (put t";
    assert!(rt; is_named(&rt, 767, 2049, part));
}

#[test]
fn the_first_line_is_kept_and_all_is_passed_on(rt: HostRuntime) {
    let alloc = rt.alloc();
    let memory = MemorySink::with_room(alloc, 1000, Vec::new(alloc)).expect(&rt, "a sink");
    let mut sink = FirstLine::new(alloc, memory);
    assert!(rt; sink.put(b"shelf 1\n").is_ok() && sink.put(b"more").is_ok());
    let (memory, first) = sink.into_parts();
    assert!(rt;
        first.as_slice() == b"shelf 1\n".as_slice()
            && memory.written() == b"shelf 1\nmore".as_slice()
    );
}

#[test]
fn a_refused_line_names_its_file(rt: HostRuntime) {
    assert!(rt; refused_file(b"script 2 1 1\n") == Some(2));
    assert!(rt; refused_file(b"shelf 2\n").is_none());
}
