//! `ahi run SCHEMA LANE..`: runs lanes of operations over shared indexes, and prints the report.
#![tactic(auto)]

use ahi_cli::{Status, run_words};
use first_line::FirstLine;
use io_port::{FileShelf, OutSink, Shelf};
use lanes::NoGate;
use refusal_text::{explain, refused_file};
use script::MAX_FILE_BYTES;
use std::io::{self, ErrorKind};
use std::process::ExitCode;
use std::{env, fs};

/// Runs the words after the program's name on real files and the standard output, and ends with the
/// number of the status. Why a run isn't done is said on standard error.
fn main(rt: HostRuntime) -> ExitCode {
    let Some(words) = words(&rt) else {
        say_why(&rt, Status::NoMemory, &[], b"");
        return ExitCode::from(Status::NoMemory.number());
    };
    let Ok(out) = OutSink::new(rt.alloc(), io::writer(&rt)) else {
        say_why(&rt, Status::NoMemory, &words, b"");
        return ExitCode::from(Status::NoMemory.number());
    };
    let (mut shelf, mut sink) = (FileShelf::new(&rt), FirstLine::new(rt.alloc(), out));
    let status = run_words(&rt, &rt, &words, &mut shelf, &mut sink, &NoGate, &mut None);
    let (out, first) = sink.into_parts();
    let status = match out.finish() {
        Ok(_) => status,
        Err(_) => Status::SinkFault,
    };
    say_why(&rt, status, &words, &first);
    ExitCode::from(status.number())
}

/// The words after the program's name, or `None` where there is no memory for them.
fn words(rt: &HostRuntime) -> Option<Vec<String>> {
    let mut words = Vec::new(rt.alloc());
    match env::args(rt) {
        Ok(args) => {
            for word in args.skip(1) {
                words.push(word).ok()?;
            }
        }
        // a word that isn't UTF-8 is none that is accepted
        Err(error) if error.kind() == ErrorKind::InvalidData => {}
        Err(_) => return None,
    }
    Some(words)
}

/// Says why a run of these words isn't done, of which `told` was put first. Where there is no memory
/// for that, or standard error fails, nothing is said.
fn say_why(rt: &HostRuntime, status: Status, words: &[String], told: &[u8]) {
    if status == Status::Done {
        return;
    }
    let bytes = refused_bytes(rt, words, told);
    if let Ok(text) = explain(rt.alloc(), status.number(), words, told, bytes.as_deref()) {
        let _said = eprintln!(rt; "{text}");
    }
}

/// The bytes of the file whose line is refused, where they can be read once more: those of a pipe
/// are gone.
fn refused_bytes(rt: &HostRuntime, words: &[String], told: &[u8]) -> Option<Vec<u8>> {
    let name = words.get(refused_file(told)?.checked_add(1)?)?.as_str();
    if !fs::metadata(rt, name).ok()?.is_file() {
        return None;
    }
    let mut shelf = FileShelf::new(rt);
    shelf.load(rt.alloc(), name, MAX_FILE_BYTES as u64).ok()
}
