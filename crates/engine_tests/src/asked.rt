//! What a caller asks of an engine, and what that has to be told.
use crate::claims::ensure;
use key_tuple::{Key, Mode, Value};
use map_history::{How, Note, Reply, Told};
use std::alloc::Global;
use std::process::Abort;

/// A key, or the tuple of a seek, of one field or of two: where the first of two ends, and how many
/// bytes there are in all. These are the four of the start, the highest first, and then `k`.
#[derive(Clone, Copy)]
pub(crate) struct Name {
    pub(crate) start: u32,
    pub(crate) cut: Option<usize>,
    pub(crate) length: usize,
}

/// A value of so many bytes: they are those of the start, and then `v`.
pub(crate) type Text = (&'static [u8], usize);

/// What is asked for.
#[derive(Clone, Copy)]
pub(crate) enum Order {
    Put(Text),
    Set(Text),
    Del,
    Get,
    Seek(Mode),
}

impl Order {
    /// The value that it has, or an empty one.
    pub(crate) fn text(&self) -> Text {
        match self {
            Order::Put(text) | Order::Set(text) => *text,
            Order::Del | Order::Get | Order::Seek(_) => (b"", 0),
        }
    }
}

/// What an order has to be told.
#[derive(Clone, Copy)]
pub(crate) enum Wanted {
    /// This reply.
    Reply(Reply),
    /// `Found`, with this value; in that way, if one is named.
    Found(Text, Option<How>),
    /// `Absent`, in this way.
    Absent(How),
    /// This reply at this point, by a descent of an index that has learnt nothing yet.
    Fresh(Reply, u64),
}

/// An order with a name, and what it has to be told.
#[derive(Clone, Copy)]
pub(crate) struct Asked {
    pub(crate) name: Name,
    pub(crate) order: Order,
    pub(crate) wanted: Wanted,
}

/// An order that rows are given one after another: the first of them, how much higher the start of
/// each next one's name is, how many rows there are, and how often the order is given. When all rows
/// have had it, it begins anew.
#[derive(Clone, Copy)]
pub(crate) struct Run {
    pub(crate) first: Asked,
    pub(crate) step: u32,
    pub(crate) rows: u32,
    pub(crate) times: u32,
}

/// How many orders the runs have.
pub(crate) fn count_of(runs: &[Run]) -> u32 {
    let mut count: u32 = 0;
    for run in runs {
        count = count.wrapping_add(run.times);
    }
    count
}

/// What is asked at this place among the orders of all runs, and the name that it is asked by there.
pub(crate) fn order_at(runs: &[Run], place: u32) -> Option<(&Asked, Name)> {
    let mut before = place;
    for run in runs {
        if before < run.times {
            let row = before.checked_rem(run.rows).unwrap_or(0);
            let mut name = run.first.name;
            name.start = name.start.wrapping_add(row.wrapping_mul(run.step));
            return Some((&run.first, name));
        }
        before = before.wrapping_sub(run.times);
    }
    None
}

/// Puts one more behind what is asked.
pub(crate) fn add<R: Abort>(rt: &R, runs: &mut Vec<Run>, one: Run) {
    runs.push(one).expect(rt, "memory for what is asked");
}

impl Asked {
    /// Whether that was told, and the row that was found has the value.
    pub(crate) fn is_told(&self, told: &Told, value: &[u8]) -> bool {
        match self.wanted {
            Wanted::Reply(reply) => told.reply == reply,
            Wanted::Found(text, how) => {
                told.reply == Reply::Found
                    && (how.is_none() || how == Some(told.how))
                    && is_text(value, text)
            }
            Wanted::Absent(how) => told.reply == Reply::Absent && told.how == how,
            Wanted::Fresh(reply, point) => {
                let point = Some(point);
                let (how, note) = (How::Cold, Note::No);
                *told
                    == Told {
                        reply,
                        point,
                        how,
                        note,
                    }
            }
        }
    }
}

/// Whether the bytes are this value, as far as its start and its length.
fn is_text(bytes: &[u8], text: Text) -> bool {
    bytes.len() == text.1 && bytes.starts_with(text.0)
}

/// So many bytes: those of the start, and then this one.
fn filled<R: Abort>(rt: &R, alloc: Global, start: &[u8], length: usize, rest: u8) -> Vec<u8> {
    let mut bytes = Vec::new(alloc);
    bytes.extend_from_slice(start).expect(rt, "a start");
    bytes.resize(length, rest).expect(rt, "a rest");
    bytes
}

/// The key with this name.
pub(crate) fn key_of<R: Abort>(rt: &R, alloc: Global, name: &Name) -> Key {
    let bytes = filled(rt, alloc, &name.start.to_be_bytes(), name.length, b'k');
    let end = bytes.len();
    let key = match name.cut {
        Some(cut) => {
            ensure(rt, cut <= end, "a first field within the key");
            Key::from_parts(bytes, &[cut, end])
        }
        None => Key::from_parts(bytes, &[end]),
    };
    key.expect(rt, "a key")
}

/// The value.
pub(crate) fn value_of<R: Abort>(rt: &R, alloc: Global, text: Text) -> Value {
    Value::try_new(filled(rt, alloc, text.0, text.1, b'v')).expect(rt, "a short value")
}
