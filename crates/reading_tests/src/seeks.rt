//! Seeks in a map by a range.
use crate::setup::MEMORY;
use key_tuple::{Fields, Key, Mode, Tuple, Value};
use map_history::{Change, apply};
use map_ranges::sought;
use std::collections::BTreeMap;
use std::process::Abort;

/// As many bytes as a key may have.
const LONG: &[u8] = &[98; 767];

/// Rows in the order of their keys, of one field up to four.
static ROWS: [(&[&[u8]], &[u8]); 7] = [
    (&[b"a", b"x"], b"1"),
    (&[b"a", b"y"], b"2"),
    (&[b"b", b"x"], b"3"),
    (&[LONG], b"4"),
    (&[LONG, b""], b"5"),
    (&[LONG, b"", b"", b""], b"6"),
    (&[b"c", b"x"], b"7"),
];

/// A seek, and the value of the row that it asks for; it has no bytes where there is none.
type Seek = (Mode, &'static [&'static [u8]], &'static [u8]);

static SEEKS: [Seek; 10] = [
    (Mode::Ge, &[b"a"], b"1"),
    (Mode::G, &[b"a"], b"3"),
    (Mode::Le, &[b"a"], b"2"),
    (Mode::L, &[b"a"], b""),
    (Mode::Ge, &[LONG], b"4"),
    (Mode::G, &[LONG], b"7"),
    (Mode::Le, &[LONG], b"6"),
    (Mode::L, &[LONG], b"3"),
    (Mode::G, &[b"c"], b""),
    (Mode::Le, &[b"z", b"z", b"z", b"z"], b"7"),
];

fn owned<R: AllocGlobal + Abort>(rt: &R, parts: &[&[u8]]) -> Vec<Vec<u8>> {
    let mut fields = Vec::new(rt.alloc());
    for part in parts {
        let field = part.to_vec(rt.alloc()).expect(rt, MEMORY);
        fields.push(field).expect(rt, MEMORY);
    }
    fields
}

fn map_of<R: AllocGlobal + Abort>(rt: &R) -> BTreeMap<Key, Value> {
    let mut map = BTreeMap::new(rt.alloc());
    for (parts, bytes) in ROWS.iter() {
        let fields = owned(rt, parts);
        assert!(rt; !fields.is_empty());
        let key = Key::try_new(rt.alloc(), fields).expect(rt, "a key");
        let bytes = bytes.to_vec(rt.alloc()).expect(rt, MEMORY);
        let value = Value::try_new(bytes).expect(rt, "a value");
        apply(&mut map, &Change::Put { key, value }).expect(rt, MEMORY);
    }
    map
}

#[test]
fn a_seek_finds_its_row_by_a_range(rt: HostRuntime) {
    let map = map_of(&rt);
    for (mode, parts, value) in SEEKS.iter() {
        let tuple = Tuple::try_new(rt.alloc(), owned(&rt, parts)).expect(&rt, "a tuple");
        assert!(rt; 0 < tuple.count());
        let row = sought(rt.alloc(), &map, *mode, &tuple).expect(&rt, MEMORY);
        assert!(rt; row.map_or(b"".as_slice(), |row| row.1.as_bytes()) == *value);
    }
}
