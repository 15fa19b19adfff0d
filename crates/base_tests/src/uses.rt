//! Copies, a buffer that is filled again, and keys in a map.
use crate::setup::{MEMORY, has_fields, key_of, value_of};
use key_tuple::{FieldBuffer, Key};
use std::collections::BTreeMap;
use std::hash::{DefaultHasher, Hash, Hasher};
use std::process::Abort;

#[test]
fn copied_keys_and_values_are_equal(rt: HostRuntime) {
    assert!(rt; equals_its_copy(&rt, &key_of(&rt, &[b"a", b"", b"bc"])));
    let copy = value_of(&rt, b"xyz").clone().expect(&rt, MEMORY);
    assert!(rt; copy.as_bytes() == b"xyz".as_slice());
}

fn equals_its_copy<R: Abort>(rt: &R, key: &Key) -> bool {
    let copy = key.clone().expect(rt, MEMORY);
    copy == *key && hash_of(&copy) == hash_of(key.tuple())
}

// What a hash map would use.
fn hash_of<T: Hash>(value: &T) -> u64 {
    let mut hasher = DefaultHasher::new();
    value.hash(&mut hasher);
    hasher.finish()
}

// A copy keeps its fields when the buffer is emptied and filled again.
#[test]
fn a_buffer_is_filled_again(rt: HostRuntime) {
    let mut buffer = FieldBuffer::with_capacity(rt.alloc(), 4).expect(&rt, MEMORY);
    buffer.push(b"ab").expect(&rt, MEMORY);
    buffer.push(b"").expect(&rt, MEMORY);
    let copy = buffer.clone().expect(&rt, MEMORY);
    buffer.clear();
    buffer.push(b"cdef").expect(&rt, MEMORY);
    assert!(rt; has_fields(&copy, &[b"ab", b""]) && has_fields(&buffer, &[b"cdef"]));
}

static ROWS: [(&[u8], u8); 3] = [(b"b", 2), (b"a", 1), (b"c", 3)];

fn three_rows<R: AllocGlobal + Abort>(rt: &R) -> BTreeMap<Key, u8> {
    let mut rows = BTreeMap::new(rt.alloc());
    for (field, value) in ROWS.iter() {
        let inserted: Result<_, _> = rows.insert(key_of(rt, &[*field]), *value);
        inserted.expect(rt, MEMORY);
    }
    rows
}

#[test]
fn keys_stand_in_a_map(rt: HostRuntime) {
    let rows = three_rows(&rt);
    let first = rows.values().next().copied();
    let known = rows.get(&key_of(&rt, &[b"a"])).copied();
    assert!(rt; first.unwrap_or(0) == 1 && known.unwrap_or(0) == 1);
    assert!(rt; rows.get(&key_of(&rt, &[b"d"])).is_none());
}
