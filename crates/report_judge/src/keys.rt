//! The order of keys: field by field, and fields byte by byte.
use std::cmp::Ordering;

/// How a tuple stands to a key. Where it has fewer fields, the others of the key don't count.
pub(crate) fn compare_fields(tuple: &str, key: &str) -> Ordering {
    let mut fields = key.split(',');
    for part in tuple.split(',') {
        let field = fields.next().unwrap_or("~");
        let order = bytes_of(part).cmp(bytes_of(field));
        if order != Ordering::Equal {
            return order;
        }
    }
    Ordering::Equal
}

/// The bytes of a plain field.
fn bytes_of(field: &str) -> &[u8] {
    match field {
        "~" => &[],
        _ => field.as_bytes(),
    }
}

/// How many fields a key or a tuple has, if each is plain.
pub(crate) fn count_fields(key: &str) -> Option<u64> {
    let mut count: u64 = 0;
    for field in key.split(',') {
        count = count.wrapping_add(1);
        if !is_plain(field) {
            return None;
        }
    }
    Some(count)
}

/// Whether this is a field or a value that is printed as it stands.
pub(crate) fn is_plain(field: &str) -> bool {
    if field == "~" {
        return true;
    }
    for byte in field.as_bytes() {
        if !is_plain_byte(*byte) {
            return false;
        }
    }
    !field.is_empty()
}

fn is_plain_byte(byte: u8) -> bool {
    byte > b' ' && byte < b'~' && byte != b'%' && byte != b','
}
