//! Pages without rows, and the rows that come to them.
use crate::rounds::Load;
use index_page::PageHead;
use key_tuple::{Key, Value};
use std::alloc::Global;

/// A leaf for keys of one field.
pub const HEAD: PageHead = PageHead {
    number: 0,
    index: 0,
    level: 0,
    prev: None,
    next: None,
    fields: 1,
};

/// So many rows, in no order, with a value of so many bytes.
pub fn load(alloc: Global, rows: u32, len: u32) -> Option<Load> {
    let keys = keys(alloc, rows)?;
    let bytes = vec![in alloc; 7; len as usize].ok()?;
    let value = Value::try_new(bytes).ok()?;
    Some(Load { keys, value })
}

fn keys(alloc: Global, rows: u32) -> Option<Vec<Key>> {
    let mut keys = Vec::new(alloc);
    for row in 0..rows {
        let number = row.wrapping_mul(89) % rows;
        keys.push(key(alloc, number)?).ok()?;
    }
    Some(keys)
}

/// The key of a row, of 16 bytes.
fn key(alloc: Global, row: u32) -> Option<Key> {
    let mut bytes = [48u8; 16];
    bytes[12..16].copy_from_slice(&row.to_be_bytes());
    let field = bytes.to_vec(alloc).ok()?;
    let fields = vec![in alloc; field].ok()?;
    Key::try_new(alloc, fields).ok()
}
