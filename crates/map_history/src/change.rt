//! Changes of a map.
use key_tuple::{Key, Value};

/// One change of the map of an index.
#[derive(Drop)]
pub enum Change {
    /// A row whose key wasn't there.
    Put { key: Key, value: Value },
    /// A new value of a row that was there.
    Set { key: Key, value: Value },
    /// A row that was there, taken out.
    Del { key: Key },
}
