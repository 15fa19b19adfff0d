//! Keys of one field, and values.
ghost use Rattle.std.specs.Prelude.{◌≡◌, [], ◌∷◌, IfSome};

use key_tuple::{Key, Value};
use std::alloc::Global;

/// The key whose only field is these bytes, or `None` where there is no memory or they are too many.
pub fn key_of(alloc: Global, bytes: &[u8]) -> Option<Key>
    ensures { IfSome result (λ key. key.tuple ≡ bytes.now ∷ []) }
{
    let field = bytes.to_vec(alloc).ok()?;
    Key::from_parts(field, &[bytes.len()]).ok()
}

/// The value of these bytes, or `None` where there is no memory or they are too many.
pub fn value_of(alloc: Global, bytes: &[u8]) -> Option<Value>
    ensures { IfSome result (λ value. value ≡ bytes.now) }
{
    Value::try_new(bytes.to_vec(alloc).ok()?).ok()
}
