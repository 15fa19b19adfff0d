//! A row's value.
ghost use Rattle.std.specs.Prelude.{◌≡◌, ◌≤◌, ◌⊎◌, length, IfOk, IfErr, IfSome, Some};
ghost use Rattle.key_tuple.specs.Limits.{MAX_VALUE_BYTES, value_refusal_of};

use crate::MAX_VALUE_BYTES;
use crate::error::KeyError;
use std::alloc::AllocError;
use std::marker::Model;

/// Up to [`MAX_VALUE_BYTES`] bytes, seen as the list of them.
#[derive(Drop)]
pub struct Value {
    bytes: Vec<u8>,
}

impl Model for Value {
    ghost use Rattle.std.specs.Prelude.{◌≤◌, List, ℕ, length};
    ghost use Rattle.key_tuple.specs.declared.TheConstants.{MAX_VALUE_BYTES};

    ghost Value = { List ℕ };

    ghost view = { λ v. v.bytes.items };

    ghost invariant = { λ v. length v.bytes.items ≤ MAX_VALUE_BYTES };
}

impl Value {
    /// The value of these bytes, unless there are too many.
    pub fn try_new(bytes: Vec<u8>) -> Result<Value, KeyError>
        ensures ok { IfOk result (λ v. v ≡ bytes.items) }
        ensures refused { IfSome (value_refusal_of bytes.items) (λ e. result ≡ Err e) }
        ensures cause { IfErr result (λ e. value_refusal_of bytes.items ≡ Some e) }
    {
        let len = bytes.len();
        if len > MAX_VALUE_BYTES {
            return Err(KeyError::TooLong(len));
        }
        Ok(Value { bytes })
    }

    /// The bytes.
    pub fn as_bytes(&self) -> &[u8]
        ensures bytes { result.now ≡ self.now }
        ensures short { length self.now ≤ MAX_VALUE_BYTES }
    {
        &self.bytes
    }
}

impl Clone for Value {
    ghost is_clone = { λ v c. c ≡ v };

    fn clone(&self) -> Result<Value, AllocError> {
        Ok(Value {
            bytes: self.bytes.clone()?,
        })
    }
}
