//! What has fields: tuples, keys and rows.
ghost use Rattle.std.specs.Prelude.{◌≡◌, ◌<◌, ℕ, List, [], length, replicate, slice_index_or};
ghost use Rattle.key_tuple.specs.Order.{FieldList};

/// A list of byte fields. A contract sees the list as `fields_of`.
pub trait Fields {
    /// The fields, each as its bytes.
    ghost fields_of: { Self → FieldList };

    /// How many fields there are.
    fn count(&self) -> u8
        ensures { result ≡ length (fields_of self.now) };

    /// The bytes of one field, numbered from 0.
    fn field(&self, i: u8) -> &[u8]
        requires { i < length (fields_of self.now) }
        ensures bytes { result.now ≡ slice_index_or (fields_of self.now) i [] }
        ensures fits { length result.now < 65536 };
}

/// So many empty fields.
#[derive(Clone, Copy)]
pub struct Blank {
    /// How many.
    pub count: u8,
}

impl Fields for Blank {
    ghost fields_of = { λ b. replicate b.count [] };

    fn count(&self) -> u8 {
        self.count
    }

    fn field(&self, _i: u8) -> &[u8] {
        &[]
    }
}
