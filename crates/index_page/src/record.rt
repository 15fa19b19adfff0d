//! One stored row, lent.
ghost use Rattle.std.specs.Prelude.{◌≡◌, ◌≤◌, ℕ, List};
ghost use Rattle.key_tuple.specs.Limits.{IsWithinLimits};
ghost use Rattle.index_page.specs.Rows.{Bytes, Child};
ghost use Rattle.index_page.specs.Store.{beside_by, body_from};
ghost use Rattle.index_page.specs.declared.TheConstants.{MAX_CHARGE};
ghost use Rattle.index_page.specs.Page.{HasShortValue};
ghost use Rattle.index_page.specs.Loads.{charge_of};

use crate::body::Beside;
use crate::charges::{CHILD_SIZE, record_charge, size_with_length};
use key_tuple::{Fields, LentFields};
use std::marker::Model;

/// A key with a value or a child, lent by those that keep it.
#[derive(Drop)]
pub(crate) struct Record<'a> {
    key: LentFields<'a>,
    value: &'a [u8],
    child: Option<u32>,
}

impl<'a> Model for Record<'a> {
    ghost use Rattle.index_page.specs.Store.{Content, body_from};

    ghost Value = { Content };

    ghost view = { λ r. record { key = r.key; body = body_from r.value.now r.child } };
}

impl<'a> Record<'a> {
    /// A record of this key, and of this value unless there is a child.
    pub(crate) fn new(key: LentFields<'a>, value: &'a [u8], child: Option<u32>) -> Record<'a>
        ensures { result ≡ record { key = key.entry; body = body_from value.now child } }
    {
        Record { key, value, child }
    }

    /// What it carries beside its key.
    pub(crate) fn beside(&self) -> Beside<'_>
        ensures { beside_by result ≡ self.now.body }
    {
        match self.child {
            None => Beside::Value(self.value),
            Some(number) => Beside::Child(number),
        }
    }

    /// What a page is charged for it.
    pub(crate) fn charge(&self) -> u16
        requires limits { IsWithinLimits self.now.key }
        requires short { HasShortValue self.now.body }
        ensures charge { result ≡ charge_of self.now.key self.now.body }
        ensures most { result ≤ MAX_CHARGE }
    {
        let beside = match self.child {
            None => size_with_length(self.value),
            Some(_) => CHILD_SIZE,
        };
        record_charge(&self.key, beside)
    }

    /// The value's bytes.
    pub(crate) fn value(&self) -> &[u8]
        requires { (value : List ℕ) × (self.now.body ≡ Bytes value) }
        ensures { self.now.body ≡ Bytes result.now }
    {
        self.value
    }

    /// The child's number.
    pub(crate) fn child(&self) -> u32
        requires { (number : ℕ) × (self.now.body ≡ Child number) }
        ensures { self.now.body ≡ Child result }
    {
        self.child.unwrap()
    }
}

impl<'a> Fields for Record<'a> {
    ghost fields_of = { λ r. r.key };

    fn count(&self) -> u8 {
        self.key.count()
    }

    fn field(&self, i: u8) -> &[u8] {
        self.key.field(i)
    }
}
