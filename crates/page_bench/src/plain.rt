//! The work on a page of rows.
ghost use Rattle.std.specs.Prelude.{IfSome, IsSome};
ghost use Rattle.index_page.specs.Rows.{find_row};

use crate::rounds::Rows;
use index_page::{Body, Page, Place};
use key_tuple::{Fields, Key, Mode, Value};

impl Rows for Page {
    fn put(&mut self, key: &Key, value: &Value) {
        let head = *self.head();
        if head.level != 0 || key.count() != head.fields {
            return;
        }
        let spot = self.search(key, Mode::Ge);
        if spot.up.fields != key.count() {
            key.tuple().is_within_limits();
            let _put = self.insert_at(&spot, key, Body::Value(value));
        }
    }

    fn has(&self, key: &Key, len: usize) -> bool {
        match place_of(self, key) {
            Some(place) => self.head().level == 0 && self.row(place).value().len() == len,
            None => false,
        }
    }

    fn take(&mut self, key: &Key) {
        if let Some(place) = place_of(self, key) {
            self.delete(place);
        }
    }
}

/// The place of the row with that key, if it is there.
fn place_of(page: &Page, key: &Key) -> Option<Place>
    ensures { IfSome result (λ place. IsSome (find_row place page.now.rows)) }
{
    if key.count() != page.head().fields {
        return None;
    }
    let spot = page.search(key, Mode::Ge);
    if spot.up.fields != key.count() {
        return None;
    }
    spot.after
}
