//! A page that is kept beside the page.
ghost use Rattle.std.specs.Prelude.{◌≡◌, Some, None, IfOk, IsSome};

use crate::page::BytePage;
use index_page::PageHead;
use key_tuple::NoMemory;
use std::alloc::Global;
use std::marker::Model;

/// Room for a page as it was, made once, seen as that page, if one was saved.
#[derive(Drop)]
pub struct ByteCopy {
    pub(crate) page: BytePage,
    pub(crate) saved: bool,
}

impl Model for ByteCopy {
    ghost use Rattle.std.specs.Prelude.{Option, Some, None, if◌then◌else◌};
    ghost use Rattle.byte_page.specs.Form.{GappedPage};

    ghost Value = { Option GappedPage };

    ghost view = { λ c. if c.saved then Some c.page else None };
}

impl ByteCopy {
    /// Room for a page, and none saved yet. No other call takes memory.
    pub fn new(alloc: Global) -> Result<ByteCopy, NoMemory>
        ensures { IfOk result (λ copy. copy ≡ None) }
    {
        let page = BytePage::empty(
            alloc,
            PageHead {
                number: 0,
                index: 0,
                level: 0,
                prev: None,
                next: None,
                fields: 0,
            },
        )?;
        Ok(ByteCopy { page, saved: false })
    }
}

impl BytePage {
    /// Saves the page with its places and gaps.
    pub fn save(&self, copy: &mut ByteCopy)
        ensures { copy.new ≡ Some self.now }
    {
        copy.page.copy_from(self);
        copy.saved = true;
    }

    /// Makes the page what was saved.
    pub fn restore(&mut self, copy: &ByteCopy)
        requires { IsSome copy.now }
        ensures { copy.now ≡ Some self.new }
    {
        self.copy_from(&copy.page);
    }

    /// Makes the page what another is, byte for byte.
    pub(crate) fn copy_from(&mut self, other: &BytePage)
        ensures { self.new ≡ other.now }
    {
        self.bytes.copy_from_slice(&other.bytes);
        self.fields = other.fields;
    }
}
