//! A page that is kept beside the page.
ghost use Rattle.std.specs.Prelude.{◌≡◌, Some, None, IfOk, OnOk, OnErr, IsSome};

use crate::page::Page;
use key_tuple::NoMemory;
use std::alloc::{AllocError, Global};
use std::marker::Model;

/// Room for a page as it was, seen as that page, if one was saved and not restored.
#[derive(Drop)]
pub struct PageCopy {
    page: Option<Page>,
}

impl Model for PageCopy {
    ghost use Rattle.std.specs.Prelude.{Option};
    ghost use Rattle.index_page.specs.Page.{PageRows};

    ghost Value = { Option PageRows };

    ghost view = { λ c. c.page };
}

impl PageCopy {
    /// No page. This page form takes the memory only when one is saved.
    pub fn new(_alloc: Global) -> Result<PageCopy, NoMemory>
        ensures { IfOk result (λ copy. copy ≡ None) }
    {
        Ok(PageCopy { page: None })
    }

    /// Lets go of what is kept.
    pub(crate) fn forget(&mut self)
        ensures { self.new ≡ None }
    {
        self.page = None;
    }
}

impl Page {
    /// Saves the page with its places. After `NoMemory` the copy is as before.
    pub fn save(&self, copy: &mut PageCopy) -> Result<(), NoMemory>
        ensures ok { OnOk result (copy.new ≡ Some self.now) }
        ensures err { OnErr result (copy.new ≡ copy.old) }
    {
        copy.page = Some(self.copy()?);
        Ok(())
    }

    /// Makes the page what was saved. It takes no memory, and the copy is used up.
    pub fn restore(&mut self, copy: &mut PageCopy)
        requires { IsSome copy.old }
        ensures page { copy.old ≡ Some self.new }
        ensures copy { copy.new ≡ None }
    {
        *self = copy.page.take().unwrap();
    }

    fn copy(&self) -> Result<Page, AllocError>
        ensures { IfOk result (λ page. page ≡ self.now) }
    {
        Ok(Page {
            head: self.head,
            rows: self.rows.copy()?,
            load: self.load,
        })
    }
}
