//! The real files of a runtime.
ghost use Rattle.std.specs.Prelude.{◌≤◌, None, IfOk, IfErr, vec_len};
ghost use Rattle.io_port.specs.Shelf.{IsTooLong, OnTooLong};
ghost use Rattle.io_port.specs.Streams.{IsAllOf, HasMore};

use crate::streams::read_within;
use crate::{Shelf, ShelfError};
use std::alloc::Global;
use std::fs::File;
use std::marker::Model;
use std::rt::Files;

/// The files that a runtime opens by their paths. What bytes a path has is not told: that a load
/// gives them is taken on trust and tested.
#[derive(Drop)]
pub struct FileShelf<'a, R> {
    rt: &'a R,
    faults: u64,
    failed: Option<String>,
}

impl<'a, R> Model for FileShelf<'a, R> {
    ghost use Rattle.std.specs.Prelude.{option_map};
    ghost use Rattle.std.specs.String.{string_bytes};
    ghost use Rattle.io_port.specs.FileShelf.{LoadFaults};

    ghost Value = { LoadFaults };

    ghost view = { λ s. record { faults = s.faults; failed = option_map string_bytes s.failed } };
}

impl<'a, R> FileShelf<'a, R> {
    ghost use Rattle.std.specs.Prelude.{◌≡◌, None};

    /// A shelf over these files. It opens nothing yet.
    pub fn new(rt: &'a R) -> Self
        ensures { result ≡ record { faults = 0; failed = None } }
    {
        FileShelf {
            rt,
            faults: 0,
            failed: None,
        }
    }
}

impl<R: Files> Shelf for FileShelf<'_, R> {
    ghost use Rattle.std.specs.Prelude.{◌≡◌, ◌≤◌, None, IfOk, IfErr, vec_len};
    ghost use Rattle.io_port.specs.Shelf.{IsTooLong, OnTooLong, OnFailed, UnlessFailed};
    ghost use Rattle.io_port.specs.Streams.{IsAllOf, HasMore};
    ghost use Rattle.io_port.specs.FileShelf.{after_failure};

    ghost holds = { λ _. None };

    ghost faults = { λ s. s.faults };

    ghost failed = { λ s. s.failed };

    /// A file that can't be opened, and a read that fails, fail the load.
    fn load(&mut self, alloc: Global, name: &str, limit: u64) -> Result<Vec<u8>, ShelfError>
        // A file was opened, and these are all that its reads gave, or they gave too many.
        ensures read { IfOk result (λ bytes.
            (file : R.File) × IsAllOf (R.File.remaining file) bytes.items) }
        ensures more { OnTooLong result ((file : R.File) × HasMore (R.File.remaining file) limit) }

        ensures within { IfOk result (λ bytes. vec_len bytes ≤ limit) }
        ensures too_long { IfErr result (IsTooLong None name.now limit) }

        ensures failed { OnFailed result (self.new ≡ after_failure self.old name.now) }
        ensures others { UnlessFailed result (self.new ≡ self.old) }
        ensures kept { self.old.faults ≤ self.new.faults }
    {
        let name_copy = String::from_str(alloc, name)?;
        let loaded = load_file(self.rt, alloc, name, limit);
        if let Err(ShelfError::Failed) = &loaded {
            self.faults = self.faults.saturating_add(1);
            self.failed = Some(name_copy);
        }
        loaded
    }
}

fn load_file<R: Files>(rt: &R, alloc: Global, name: &str, limit: u64) -> Result<Vec<u8>, ShelfError>
    ensures read { IfOk result (λ bytes.
        (file : R.File) × IsAllOf (R.File.remaining file) bytes.items) }
    ensures more { OnTooLong result ((file : R.File) × HasMore (R.File.remaining file) limit) }
    ensures within { IfOk result (λ bytes. vec_len bytes ≤ limit) }
    ensures too_long { IfErr result (IsTooLong None name.now limit) }
{
    let Ok(mut file) = File::open(rt, name) else {
        return Err(ShelfError::Failed);
    };
    read_within(alloc, &mut file, limit)
}
