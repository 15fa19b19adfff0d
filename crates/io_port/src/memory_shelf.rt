//! Files in memory, with loads that fail where a test wants it.
ghost use Rattle.std.specs.Prelude.{◌≡◌, find};
ghost use Rattle.std.specs.Option.{option_copied};
ghost use Rattle.std.specs.Str.{bytes_eq};
ghost use Rattle.std.specs.String.{string_bytes};
ghost use Rattle.io_port.specs.Shelf.{files_of};
ghost use Rattle.io_port.specs.MemoryShelf.{pairs_of, IsWithin};

use crate::{Shelf, ShelfError};
use std::alloc::Global;
use std::marker::Model;

/// A shelf that tells its files. Of two files of one name the first counts.
#[derive(Drop)]
pub struct MemoryShelf {
    files: Vec<(String, Vec<u8>)>,
    fail: Vec<u64>,
    calls: u64,
    faults: u64,
    failed: Option<String>,
}

impl Model for MemoryShelf {
    ghost use Rattle.std.specs.Prelude.{option_map};
    ghost use Rattle.std.specs.String.{string_bytes};
    ghost use Rattle.io_port.specs.MemoryShelf.{ShelfState, pairs_of};

    ghost Value = { ShelfState };

    ghost view = { λ s. record {
      files = pairs_of s.files.items;
      fail = s.fail.items;
      calls = s.calls;
      faults = s.faults;
      failed = option_map string_bytes s.failed;
    } };
}

impl MemoryShelf {
    ghost use Rattle.std.specs.Prelude.{◌≡◌};
    ghost use Rattle.io_port.specs.MemoryShelf.{new_shelf, pairs_of};

    /// A shelf with these files. The loads with the numbers in `fail`, from 0 on, are to fail.
    pub fn new(files: Vec<(String, Vec<u8>)>, fail: Vec<u64>) -> Self
        ensures { result ≡ new_shelf (pairs_of files.items) fail.items }
    {
        MemoryShelf {
            files,
            fail,
            calls: 0,
            faults: 0,
            failed: None,
        }
    }
}

impl Shelf for MemoryShelf {
    ghost use Rattle.std.specs.Prelude.{◌≡◌, ◌≤◌, Some};
    ghost use Rattle.io_port.specs.Shelf.{files_of, OnFailed, UnlessFailed};
    ghost use Rattle.io_port.specs.MemoryShelf.{after_load, after_failure, IsAnswer};

    ghost holds = { λ s. Some (files_of s.files) };

    ghost faults = { λ s. s.faults };

    ghost failed = { λ s. s.failed };

    /// A load fails where its number is listed or the name isn't held, and each load counts.
    fn load(&mut self, alloc: Global, name: &str, limit: u64) -> Result<Vec<u8>, ShelfError>
        ensures answer { IsAnswer self.old name.now limit result }
        ensures failed { OnFailed result (self.new ≡ after_failure self.old name.now) }
        ensures others { UnlessFailed result (self.new ≡ after_load self.old) }
        ensures kept { self.old.faults ≤ self.new.faults }
    {
        let number = self.calls;
        self.calls = number.saturating_add(1);
        let name_copy = String::from_str(alloc, name)?;
        match bytes_named(&self.files, name) {
            Some(bytes) if !self.fail.contains(&number) => copy_within(alloc, bytes, limit),
            _ => {
                self.faults = self.faults.saturating_add(1);
                self.failed = Some(name_copy);
                Err(ShelfError::Failed)
            }
        }
    }
}

// The first file of that name.
fn file_named<'a>(files: &'a [(String, Vec<u8>)], name: &str) -> Option<&'a (String, Vec<u8>)>
    ensures { option_copied result
        ≡ find (λ file. bytes_eq (string_bytes file.0) name.now) files.now }
{
    files.iter().find(|file| file.0.as_str() == name)
}

fn bytes_named<'a>(files: &'a [(String, Vec<u8>)], name: &str) -> Option<&'a [u8]>
    ensures { option_copied result ≡ files_of (pairs_of files.now) name.now }
{
    match file_named(files, name) {
        Some(file) => Some(&file.1),
        None => None,
    }
}

fn copy_within(alloc: Global, bytes: &[u8], limit: u64) -> Result<Vec<u8>, ShelfError>
    ensures { IsWithin bytes.now limit result }
{
    if bytes.len() as u64 > limit {
        return Err(ShelfError::TooLong(limit));
    }
    Ok(bytes.to_vec(alloc)?)
}
