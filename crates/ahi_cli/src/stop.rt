//! Why a run isn't done.
ghost use Rattle.std.specs.Prelude.{◌≡◌, ◌++◌, OnOk, OnErr};
ghost use Rattle.ahi_cli.specs.Stops.{stop_text, status_of};

use crate::status::Status;
use key_tuple::{Blank, NoMemory};
use report_text::{Word, put_line};
use settings::Setting;
use std::alloc::AllocFailed;

/// Why a run isn't done. Files are numbered from 0: the schema, then the lanes.
#[derive(Clone, Copy)]
pub enum Stop {
    /// The words aren't accepted.
    Usage,
    /// The file isn't in its grammar: the line, and the number of what is wrong with it.
    Script { file: u32, line: u32, code: u8 },
    /// The file couldn't be read.
    Shelf { file: u32 },
    /// The files up to this one are too long together.
    TooLarge { file: u32 },
    /// The schema's sizes can't be had for so many lanes: the first setting outside its limits.
    Sizes { setting: Setting },
    /// There was no memory.
    NoMemory,
}

impl Stop {
    /// The status that it ends the program with.
    pub fn status(&self) -> Status
        ensures { result ≡ status_of self.now }
    {
        match self {
            Stop::Usage => Status::Usage,
            Stop::Script { .. } => Status::Script,
            Stop::Shelf { .. } => Status::ShelfFault,
            Stop::TooLarge { .. } | Stop::Sizes { .. } => Status::TooLarge,
            Stop::NoMemory => Status::NoMemory,
        }
    }

    /// Appends the line that tells it, if one does.
    pub fn put_text(&self, out: &mut Vec<u8>) -> Result<(), NoMemory>
        ensures ok { OnOk result (out.new.items ≡ out.old.items ++ stop_text self.now) }
        ensures err { OnErr result (out.new.items ≡ out.old.items) }
    {
        match self {
            Stop::Usage => put_line::<Blank>(out, &[Word::Text(USAGE)]),
            Stop::Script { file, line, code } => put_line::<Blank>(
                out,
                &[
                    Word::Text("script"),
                    Word::Number(u64::from(*file)),
                    Word::Number(u64::from(*line)),
                    Word::Number(u64::from(*code)),
                ],
            ),
            Stop::Shelf { file } => put_line::<Blank>(
                out,
                &[Word::Text("shelf"), Word::Number(u64::from(*file))],
            ),
            Stop::TooLarge { file } => put_line::<Blank>(
                out,
                &[Word::Text("too-large"), Word::Number(u64::from(*file))],
            ),
            Stop::Sizes { setting } => put_line::<Blank>(
                out,
                &[Word::Text("sizes"), Word::Text(setting.word())],
            ),
            Stop::NoMemory => Ok(()),
        }
    }
}

impl<T: Drop> From<AllocFailed<T>> for Stop {
    ghost use Rattle.ahi_cli.specs.declared.stop.Stop.TheVariants as stop;

    ghost from_gives = { λ _ s. s ≡ stop.NoMemory };

    fn from(_refused: AllocFailed<T>) -> Stop {
        Stop::NoMemory
    }
}

const USAGE: &str = "usage: ahi run SCHEMA LANE.. | ahi page FILE | ahi gen NUMBER LANES LINES";
