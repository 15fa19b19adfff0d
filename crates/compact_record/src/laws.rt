//! The laws of records in bytes.
ghost use Rattle.compact_record.specs.Laws.{RecordsReadBack, RecordsStay};

/// What is written is what is read.
pub fn records_read_back()
    ensures { RecordsReadBack }
{}

/// A record stays where a write is beside it, and takes the bytes that its parts ask for.
pub fn records_stay()
    ensures { RecordsStay }
{}
