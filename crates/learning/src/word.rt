//! What an index has learnt, packed into one word.
ghost use Rattle.std.specs.Prelude.{◌≡◌};
ghost use Rattle.learning.specs.declared.info.Info.{Info};
ghost use Rattle.learning.specs.Word.{word_of, FitsWord};

use crate::info::Info;
use crate::{
    ANALYSIS_PLACE, ANALYSIS_WIDTH, BYTES_PLACE, BYTES_WIDTH, EVENTS_PLACE, FIELDS_PLACE,
    FIELDS_WIDTH, LAST_PLACE, LEFT_PLACE, POTENTIAL_PLACE, POTENTIAL_WIDTH,
};
use key_tuple::Params;

/// The word of an info, each of whose fields is below 2 to the power of its width.
pub fn pack(info: &Info) -> u64
    requires { FitsWord info.now }
    ensures { result ≡ word_of info.now }
{
    let last = u64::from(info.last) * (1 << LAST_PLACE);
    let left = u64::from(info.params.left) * (1 << LEFT_PLACE);
    let potential = u64::from(info.potential) * (1 << POTENTIAL_PLACE);
    let analysis = u64::from(info.analysis) * (1 << ANALYSIS_PLACE);
    let fields = u64::from(info.params.fields) * (1 << FIELDS_PLACE);
    let bytes = u64::from(info.params.bytes) * (1 << BYTES_PLACE);
    let events = u64::from(info.events) * (1 << EVENTS_PLACE);
    last + left + potential + analysis + fields + bytes + events
}

/// The info that was packed into a word.
pub fn unpack(word: u64) -> Info
    ensures { (info : Info) → FitsWord info → word_of info ≡ word → result ≡ info }
{
    Info {
        last: word / (1 << LAST_PLACE) % 2 == 1,
        potential: (word / (1 << POTENTIAL_PLACE) % (1 << POTENTIAL_WIDTH)) as u8,
        analysis: (word / (1 << ANALYSIS_PLACE) % (1 << ANALYSIS_WIDTH)) as u8,
        params: Params {
            fields: (word / (1 << FIELDS_PLACE) % (1 << FIELDS_WIDTH)) as u8,
            bytes: (word / (1 << BYTES_PLACE) % (1 << BYTES_WIDTH)) as u16,
            left: word / (1 << LEFT_PLACE) % 2 == 1,
        },
        events: (word / (1 << EVENTS_PLACE)) as u32,
    }
}
