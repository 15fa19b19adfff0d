//! The words of the command line.
ghost use Rattle.std.specs.Prelude.{◌≡◌, ◌≤◌, length, map, option_map, IfSome, string_bytes};
ghost use Rattle.std.specs.List.{list_all};
ghost use Rattle.map_history.specs.declared.TheConstants.{MAX_LANES};
ghost use Rattle.ahi_cli.specs.Words.{accepted, are_lanes, names_file, names_of};

use map_history::MAX_LANES;

/// The files that accepted words name.
#[derive(Clone, Copy)]
pub struct Command<'a> {
    pub schema: &'a str,
    pub lanes: &'a [String],
}

/// The command that the words give, if they are accepted: `run SCHEMA LANE..` with 1 to 64 lanes.
pub fn accept(words: &[String]) -> Option<Command<'_>>
    ensures accepted { option_map names_of result ≡ accepted (map string_bytes words.now) }
    ensures lanes { IfSome result
        (λ c. (1 ≤ length c.lanes.now) × (length c.lanes.now ≤ MAX_LANES)) }
{
    match words {
        [verb, schema, lanes @ ..] => {
            let schema = schema.as_str();
            if verb.as_str() == "run" && names_file(schema) && are_lanes(lanes) {
                Some(Command { schema, lanes })
            } else {
                None
            }
        }
        _ => None,
    }
}

fn are_lanes(words: &[String]) -> bool
    ensures { result ≡ are_lanes (map string_bytes words.now) }
{
    name_files(words) && 1 <= words.len() && words.len() <= MAX_LANES
}

fn name_files(words: &[String]) -> bool
    ensures { result ≡ list_all names_file (map string_bytes words.now) }
{
    words.iter().all(|word| names_file(word.as_str()))
}

fn names_file(word: &str) -> bool
    ensures { result ≡ names_file word.now }
{
    match word.as_bytes() {
        [] => false,
        [first, ..] => *first != b'-',
    }
}
