//! Names of indexes.
ghost use Rattle.std.specs.Prelude.{◌≡◌, ◌<◌, map, string_bytes, IfOk};
ghost use Rattle.std.specs.List.{All, position};
ghost use Rattle.std.specs.Str.{bytes_eq};
ghost use Rattle.script.specs.Schema.{index_by_name};

use std::alloc::{AllocError, Global};

/// The number of the index of this name.
pub fn find_name(names: &[String], name: &[u8]) -> Option<usize>
    ensures { result ≡ index_by_name (map string_bytes names.now) name.now }
{
    place_of(names, name)
}

fn place_of(names: &[String], name: &[u8]) -> Option<usize>
    ensures { result ≡ position (λ known. bytes_eq (string_bytes known) name.now) names.now }
{
    names.iter().position(|known| known.as_bytes() == name)
}

/// A name's bytes as text.
pub fn name_text(alloc: Global, name: &[u8]) -> Result<String, AllocError>
    requires { All (λ b. b < 128) name.now }
    ensures { IfOk result (λ s. string_bytes s ≡ name.now) }
{
    let mut text = String::new(alloc);
    for byte in name {
        text.push(char::from(*byte))?;
    }
    Ok(text)
}
