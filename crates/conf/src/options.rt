ghost use Rattle.std.specs.Prelude.{◌≡◌, map, option_map};
ghost use Rattle.std.specs.String.{string_bytes};
ghost use Rattle.conf.specs.Options.{is_first, place_of, value_in, value_of};

use crate::settings::Setting;
use words::bytes_at;

/// The number of the first word that can be an option.
pub const FIRST_OPTION: usize = 3;

/// The value in a word of this option.
pub fn value_in(setting: Setting, word: &[u8]) -> Option<&[u8]>
    ensures { option_map (λ text. text.now) result ≡ value_in setting word.now }
{
    word.strip_prefix(setting.prefix())
}

/// The number of the first word of an option.
pub fn place_of(words: &[String], setting: Setting) -> Option<usize>
    ensures { result ≡ place_of (map string_bytes words.now) setting }
{
    for at in FIRST_OPTION..words.len() {
        if value_in(setting, bytes_at(words, at)).is_some() {
            return Some(at);
        }
    }
    None
}

/// The value that the first word of an option gives.
pub fn value_of(words: &[String], setting: Setting) -> Option<&[u8]>
    ensures { option_map (λ text. text.now) result ≡ value_of (map string_bytes words.now) setting }
{
    let at = place_of(words, setting)?;
    value_in(setting, bytes_at(words, at))
}

/// Whether the word of this number is the first one of the option.
pub fn is_first(words: &[String], setting: Setting, at: usize) -> bool
    ensures { result ≡ is_first (map string_bytes words.now) setting at }
{
    place_of(words, setting) == Some(at)
}
