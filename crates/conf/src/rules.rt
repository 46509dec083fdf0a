ghost use Rattle.std.specs.Prelude.{◌≡◌, map};
ghost use Rattle.std.specs.String.{string_bytes};
ghost use Rattle.conf.specs.Rules.{clashes, command_of, form_of, gives, has_gen, has_many_nodes, has_small_limit, is_bad_option, lacks_word, names_file, refuses_option, refuses_word};

use crate::commands::{Command, Form};
use crate::options::{is_first, place_of, value_in, value_of};
use crate::settings::{Number, Setting};
use words::bytes_at;

/// All options.
const SETTINGS: [Setting; 13] = [
    Setting::Numeric(Number::Nodes),
    Setting::Gen,
    Setting::Numeric(Number::Reducers),
    Setting::Numeric(Number::Split),
    Setting::Numeric(Number::Slots),
    Setting::Numeric(Number::Spill),
    Setting::FormName,
    Setting::Numeric(Number::BlockLength),
    Setting::Numeric(Number::Iters),
    Setting::Numeric(Number::Hops),
    Setting::Numeric(Number::Seed),
    Setting::Sym,
    Setting::Backup,
];

/// The most nodes of `plain`, and of the clustered form, which hold something of each node in memory: 2^27.
const MOST_NODES_AT_ONCE: u64 = 1 << 27;

/// The command, where word 2 names one.
pub fn command_of(words: &[String]) -> Option<Command>
    ensures { result ≡ command_of (map string_bytes words.now) }
{
    Command::named(bytes_at(words, 2))
}

/// Whether a word gives this option of the command, for the first time, a value that it takes.
#[tactic(auto, unfolding(crate::specs::Rules::gives))]
fn gives(words: &[String], command: Command, at: usize, setting: Setting) -> bool
    ensures { result ≡ gives (map string_bytes words.now) command at setting }
{
    if !setting.is_of(command) || !is_first(words, setting, at) {
        return false;
    }
    match value_in(setting, bytes_at(words, at)) {
        Some(text) => setting.accepts(command, text),
        None => false,
    }
}

/// Whether an option is refused for itself.
fn is_bad_option(words: &[String], command: Command, at: usize) -> bool
    ensures { result ≡ is_bad_option (map string_bytes words.now) command at }
{
    !SETTINGS
        .iter()
        .any(|setting| gives(words, command, at, *setting))
}

/// Whether a word names an edge file: it is neither empty nor `-`.
fn names_file(word: &[u8]) -> bool
    ensures { result ≡ names_file word.now }
{
    !word.is_empty() && word != b"-".as_slice()
}

/// Whether the command is there, and an option `gen`.
fn has_gen(words: &[String]) -> bool
    ensures { result ≡ has_gen (map string_bytes words.now) }
{
    command_of(words).is_some() && place_of(words, Setting::Gen).is_some()
}

/// The form that the words give the command, and `None` where they name none that it has.
pub fn form_of(words: &[String], command: Command) -> Option<Form>
    ensures { result ≡ form_of (map string_bytes words.now) command }
{
    match value_of(words, Setting::FormName) {
        Some(text) => Form::named(command, text),
        None => Some(Form::Base),
    }
}

/// Whether the command or its form has the smaller limit on the nodes.
fn has_small_limit(words: &[String], command: Command) -> bool
    ensures { result ≡ has_small_limit (map string_bytes words.now) command }
{
    !command.is_mining() || form_of(words, command) == Some(Form::Clustered)
}

/// Whether the words give more nodes than the smaller limit.
fn has_many_nodes(words: &[String]) -> bool
    ensures { result ≡ has_many_nodes (map string_bytes words.now) }
{
    match value_of(words, Setting::Numeric(Number::Nodes)) {
        Some(text) => match Number::Nodes.read(text) {
            Some(nodes) => nodes > MOST_NODES_AT_ONCE,
            None => false,
        },
        None => false,
    }
}

/// Whether an option doesn't go with another word that isn't refused for itself.
fn clashes(words: &[String], command: Command, at: usize) -> bool
    ensures { result ≡ clashes (map string_bytes words.now) command at }
{
    let is_block = is_first(words, Setting::Numeric(Number::BlockLength), at);
    let is_nodes = is_first(words, Setting::Numeric(Number::Nodes), at);
    let is_gen = is_first(words, Setting::Gen, at);
    is_block && form_of(words, command) == Some(Form::Base)
        || is_nodes && has_small_limit(words, command) && has_many_nodes(words)
        || is_gen && names_file(bytes_at(words, 1))
}

/// Whether the word of an option is refused.
fn refuses_option(words: &[String], at: usize) -> bool
    ensures { result ≡ refuses_option (map string_bytes words.now) at }
{
    match command_of(words) {
        Some(command) => is_bad_option(words, command, at) || clashes(words, command, at),
        None => true,
    }
}

/// Whether a word that is there is refused.
pub fn refuses_word(words: &[String], at: usize) -> bool
    ensures { result ≡ refuses_word (map string_bytes words.now) at }
{
    match at {
        0 => bytes_at(words, 0).is_empty(),
        1 => {
            let source = bytes_at(words, 1);
            source.is_empty() || source == b"-".as_slice() && !has_gen(words)
        }
        2 => command_of(words).is_none(),
        _ => refuses_option(words, at),
    }
}

/// Whether a word is missing: one of the first three, or the option `nodes`.
pub fn lacks_word(words: &[String]) -> bool
    ensures { result ≡ lacks_word (map string_bytes words.now) }
{
    words.len() < 3 || place_of(words, Setting::Numeric(Number::Nodes)).is_none()
}
