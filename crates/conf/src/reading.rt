ghost use Rattle.std.specs.Prelude.{◌≡◌, ◌≤◌, ℕ, map, IfErr, IfNone, IfOk, IfSome, IsOk, Err};
ghost use Rattle.std.specs.String.{string_bytes};
ghost use Rattle.conf.specs.Meaning.{Mean, choice_of, conf_of, generated_of, number_of};
ghost use Rattle.conf.specs.Rules.{AreAccepted, IsLeastRefused, form_of};
ghost use Rattle.conf.specs.Settings.{most_of};

use crate::commands::{Command, Form};
use crate::options::value_of;
use crate::rules::{command_of, form_of, lacks_word, refuses_word};
use crate::settings::{Number, Setting, read_choice, read_generator};

/// What the words of the command line say, with the default where they don't say it.
#[derive(Clone, Copy, Debug, PartialEq, Eq)]
pub struct Conf {
    /// What is computed.
    pub command: Command,
    /// How many nodes there are, 1 to 2^30. Ids are below it.
    pub nodes: u32,
    /// How many parts a job writes, 1 to 64.
    pub reducers: u32,
    /// The bytes of a split of a job's input, 1 to 2^40.
    pub split: u64,
    /// How many children run at once, 1 to 16.
    pub slots: u32,
    /// The bytes of pairs that a job holds before it writes a run, 1,024 to 2^30.
    pub spill: u64,
    /// Whether two attempts of a task run at once where a slot would stay free.
    pub backup: bool,
    /// How the jobs lay out the matrix and the vector.
    pub form: Form,
    /// The nodes of a block, 1 to 256.
    pub block: u32,
    /// How many iterations PageRank makes, 1 to 9,999.
    pub iters: u32,
    /// How many iterations HADI makes at most, 1 to 256.
    pub hops: u32,
    /// What HADI's bits are drawn from.
    pub seed: u64,
    /// Whether HADI takes each edge in both directions.
    pub sym: bool,
    /// The number of edges and the seed, where edges are generated in place of read.
    pub generated: Option<(u64, u64)>,
}

/// The least number of a word that is refused, from 0.
#[derive(Clone, Copy, Debug, PartialEq, Eq)]
pub struct Usage {
    pub word: u32,
}

/// The least number that is refused.
fn first_refused(words: &[String]) -> Option<u32>
    ensures some { IfSome result (λ word. IsLeastRefused (map string_bytes words.now) word) }
    ensures none { IfNone result (AreAccepted (map string_bytes words.now)) }
{
    for at in 0..words.len() {
        if refuses_word(words, at) {
            return Some(at as u32);
        }
    }
    if lacks_word(words) {
        return Some(words.len() as u32);
    }
    None
}

/// The number that the words give an option, and its default where none of them gives it one.
fn number_of(words: &[String], number: Number) -> u64
    ensures value { result ≡ number_of (map string_bytes words.now) number }
    ensures most { result ≤ most_of number }
{
    let given = match value_of(words, Setting::Numeric(number)) {
        Some(text) => number.read(text),
        None => None,
    };
    given.unwrap_or(number.default_value())
}

/// Whether the words say `yes` to an option whose value is `yes` or `no`.
fn choice_of(words: &[String], setting: Setting) -> bool
    ensures { result ≡ choice_of (map string_bytes words.now) setting }
{
    match value_of(words, setting) {
        Some(text) => read_choice(text).unwrap_or(false),
        None => false,
    }
}

/// The number of edges and the seed that the words give.
fn generated_of(words: &[String]) -> Option<(u64, u64)>
    ensures { result ≡ generated_of (map string_bytes words.now) }
{
    match value_of(words, Setting::Gen) {
        Some(text) => read_generator(text),
        None => None,
    }
}

/// What the words say to a command.
fn conf_of(words: &[String], command: Command) -> Conf
    ensures { result ≡ conf_of (map string_bytes words.now) command }
{
    Conf {
        command,
        nodes: number_of(words, Number::Nodes) as u32,
        reducers: number_of(words, Number::Reducers) as u32,
        split: number_of(words, Number::Split),
        slots: number_of(words, Number::Slots) as u32,
        spill: number_of(words, Number::Spill),
        backup: choice_of(words, Setting::Backup),
        form: form_of(words, command).unwrap_or(Form::Base),
        block: number_of(words, Number::BlockLength) as u32,
        iters: number_of(words, Number::Iters) as u32,
        hops: number_of(words, Number::Hops) as u32,
        seed: number_of(words, Number::Seed),
        sym: choice_of(words, Setting::Sym),
        generated: generated_of(words),
    }
}

/// What the words of the command line say: `WORK EDGES COMMAND` and options `NAME=VALUE`, in any order, each at most
/// once. Words are numbered from 0.
///
/// It takes no memory. A word is refused where it is empty at 0 or 1, no command at 2, or later no option of that
/// command, a repeat, or a value out of range; and, if neither word is refused so, where two words don't go together:
/// `block` with the base form, too many nodes for `plain` or the clustered form, `gen` with an edge file, and `-` for
/// the edge file without `gen`. A missing word is refused at the number of words.
pub fn read_words(words: &[String]) -> Result<Conf, Usage>
    ensures accepted { IfOk result (λ conf. Mean (map string_bytes words.now) conf) }
    ensures refused { IfErr result (λ usage. IsLeastRefused (map string_bytes words.now) usage.word) }
    ensures complete { AreAccepted (map string_bytes words.now) → IsOk result }
    ensures least { (word : ℕ) → IsLeastRefused (map string_bytes words.now) word
        → result ≡ Err (record { word = word }) }
{
    if let Some(word) = first_refused(words) {
        return Err(Usage { word });
    }
    match command_of(words) {
        Some(command) => Ok(conf_of(words, command)),
        None => unreachable!(),
    }
}
