ghost use Rattle.std.specs.Prelude.{◌≡◌, ◌<◌, IfSome, length};
ghost use Rattle.conf.specs.Settings.{choice_in, colon_of, default_of, generator_in, has_setting, is_value, least_of, most_of, number_for, prefix_of};

use crate::commands::{Command, Form};
use peg_text::read_decimal;
use words::number_between;

/// An option whose value is a number.
#[derive(Clone, Copy, Debug, PartialEq, Eq)]
pub enum Number {
    /// How many nodes there are.
    Nodes,
    /// How many parts a job writes.
    Reducers,
    /// The bytes of a split of a job's input.
    Split,
    /// How many children run at once.
    Slots,
    /// The bytes of pairs that a job holds before it writes a run.
    Spill,
    /// The nodes of a block.
    BlockLength,
    /// How many iterations PageRank makes.
    Iters,
    /// How many iterations HADI makes at most.
    Hops,
    /// What HADI's bits are drawn from.
    Seed,
}

/// An option of the command line: a word `NAME=VALUE`.
#[derive(Clone, Copy, Debug, PartialEq, Eq)]
pub enum Setting {
    /// A number within limits.
    Numeric(Number),
    /// Edges that are generated: `EDGES:SEED`.
    Gen,
    /// The name of a form.
    FormName,
    /// Whether HADI takes each edge in both directions: `yes` or `no`.
    Sym,
    /// Whether two attempts of a task run at once where a slot would stay free: `yes` or `no`.
    Backup,
}

/// The most edges that can be generated.
const MOST_EDGES: u64 = 100_000_000;

impl Number {
    /// The least value.
    pub fn least(self) -> u64
        ensures { result ≡ least_of self }
    {
        match self {
            Number::Spill => 1024,
            Number::Seed => 0,
            _ => 1,
        }
    }

    /// The greatest value.
    pub fn most(self) -> u64
        ensures { result ≡ most_of self }
    {
        match self {
            Number::Nodes | Number::Spill => 1 << 30,
            Number::Reducers => 64,
            Number::Split => 1 << 40,
            Number::Slots => 16,
            Number::BlockLength | Number::Hops => 256,
            Number::Iters => 9999,
            Number::Seed => u64::MAX,
        }
    }

    /// The value where no word gives one. For the nodes some word has to.
    pub fn default_value(self) -> u64
        ensures { result ≡ default_of self }
    {
        match self {
            Number::Nodes | Number::Reducers | Number::Seed => 1,
            Number::Split => 1 << 26,
            Number::Slots => 4,
            Number::Spill => 1 << 24,
            Number::BlockLength => 16,
            Number::Iters => 10,
            Number::Hops => 64,
        }
    }

    /// The value that a text writes, if it is within the limits.
    pub fn read(self, text: &[u8]) -> Option<u64>
        ensures { result ≡ number_for self text.now }
    {
        number_between(self.least(), self.most(), text)
    }
}

impl Setting {
    /// What a word of this option begins with: its name and `=`.
    pub fn prefix(self) -> &'static [u8]
        ensures { result.now ≡ prefix_of self }
    {
        match self {
            Setting::Numeric(Number::Nodes) => b"nodes=",
            Setting::Numeric(Number::Reducers) => b"reducers=",
            Setting::Numeric(Number::Split) => b"split=",
            Setting::Numeric(Number::Slots) => b"slots=",
            Setting::Numeric(Number::Spill) => b"spill=",
            Setting::Numeric(Number::BlockLength) => b"block=",
            Setting::Numeric(Number::Iters) => b"iters=",
            Setting::Numeric(Number::Hops) => b"hops=",
            Setting::Numeric(Number::Seed) => b"seed=",
            Setting::Gen => b"gen=",
            Setting::FormName => b"form=",
            Setting::Sym => b"sym=",
            Setting::Backup => b"backup=",
        }
    }

    /// Whether it is an option of this command.
    pub fn is_of(self, command: Command) -> bool
        ensures { result ≡ has_setting command self }
    {
        match self {
            Setting::Numeric(Number::Nodes) | Setting::Gen => true,
            Setting::Numeric(Number::Iters) => command == Command::PageRank,
            Setting::Numeric(Number::Hops | Number::Seed) | Setting::Sym => {
                command == Command::Hadi
            }
            _ => command.is_mining(),
        }
    }

    /// Whether a text is a value of the option where this is the command.
    pub fn accepts(self, command: Command, text: &[u8]) -> bool
        ensures { result ≡ is_value command self text.now }
    {
        match self {
            Setting::Numeric(number) => number.read(text).is_some(),
            Setting::Gen => read_generator(text).is_some(),
            Setting::FormName => Form::named(command, text).is_some(),
            Setting::Sym | Setting::Backup => read_choice(text).is_some(),
        }
    }
}

/// The place of the first colon.
fn colon_in(text: &[u8]) -> Option<usize>
    ensures place { result ≡ colon_of text.now }
    ensures inside { IfSome result (λ colon. colon < length text.now) }
{
    text.iter().position(|byte| *byte == b':')
}

/// The number of edges and the seed of a text `EDGES:SEED`.
pub fn read_generator(text: &[u8]) -> Option<(u64, u64)>
    ensures { result ≡ generator_in text.now }
{
    let colon = colon_in(text)?;
    let edges = number_between(0, MOST_EDGES, &text[..colon])?;
    let seed = read_decimal(&text[colon + 1..])?;
    Some((edges, seed))
}

/// What a text `yes` or `no` says.
pub fn read_choice(text: &[u8]) -> Option<bool>
    ensures { result ≡ choice_in text.now }
{
    if text == b"yes".as_slice() {
        return Some(true);
    }
    if text == b"no".as_slice() {
        return Some(false);
    }
    None
}
