ghost use Rattle.std.specs.Prelude.{◌≡◌, IfOk, map};
ghost use Rattle.std.specs.String.{string_bytes};
ghost use Rattle.child.specs.Words.{rule_of};
ghost use Rattle.flow.specs.Children.{given_by};

use child::{ChildStatus, run_child};
use dir_disk::{MemSink, MemSource};
use peg_base::Words;
use peg_text::NoMemory;
use site_mem::Roles;
use std::alloc::Global;

/// The words as strings.
fn strings_of(alloc: Global, words: &Words) -> Result<Vec<String>, NoMemory>
    ensures { IfOk result (λ strings. map string_bytes strings.items ≡ words.now) }
{
    let mut strings = Vec::new(alloc);
    for at in 0..words.len() {
        let Some(word) = words.get(at) else {
            return Err(NoMemory);
        };
        strings.push(String::from_str(alloc, word)?)?;
    }
    Ok(strings)
}

/// What the role that the words name writes for the input.
fn answer_of(alloc: Global, words: &[String], input: &[u8]) -> Result<Vec<u8>, NoMemory>
    ensures { IfOk result (λ answer. answer.items ≡ given_by (rule_of (map string_bytes words.now)) input.now) }
{
    let input = Vec::from_slice(alloc, input)?;
    let mut source = MemSource::new(input, 65_536, Vec::new(alloc));
    let mut sink = MemSink::new(alloc, Vec::new(alloc));
    match run_child(alloc, words, &mut source, &mut sink) {
        ChildStatus::Ok => Ok(Vec::from_slice(alloc, sink.written())?),
        _ => Err(NoMemory),
    }
}

/// The bundled children, run in memory: words that name `pegchild` and then a role. A child that refuses its words or its
/// records finds no memory.
#[derive(Drop)]
pub struct Bundled;

impl Roles for Bundled {
    ghost use Rattle.flow.specs.Children.{bundled};

    ghost gives = { bundled };

    fn answer(&mut self, alloc: Global, words: &Words, input: &[u8]) -> Result<Vec<u8>, NoMemory> {
        let words = strings_of(alloc, words)?;
        let Some(role) = words.get(1..) else {
            return Err(NoMemory);
        };
        answer_of(alloc, role, input)
    }
}
