ghost use Rattle.std.specs.Prelude.{◌≡◌, ◌∷◌, [], ◌++◌, decimal, IfOk, OnOk};
ghost use Rattle.mining.specs.Table.{algorithm_word, first_map, first_reduce, id_role, map_role, map_words, matrix_map, matrix_reduce, messages_reduce, numbers_map, over_blocks, over_nodes, reduce_role, reduce_words, vector_reduce};

use crate::place::Place;
use conf::{Command, Conf, Form};
use peg_base::Words;
use peg_text::NoMemory;
use std::alloc::Global;

/// Appends a word.
fn push(alloc: Global, words: &mut Words, word: &str) -> Result<(), NoMemory>
    ensures { OnOk result (words.new ≡ words.old ++ word.now ∷ []) }
{
    if words.push(alloc, word)? {
        Ok(())
    } else {
        Err(NoMemory)
    }
}

/// Appends a number.
fn push_number(alloc: Global, words: &mut Words, number: u32) -> Result<(), NoMemory>
    ensures { OnOk result (words.new ≡ words.old ++ decimal number ∷ []) }
{
    let text = format!(in alloc; "{number}")?;
    push(alloc, words, text.as_str())
}

/// Appends the word of the algorithm.
fn push_algorithm(alloc: Global, words: &mut Words, conf: &Conf) -> Result<(), NoMemory>
    ensures { OnOk result (words.new ≡ words.old ++ algorithm_word conf.now conf.now.command ∷ []) }
{
    match conf.command {
        Command::Plain => push(alloc, words, ""),
        Command::Hcc => push(alloc, words, "hcc"),
        Command::PageRank => push(alloc, words, "pagerank"),
        Command::Hadi => {
            let seed = conf.seed;
            let text = format!(in alloc; "hadi={seed}")?;
            push(alloc, words, text.as_str())
        }
    }
}

/// Appends a role over all nodes.
fn push_over_nodes(
    alloc: Global,
    words: &mut Words,
    conf: &Conf,
    role: &str,
) -> Result<(), NoMemory>
    ensures { OnOk result (words.new ≡ words.old ++ over_nodes conf.now role.now) }
{
    push(alloc, words, role)?;
    push_algorithm(alloc, words, conf)?;
    push_number(alloc, words, conf.nodes)
}

/// Appends a role over blocks of nodes.
fn push_over_blocks(
    alloc: Global,
    words: &mut Words,
    conf: &Conf,
    role: &str,
) -> Result<(), NoMemory>
    ensures { OnOk result (words.new ≡ words.old ++ over_blocks conf.now role.now) }
{
    push_over_nodes(alloc, words, conf, role)?;
    push_number(alloc, words, conf.block)
}

/// Appends a role and a number.
fn push_with(alloc: Global, words: &mut Words, role: &str, number: u32) -> Result<(), NoMemory>
    ensures { OnOk result (words.new ≡ words.old ++ role.now ∷ decimal number ∷ []) }
{
    push(alloc, words, role)?;
    push_number(alloc, words, number)
}

/// Appends a role of two words.
fn push_two(alloc: Global, words: &mut Words, first: &str, second: &str) -> Result<(), NoMemory>
    ensures { OnOk result (words.new ≡ words.old ++ first.now ∷ second.now ∷ []) }
{
    push(alloc, words, first)?;
    push(alloc, words, second)
}

fn push_matrix_map(alloc: Global, words: &mut Words, conf: &Conf) -> Result<(), NoMemory>
    ensures { OnOk result (words.new ≡ words.old ++ matrix_map conf.now.command conf.now.sym) }
{
    match conf.command {
        Command::PageRank => push(alloc, words, "id"),
        Command::Hadi if !conf.sym => push_two(alloc, words, "entries", "one"),
        _ => push_two(alloc, words, "entries", "both"),
    }
}

fn push_first_map(alloc: Global, words: &mut Words, conf: &Conf) -> Result<(), NoMemory>
    ensures { OnOk result (words.new ≡ words.old ++ first_map conf.now conf.now.form) }
{
    match conf.form {
        Form::Base => push(alloc, words, "id"),
        _ => push_with(alloc, words, "group", conf.block),
    }
}

fn push_numbers_map(alloc: Global, words: &mut Words, conf: &Conf) -> Result<(), NoMemory>
    ensures { OnOk result (words.new ≡ words.old ++ numbers_map conf.now conf.now.form) }
{
    match conf.form {
        Form::Base => push_over_nodes(alloc, words, conf, "number"),
        Form::Clustered => push(alloc, words, "id"),
        _ => push_over_blocks(alloc, words, conf, "unblock"),
    }
}

fn push_map_role(
    alloc: Global,
    words: &mut Words,
    conf: &Conf,
    place: Place,
) -> Result<(), NoMemory>
    ensures { OnOk result (words.new ≡ words.old ++ map_role conf.now place) }
{
    match place {
        Place::Matrix => push_matrix_map(alloc, words, conf),
        Place::Blocks => push_with(alloc, words, "cut", conf.block),
        Place::Vector(0) => push_first_map(alloc, words, conf),
        Place::Joined => push_over_blocks(alloc, words, conf, "unplace"),
        Place::Results => push_numbers_map(alloc, words, conf),
        _ => push(alloc, words, "id"),
    }
}

fn push_messages_reduce(alloc: Global, words: &mut Words, conf: &Conf) -> Result<(), NoMemory>
    ensures { OnOk result (words.new ≡ words.old ++ messages_reduce conf.now conf.now.form) }
{
    match conf.form {
        Form::Base => push_over_nodes(alloc, words, conf, "stage1"),
        Form::Diagonal => {
            push_with(alloc, words, "diag1", conf.nodes)?;
            push_number(alloc, words, conf.block)
        }
        _ => push_over_blocks(alloc, words, conf, "block1"),
    }
}

fn push_first_reduce(alloc: Global, words: &mut Words, conf: &Conf) -> Result<(), NoMemory>
    ensures { OnOk result (words.new ≡ words.old ++ first_reduce conf.now conf.now.form) }
{
    match conf.form {
        Form::Base => push_over_nodes(alloc, words, conf, "first"),
        _ => push_over_blocks(alloc, words, conf, "firstb"),
    }
}

fn push_vector_reduce(alloc: Global, words: &mut Words, conf: &Conf) -> Result<(), NoMemory>
    ensures { OnOk result (words.new ≡ words.old ++ vector_reduce conf.now conf.now.form) }
{
    match conf.form {
        Form::Base => push_over_nodes(alloc, words, conf, "stage2"),
        _ => push_over_blocks(alloc, words, conf, "block2"),
    }
}

fn push_matrix_reduce(alloc: Global, words: &mut Words, command: Command) -> Result<(), NoMemory>
    ensures { OnOk result (words.new ≡ words.old ++ matrix_reduce command) }
{
    match command {
        Command::PageRank => push(alloc, words, "degrees"),
        _ => push(alloc, words, "id"),
    }
}

fn push_reduce_role(
    alloc: Global,
    words: &mut Words,
    conf: &Conf,
    place: Place,
) -> Result<(), NoMemory>
    ensures { OnOk result (words.new ≡ words.old ++ reduce_role conf.now place) }
{
    match place {
        Place::Matrix => push_matrix_reduce(alloc, words, conf.command),
        Place::Blocks => push(alloc, words, "blocks"),
        Place::Messages(_) => push_messages_reduce(alloc, words, conf),
        Place::Vector(0) => push_first_reduce(alloc, words, conf),
        Place::Vector(_) => push_vector_reduce(alloc, words, conf),
        Place::Joined => push(alloc, words, "place"),
        _ => push(alloc, words, "id"),
    }
}

/// The words of the children that map for a folder.
#[tactic(auto, unfolding(crate::specs::Table::map_words))]
pub fn map_words(alloc: Global, conf: &Conf, place: Place) -> Result<Words, NoMemory>
    ensures { IfOk result (λ words. words ≡ map_words conf.now place) }
{
    let mut words = Words::new(alloc);
    push(alloc, &mut words, "pegchild")?;
    push_map_role(alloc, &mut words, conf, place)?;
    Ok(words)
}

/// The words of the children that reduce for a folder.
#[tactic(auto, unfolding(crate::specs::Table::reduce_words))]
pub fn reduce_words(alloc: Global, conf: &Conf, place: Place) -> Result<Words, NoMemory>
    ensures { IfOk result (λ words. words ≡ reduce_words conf.now place) }
{
    let mut words = Words::new(alloc);
    push(alloc, &mut words, "pegchild")?;
    push_reduce_role(alloc, &mut words, conf, place)?;
    Ok(words)
}
