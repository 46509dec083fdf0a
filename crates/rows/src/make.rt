use crate::directory::{append, move_tree, put, put_lines, read, remove, rest, settle, size, word};
use crate::trouble::Trouble;
use crate::verbs::{Verb, verb_of};
use crate::world::World;
use crate::writing::{number, text};
use crate::{children, edges, folders, jobs, looks, programs, runs, shuffles, stored};
use std::alloc::Global;

/// A step that makes a world what it is.
fn prepare(alloc: Global, world: &mut World, verb: Verb, args: &[Vec<u8>]) -> Result<(), Trouble> {
    match verb {
        Verb::File => put(alloc, world, args),
        Verb::Lines => put_lines(alloc, world, args),
        Verb::Output => folders::put_output(alloc, world, args),
        Verb::Part => folders::put_part(alloc, world, args),
        Verb::Ends => children::ends(alloc, world, args),
        Verb::Refuse => children::refuse(alloc, world, args),
        Verb::Hold => children::hold(alloc, world, args),
        Verb::Order => children::order(world, args),
        Verb::Mute => children::mute(alloc, world, args),
        Verb::Edges => edges::set(alloc, world, args),
        Verb::EdgesOf => edges::set_of(alloc, world, args),
        Verb::Blind => edges::blind(alloc, world, args),
        Verb::Begin => world.begin(alloc),
        _ => Err(Trouble::Misread),
    }
}

fn prepared(
    alloc: Global,
    world: &mut World,
    verb: Verb,
    args: &[Vec<u8>],
) -> Result<Vec<u8>, Trouble> {
    prepare(alloc, world, verb, args)?;
    text(alloc, b"ok")
}

/// A call of the directory or of the committer, with its answer.
fn act_on_files(
    alloc: Global,
    world: &mut World,
    verb: Verb,
    args: &[Vec<u8>],
) -> Result<Vec<u8>, Trouble> {
    match verb {
        Verb::Append => append(alloc, world, args),
        Verb::Settle => settle(alloc, world, args),
        Verb::Remove => remove(alloc, world, args),
        Verb::Move => move_tree(alloc, world, args),
        Verb::Size => size(alloc, world, args),
        Verb::Read => read(alloc, world, args),
        Verb::Whole => folders::whole(alloc, world, args),
        Verb::Drop => folders::drop_it(alloc, world, args),
        Verb::Open => folders::open(alloc, world, args),
        Verb::Seal => folders::seal(alloc, world, args),
        Verb::Task => folders::task(alloc, world, args),
        Verb::Commit => folders::commit(alloc, world, args),
        _ => prepared(alloc, world, verb, args),
    }
}

/// A call of the store, with its answer.
fn act_on_store(
    alloc: Global,
    world: &mut World,
    verb: Verb,
    args: &[Vec<u8>],
) -> Result<Vec<u8>, Trouble> {
    match verb {
        Verb::Compare => stored::compare(alloc, world, args),
        Verb::Text => stored::write(alloc, world, args),
        Verb::Nodes => stored::nodes(alloc, world, args),
        Verb::Missing => stored::missing(alloc, world, args),
        Verb::Check => stored::check(alloc, world, args),
        Verb::Ingest => stored::ingest(alloc, world, args),
        Verb::Changes => stored::changes(alloc, world, args),
        Verb::Total => stored::sum(alloc, world, args),
        _ => act_on_files(alloc, world, verb, args),
    }
}

/// A call of any kind, with its answer.
fn act(alloc: Global, world: &mut World, verb: Verb, args: &[Vec<u8>]) -> Result<Vec<u8>, Trouble> {
    match verb {
        Verb::Start => children::start(alloc, world, args),
        Verb::Reap => children::reap(alloc, world),
        Verb::Say => children::say(alloc, world, args),
        Verb::Split => shuffles::split(alloc, world, args),
        Verb::Cut => shuffles::cut(alloc, world, args),
        Verb::Spill => shuffles::spill_lines(alloc, world, args),
        Verb::Merge => shuffles::merge(alloc, world, args),
        Verb::Shuffle => shuffles::shuffle_outputs(alloc, world, args),
        Verb::Job => jobs::run(alloc, world, args),
        Verb::Run => runs::run(alloc, world, args),
        Verb::Plain => runs::plain(alloc, world, args),
        Verb::Child => programs::child(alloc, args),
        _ => act_on_store(alloc, world, verb, args),
    }
}

/// What is seen of a world, without a call; and else the answer of a call.
fn look_or_act(
    alloc: Global,
    world: &mut World,
    verb: Verb,
    args: &[Vec<u8>],
) -> Result<Vec<u8>, Trouble> {
    match verb {
        Verb::Has => looks::has(alloc, world, args),
        Verb::HasLines => looks::has_lines(alloc, world, args),
        Verb::Files => looks::files(alloc, world),
        Verb::Parts => looks::parts(alloc, world, args),
        Verb::Ever => looks::ever(alloc, world, args),
        Verb::Images => looks::images(alloc, world, args),
        Verb::Calls => number(alloc, world.calls_since_start()),
        Verb::Later => looks::later(alloc, world),
        Verb::Running => number(alloc, world.running()),
        Verb::Log => children::log(alloc, world, args),
        Verb::Said => children::said(alloc, world),
        Verb::Heard => children::heard(alloc, world),
        Verb::Resumed => runs::resumed(alloc, world),
        _ => act(alloc, world, verb, args),
    }
}

/// Makes the step of the words in a world, and gives its answer as text.
pub(crate) fn make(
    alloc: Global,
    world: &mut World,
    words: &[Vec<u8>],
) -> Result<Vec<u8>, Trouble> {
    let args = rest(words, 1);
    match verb_of(word(words, 0), args.len()) {
        Some(verb) => look_or_act(alloc, world, verb, args),
        None => Err(Trouble::Misread),
    }
}
