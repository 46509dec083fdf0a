ghost use Rattle.std.specs.Prelude.{◌≡◌, [], ◌∷◌, ◌++◌, IfOk, OnOk};
ghost use Rattle.mining.specs.Places.{folder_of};
ghost use Rattle.mining.specs.Table.{edges_for, inputs_of, matrix_for, numbers_for, part_count, part_paths, paths_read};

use crate::place::Place;
use committer::part_path;
use conf::{Conf, Form};
use peg_base::Path;
use peg_text::NoMemory;
use std::alloc::Global;

/// Appends the paths of a folder's parts.
fn push_parts(
    alloc: Global,
    paths: &mut Vec<Path>,
    place: Place,
    count: u32,
) -> Result<(), NoMemory>
    ensures { OnOk result (paths.new.items ≡ paths.old.items ++ part_paths place count) }
{
    let folder = place.path(alloc)?;
    for part in 0..count {
        paths.push(part_path(alloc, &folder, part)?)?;
    }
    Ok(())
}

/// What a form takes its matrix from.
fn edges_for(form: Form) -> Place
    ensures { result ≡ edges_for form }
{
    match form {
        Form::Clustered => Place::Placed,
        _ => Place::Edges,
    }
}

/// What a form multiplies by.
fn matrix_for(form: Form) -> Place
    ensures { result ≡ matrix_for form }
{
    match form {
        Form::Base => Place::Matrix,
        _ => Place::Blocks,
    }
}

/// What a form reads its result from.
fn numbers_for(form: Form, last: u32) -> Place
    ensures { result ≡ numbers_for form last }
{
    match form {
        Form::Clustered => Place::Joined,
        _ => Place::Vector(last),
    }
}

/// One folder.
fn one(alloc: Global, place: Place) -> Result<Vec<Place>, NoMemory>
    ensures { IfOk result (λ places. places.items ≡ place ∷ []) }
{
    let mut places = Vec::new(alloc);
    places.push(place)?;
    Ok(places)
}

/// Two folders.
fn two(alloc: Global, first: Place, second: Place) -> Result<Vec<Place>, NoMemory>
    ensures { IfOk result (λ places. places.items ≡ first ∷ second ∷ []) }
{
    let mut places = one(alloc, first)?;
    places.push(second)?;
    Ok(places)
}

/// The folders that a job reads, in order, where this is the last iteration.
fn input_places(alloc: Global, form: Form, last: u32, place: Place) -> Result<Vec<Place>, NoMemory>
    ensures { IfOk result (λ places. places.items ≡ inputs_of form last place) }
{
    match place {
        Place::Matrix => one(alloc, edges_for(form)),
        Place::Blocks => one(alloc, Place::Matrix),
        Place::Messages(k) if k > 0 => two(alloc, matrix_for(form), Place::Vector(k - 1)),
        Place::Vector(0) => one(alloc, Place::Nodes),
        Place::Vector(k) => one(alloc, Place::Messages(k)),
        Place::Joined => two(alloc, Place::Nodes, Place::Vector(last)),
        Place::Results => one(alloc, numbers_for(form, last)),
        _ => Ok(Vec::new(alloc)),
    }
}

/// How many parts a folder has.
fn part_count(conf: &Conf, place: Place) -> u32
    ensures { result ≡ part_count conf.now place }
{
    match place {
        Place::Conf | Place::Edges | Place::Nodes | Place::Placed => 1,
        _ => conf.reducers,
    }
}

/// The files that a job reads, in order.
#[tactic(auto, unfolding(crate::specs::Table::paths_read))]
pub fn input_paths(
    alloc: Global,
    conf: &Conf,
    last: u32,
    place: Place,
) -> Result<Vec<Path>, NoMemory>
    ensures { IfOk result (λ paths. paths.items ≡ paths_read conf.now last place) }
{
    let mut paths = Vec::new(alloc);
    let places = input_places(alloc, conf.form, last, place)?;
    for input in &places {
        push_parts(alloc, &mut paths, *input, part_count(conf, *input))?;
    }
    Ok(paths)
}
