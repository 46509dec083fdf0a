//! `pegbench COMMAND ..`: one part of a job or of a run by itself, over files of a folder, to be timed and to be tried on
//! the machine.
//! No promise stands on it.
#![tactic(auto)]

ghost use Rattle.std.specs.Prelude.{◌≡◌, ◌≤◌, [], length, IfOk};

use committer::part_path;
use dir_disk::{Dir, DirFault, Site, Source};
use host_real::{HeldStreams, HostSite, Progress, StdSource, program_words};
use job::{JobFault, JobSpec, ShuffleFault, run_job, shuffle};
use peg_base::{Name, Path, Words};
use peg_text::{NoMemory, read_decimal};
use splits::{Split, SplitFault, lines_of_split, split_table};
use std::alloc::Global;
use std::process::ExitCode;
use store::{IngestFault, ReadingFault, check_edges, count_changes, write_edges};

const HELP: &str = "\
pegbench: one part of a job or of a run by itself, over files of a folder

usage: pegbench split WORK FILE LENGTH     the lines of each split of WORK/FILE as WORK/split-N
       pegbench shuffle WORK FILE LIMIT    the pairs of WORK/FILE as WORK/job/_temporary/r-000000.in, by runs of LIMIT bytes
       pegbench job WORK FILE LIMIT CHILD LENGTH
                                           the job WORK/job over WORK/FILE, `CHILD id` being its mapper and its reducer
       pegbench write WORK FOLDER NODES    the edges of standard input, with ids below NODES, as the folder WORK/FOLDER
       pegbench check WORK FOLDER NODES    the same edges, compared with those of that folder
       pegbench changes WORK FOLDER PARTS  how many nodes changed, by so many parts of the vector WORK/FOLDER
       pegbench calls WORK CALL ..         calls of the directory over WORK, one after another, and a line on each answer:
                                           size:PATH read:PATH append:PATH:TEXT move:PATH:PATH remove:PATH settle:PATH
";

/// Why a part was not carried out.
#[derive(Clone, Copy)]
enum BenchFault {
    Usage,
    /// Four attempts of a task failed.
    Task,
    /// What was read isn't as it has to be.
    Data,
    Disk,
    NoMemory,
}

impl From<NoMemory> for BenchFault {
    fn from(_: NoMemory) -> Self {
        BenchFault::NoMemory
    }
}

impl From<DirFault> for BenchFault {
    fn from(fault: DirFault) -> Self {
        match fault {
            DirFault::Failed => BenchFault::Disk,
            DirFault::NoMemory => BenchFault::NoMemory,
        }
    }
}

impl From<SplitFault> for BenchFault {
    fn from(fault: SplitFault) -> Self {
        match fault {
            SplitFault::Disk => BenchFault::Disk,
            SplitFault::NoMemory => BenchFault::NoMemory,
        }
    }
}

impl From<ShuffleFault> for BenchFault {
    fn from(fault: ShuffleFault) -> Self {
        match fault {
            ShuffleFault::Disk => BenchFault::Disk,
            ShuffleFault::NoMemory => BenchFault::NoMemory,
        }
    }
}

impl From<JobFault> for BenchFault {
    fn from(fault: JobFault) -> Self {
        match fault {
            JobFault::TaskFailed { .. } => BenchFault::Task,
            JobFault::Disk => BenchFault::Disk,
            JobFault::NoMemory => BenchFault::NoMemory,
        }
    }
}

impl From<IngestFault> for BenchFault {
    fn from(fault: IngestFault) -> Self {
        match fault {
            IngestFault::Disk | IngestFault::Read => BenchFault::Disk,
            IngestFault::NoMemory => BenchFault::NoMemory,
            _ => BenchFault::Data,
        }
    }
}

impl From<ReadingFault> for BenchFault {
    fn from(fault: ReadingFault) -> Self {
        match fault {
            ReadingFault::BadStore { .. } => BenchFault::Data,
            ReadingFault::Disk => BenchFault::Disk,
            ReadingFault::NoMemory => BenchFault::NoMemory,
        }
    }
}

/// The path of one name.
fn path_of(alloc: Global, text: &[u8]) -> Result<Path, BenchFault>
    ensures { IfOk result (λ path. length path ≡ 1) }
{
    let Some(name) = Name::new(alloc, text)? else {
        return Err(BenchFault::Usage);
    };
    Ok(Path::root(alloc).child(alloc, &name)?)
}

/// Writes the lines of a split.
fn write_split<D: Dir>(
    alloc: Global,
    dir: &mut D,
    file: &Path,
    split: &Split,
    number: usize,
) -> Result<(), BenchFault>
    requires lent { D.lent dir.old ≡ [] }
    requires untold { D.tells → ⊥ }
    ensures lent { D.lent dir.new ≡ [] }
{
    let name = format!(in alloc; "split-{number}").map_err(|_| BenchFault::NoMemory)?;
    let out = path_of(alloc, name.as_bytes())?;
    lines_of_split(alloc, dir, file, split, &out)?;
    Ok(())
}

/// Writes the lines of each split of a file, where splits of this length are asked for.
fn split_file<D: Dir>(
    alloc: Global,
    dir: &mut D,
    file: &[u8],
    length: u64,
) -> Result<(), BenchFault>
    requires lent { D.lent dir.old ≡ [] }
    requires untold { D.tells → ⊥ }
{
    let file = path_of(alloc, file)?;
    let Some(len) = dir.size(alloc, &file)? else {
        return Err(BenchFault::Usage);
    };
    if length == 0 || length > 1 << 60 {
        return Err(BenchFault::Usage);
    }
    let splits = split_table(alloc, len, length)?;
    for (number, split) in splits.iter().enumerate() {
        write_split(alloc, dir, &file, split, number)?;
    }
    Ok(())
}

/// Makes the input of a job's one reduce task out of a file.
fn shuffle_file<D: Dir>(
    alloc: Global,
    dir: &mut D,
    file: &[u8],
    limit: u64,
) -> Result<(), BenchFault>
    requires lent { D.lent dir.old ≡ [] }
    requires untold { D.tells → ⊥ }
{
    let outputs = vec![in alloc; path_of(alloc, file)?].map_err(|_| BenchFault::NoMemory)?;
    let folder = path_of(alloc, b"job")?;
    shuffle(alloc, dir, &folder, &outputs, 1, limit)?;
    Ok(())
}

/// Runs a whole job of one part over a file, in splits of this length.
fn run_on_file<S: Site>(
    alloc: Global,
    site: &mut S,
    file: &[u8],
    limit: u64,
    length: u64,
) -> Result<(), BenchFault>
    requires none_running { (S.seen site.old).running ≡ [] }
    requires untold { S.tells → ⊥ }
{
    let mut map = Words::new(alloc);
    map.push(alloc, "pegchild")?;
    map.push(alloc, "id")?;
    if map.is_empty() || length == 0 || length > 1 << 60 {
        return Err(BenchFault::Usage);
    }
    let reduce = map.copy(alloc)?;
    let inputs = vec![in alloc; path_of(alloc, file)?].map_err(|_| BenchFault::NoMemory)?;
    let spec = JobSpec {
        folder: path_of(alloc, b"job")?,
        inputs,
        map,
        reduce,
        reducers: 1,
        split: length,
        slots: 4,
        spill: limit,
    };
    run_job(alloc, site, &spec)?;
    Ok(())
}

/// Makes a folder whole of the edges of a source.
fn write_input<E: Source, D: Dir>(
    alloc: Global,
    source: &mut E,
    dir: &mut D,
    folder: &[u8],
    nodes: u32,
) -> Result<(), BenchFault>
    requires lent { D.lent dir.old ≡ [] }
    requires untold { D.tells → ⊥ }
{
    let folder = path_of(alloc, folder)?;
    write_edges(alloc, nodes, source, dir, &folder)?;
    Ok(())
}

/// Compares the edges of a source with those of a folder.
fn check_input<E: Source, D: Dir>(
    alloc: Global,
    source: &mut E,
    dir: &mut D,
    folder: &[u8],
    nodes: u32,
) -> Result<(), BenchFault>
    requires lent { D.lent dir.old ≡ [] }
    requires untold { D.tells → ⊥ }
{
    let folder = path_of(alloc, folder)?;
    let part = part_path(alloc, &folder, 0)?;
    check_edges(alloc, nodes, source, dir, &part)?;
    Ok(())
}

/// Says how many nodes changed, by the first parts of a vector's folder.
fn say_changes<D: Dir>(
    rt: &HostRuntime,
    alloc: Global,
    dir: &mut D,
    folder: &[u8],
    parts: u32,
) -> Result<(), BenchFault>
    requires lent { D.lent dir.old ≡ [] }
    requires untold { D.tells → ⊥ }
{
    let folder = path_of(alloc, folder)?;
    let changes = count_changes(alloc, dir, &folder, parts)?;
    let count = size_line(alloc, Some(changes.count))?;
    say(rt, b"", &count)
}

/// The path that a text spells, with a slash between any two names.
fn path_at(alloc: Global, text: &str) -> Result<Path, BenchFault> {
    let mut path = Path::root(alloc);
    for name in text.split('/') {
        match Name::new(alloc, name.as_bytes())? {
            Some(name) if path.names().len() < 8 => path = path.child(alloc, &name)?,
            _ => {}
        }
    }
    Ok(path)
}

/// Carries out a call that is given by its name, its path and what follows: what it answers.
fn answer_of<D: Dir>(
    alloc: Global,
    dir: &mut D,
    call: &str,
    path: &Path,
    more: &str,
    other: &Path,
) -> Result<Vec<u8>, DirFault>
    requires lent { D.lent dir.old ≡ [] }
    requires untold { D.tells → ⊥ }
    ensures lent { D.lent dir.new ≡ [] }
{
    match call {
        "size" => return size_line(alloc, dir.size(alloc, path)?),
        "read" => return dir.read(alloc, path, 0, 4_096),
        "append" => dir.append(alloc, path, more.as_bytes())?,
        "move" => dir.move_tree(alloc, path, other)?,
        "remove" => dir.remove_tree(alloc, path)?,
        _ => dir.settle(alloc, path)?,
    }
    Ok(Vec::new(alloc))
}

/// What is said of a size.
fn size_line(alloc: Global, size: Option<u64>) -> Result<Vec<u8>, DirFault> {
    let Some(size) = size else {
        return Ok(Vec::new(alloc));
    };
    match format!(in alloc; "{size}") {
        Ok(text) => Ok(text.into_bytes()),
        Err(_) => Err(DirFault::NoMemory),
    }
}

/// Carries out a call that a word spells, and says what it answers.
fn call<D: Dir>(rt: &HostRuntime, alloc: Global, dir: &mut D, word: &str) -> Result<(), BenchFault>
    requires lent { D.lent dir.old ≡ [] }
    requires untold { D.tells → ⊥ }
    ensures lent { D.lent dir.new ≡ [] }
{
    let (name, rest) = word.split_once(':').unwrap_or((word, ""));
    let (path, more) = rest.split_once(':').unwrap_or((rest, ""));
    let (path, other) = (path_at(alloc, path)?, path_at(alloc, more)?);
    let said = match answer_of(alloc, dir, name, &path, more, &other) {
        Ok(bytes) => say(rt, b"done ", &bytes),
        Err(DirFault::Failed) => say(rt, b"failed", b""),
        Err(DirFault::NoMemory) => say(rt, b"no memory", b""),
    };
    said
}

/// Writes a line.
fn say(rt: &HostRuntime, front: &[u8], bytes: &[u8]) -> Result<(), BenchFault> {
    for text in [front, bytes, b"\n"] {
        if rt.stdout().write_all(text).is_err() {
            return Err(BenchFault::Disk);
        }
    }
    Ok(())
}

/// Carries out calls one after another.
fn calls<D: Dir>(
    rt: &HostRuntime,
    alloc: Global,
    dir: &mut D,
    words: &[String],
) -> Result<(), BenchFault>
    requires lent { D.lent dir.old ≡ [] }
    requires untold { D.tells → ⊥ }
{
    for word in words {
        call(rt, alloc, dir, word.as_str())?;
    }
    Ok(())
}

/// The number that a word says.
fn number_of(word: &str) -> Result<u64, BenchFault> {
    read_decimal(word.as_bytes()).ok_or(BenchFault::Usage)
}

/// Carries out a part over edges or values.
fn run_on_store<D: Dir>(
    rt: &HostRuntime,
    alloc: Global,
    dir: &mut D,
    part: &str,
    folder: &[u8],
    number: u64,
) -> Result<(), BenchFault>
    requires lent { D.lent dir.old ≡ [] }
    requires untold { D.tells → ⊥ }
{
    let Ok(number) = u32::try_from(number) else {
        return Err(BenchFault::Usage);
    };
    let mut input = StdSource::new(rt);
    match part {
        "write" => write_input(alloc, &mut input, dir, folder, number),
        "check" => check_input(alloc, &mut input, dir, folder, number),
        "changes" => say_changes(rt, alloc, dir, folder, number),
        _ => Err(BenchFault::Usage),
    }
}

/// Carries out a part that starts no children.
fn run_alone(
    rt: &HostRuntime,
    alloc: Global,
    part: &str,
    work: &str,
    file: &[u8],
    number: u64,
) -> Result<(), BenchFault> {
    let mut site = HostSite::new(rt, alloc, work, "pegchild", Progress::Hidden)?;
    match part {
        "split" => split_file(alloc, &mut site, file, number),
        "shuffle" => shuffle_file(alloc, &mut site, file, number),
        _ => run_on_store(rt, alloc, &mut site, part, file, number),
    }
}

/// Carries out the part that the words name.
fn run(rt: &HostRuntime, alloc: Global, words: &[String]) -> Result<(), BenchFault> {
    match words {
        [part, work, words @ ..] if part.as_str() == "calls" => {
            let mut site = HostSite::new(rt, alloc, work.as_str(), "", Progress::Hidden)?;
            calls(rt, alloc, &mut site, words)
        }
        [part, work, file, number] => {
            let number = number_of(number.as_str())?;
            run_alone(
                rt,
                alloc,
                part.as_str(),
                work.as_str(),
                file.as_bytes(),
                number,
            )
        }
        [part, work, file, limit, child, length] if part.as_str() == "job" => {
            let mut site = HostSite::new(
                rt,
                alloc,
                work.as_str(),
                child.as_str(),
                Progress::Hidden,
            )?;
            let limit = number_of(limit.as_str())?;
            let length = number_of(length.as_str())?;
            run_on_file(alloc, &mut site, file.as_bytes(), limit, length)
        }
        _ => Err(BenchFault::Usage),
    }
}

fn main(rt: HostRuntime) -> ExitCode {
    let alloc = rt.alloc();
    let _held = HeldStreams::new(&rt);
    let Ok(words) = program_words(&rt, alloc) else {
        return ExitCode::from(70);
    };
    match run(&rt, alloc, &words.texts) {
        Ok(()) => ExitCode::SUCCESS,
        Err(BenchFault::Usage) => {
            let _ = rt.stderr().write_all(HELP.as_bytes());
            ExitCode::from(2)
        }
        Err(BenchFault::Task) => ExitCode::from(5),
        Err(BenchFault::Data) => ExitCode::from(65),
        Err(BenchFault::Disk) => ExitCode::from(74),
        Err(BenchFault::NoMemory) => ExitCode::from(70),
    }
}
