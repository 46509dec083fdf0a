ghost use Rattle.std.specs.Prelude.{◌≡◌, ◌≢◌, IfOk};
ghost use Rattle.report.specs.Lines.{done_text, iteration_text, resumed_text, total_name};

use conf::{Command, Conf};
use itoa::Buffer;
use peg_text::{NoMemory, write_decimal};
use std::alloc::Global;

/// The line that tells how many nodes changed in iteration `k`.
pub fn iteration_line(alloc: Global, k: u32, changed: u64) -> Result<Vec<u8>, NoMemory>
    ensures { IfOk result (λ line. line.items ≡ iteration_text k changed) }
{
    let mut line = Vec::from_slice(alloc, b"iteration ")?;
    write_decimal(alloc, &mut line, u64::from(k))?;
    line.extend_from_slice(b" changed ")?;
    write_decimal(alloc, &mut line, changed)?;
    line.push(b'\n')?;
    Ok(line)
}

/// The line that tells that a run goes on after iteration `k`.
pub fn resumed_line(alloc: Global, k: u32) -> Result<Vec<u8>, NoMemory>
    ensures { IfOk result (λ line. line.items ≡ resumed_text k) }
{
    let mut line = Vec::from_slice(alloc, b"resumed after iteration ")?;
    write_decimal(alloc, &mut line, u64::from(k))?;
    line.push(b'\n')?;
    Ok(line)
}

/// What the total of a command is, between blanks.
fn total_name(command: Command, settled: bool) -> &'static [u8]
    ensures { result.now ≡ total_name command settled }
{
    match command {
        Command::Plain => b"",
        Command::Hcc => b" components ",
        Command::Hadi => {
            if settled {
                b" settled radius "
            } else {
                b" capped radius "
            }
        }
        Command::PageRank => b" units ",
    }
}

/// The line that tells that a run has ended after iteration `last`.
///
/// `total` is the number of components for HCC, the greatest radius for HADI, and the sum of the units for PageRank.
/// `settled` says whether no node changed in the last iteration; HADI's line tells it. `plain` has no such line.
pub fn done_line(
    alloc: Global,
    conf: &Conf,
    last: u32,
    settled: bool,
    total: u128,
) -> Result<Vec<u8>, NoMemory>
    requires { conf.now.command ≢ Command.Plain }
    ensures { IfOk result (λ line. line.items ≡ done_text conf.now last settled total) }
{
    let mut line = Vec::from_slice(alloc, b"done ")?;
    line.extend_from_slice(conf.command.name())?;
    line.extend_from_slice(b" iterations ")?;
    write_decimal(alloc, &mut line, u64::from(last))?;
    line.extend_from_slice(total_name(conf.command, settled))?;
    line.extend_from_slice(Buffer::new().format(total).as_bytes())?;
    line.push(b'\n')?;
    Ok(line)
}
