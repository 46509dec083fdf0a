ghost use Rattle.std.specs.Prelude.{◌≡◌, ◌+◌, ◌^◌, ◌<◌, ◌≤◌, Some, length, IfOk, MatchBool, OnOk};
ghost use Rattle.std.specs.Bool.{OnTrue};
ghost use Rattle.peg_text.specs.Records.{cut_of, records_of};
ghost use Rattle.dir_disk.specs.Calls.{CanAppend, HasFile};
ghost use Rattle.dir_disk.specs.Causes.{HasCause};
ghost use Rattle.dir_disk.specs.Keeping.{StandsBut};
ghost use Rattle.dir_disk.specs.Lent.{IsFree, IsNoOutput};
ghost use Rattle.dir_disk.specs.Moments.{Both, Through, files};
ghost use Rattle.dir_disk.specs.State.{StandsOutside, bytes_at};
ghost use Rattle.splits.specs.Copying.{HasCopied, IsCopying, IsLineEnd, begun, is_unended, lines_between};
ghost use Rattle.splits.specs.Lines.{lines_text};

use crate::fault::SplitFault;
use crate::line_count::count_lines;
use dir_disk::Dir;
use memchr::memchr;
use peg_base::Path;
use std::alloc::Global;

/// How many bytes are read at a time.
pub(crate) const PIECE: u32 = 65_536;

/// The most bytes of a file.
const MOST_BYTES: u64 = 1 << 50;

/// How far the lines of a split are copied.
#[derive(Clone, Copy)]
pub(crate) struct Progress {
    /// Where the first of them begins.
    pub from: u64,
    /// Up to where a line of the split may begin.
    pub end: u64,
    /// Where the next byte stands.
    pub place: u64,
    /// How many lines have got their LF.
    pub lines: u64,
    /// Whether the last line has not got its LF yet.
    pub unended: bool,
}

impl Progress {
    fn new(from: u64, end: u64) -> Progress
        ensures { result ≡ begun from end }
    {
        Progress {
            from,
            end,
            place: from,
            lines: 0,
            unended: false,
        }
    }

    /// Goes on behind these bytes.
    fn pass(&mut self, bytes: &[u8])
        requires some { 1 ≤ length bytes.now }
        requires fits { self.old.place + length bytes.now < 2 ^ 64 }
        requires few { self.old.lines ≤ self.old.place }
        ensures from { self.new.from ≡ self.old.from }
        ensures end { self.new.end ≡ self.old.end }
        ensures place { self.new.place ≡ self.old.place + length bytes.now }
        ensures lines { self.new.lines ≡ self.old.lines + length (cut_of bytes.now).whole }
        ensures few { self.new.lines ≤ self.new.place }
        ensures unended { self.new.unended ≡ is_unended bytes.now }
    {
        self.place += bytes.len() as u64;
        self.lines += count_lines(bytes);
        self.unended = !bytes.ends_with(b"\n");
    }
}

/// Where the line ends in the piece that goes on at the place `due`.
fn line_end(piece: &[u8], due: u64) -> Option<usize>
    ensures { IsLineEnd piece.now due result }
{
    if due >= piece.len() as u64 {
        return None;
    }
    let skipped = due as usize;
    let found = memchr(b'\n', &piece[skipped..])?;
    Some(skipped + found + 1)
}

/// Copies the next piece of the file, up to the end of the line in which the split ends. The answer is whether there
/// may be more to copy.
fn copy_piece<D: Dir>(
    alloc: Global,
    dir: &mut D,
    path: &Path,
    out: &Path,
    progress: &mut Progress,
) -> Result<bool, SplitFault>
    requires lent_path { IsNoOutput (D.lent dir.old) path.now }
    requires lent_out { IsFree (D.lent dir.old) out.now }
    requires small { progress.old.place < 2 ^ 50 }
    requires few { progress.old.lines ≤ progress.old.place }
    requires copying { D.tells → IsCopying path.now out.now (files (D.told dir.old)) progress.old }
    ensures from { progress.new.from ≡ progress.old.from }
    ensures end { progress.new.end ≡ progress.old.end }
    ensures few { progress.new.lines ≤ progress.new.place }
    ensures small { progress.new.place ≤ progress.old.place + 65536 }
    ensures onward { IfOk result (λ more. OnTrue more (progress.old.place < progress.new.place)) }
    ensures goes_on { D.tells
        → IfOk result (λ more. MatchBool more (IsCopying path.now out.now (files (D.told dir.new)) progress.new)
        (HasCopied path.now out.now (files (D.told dir.new)) progress.new)) }
    ensures others { D.tells → OnOk result (StandsBut out.now (files (D.told dir.old)) (files (D.told dir.new))) }
    ensures stands { D.tells
        → Through (Both (StandsOutside out.now (files (D.told dir.old)))) (D.told dir.old) (D.told dir.new) }
    ensures lent { D.lent dir.new ≡ D.lent dir.old }
    ensures beside { D.beside dir.new ≡ D.beside dir.old }
    ensures cause { HasCause SplitFault.Disk (D.faults dir.old) (D.faults dir.new) result }
{
    let piece = dir.read(alloc, path, progress.place, PIECE)?;
    if piece.is_empty() {
        return Ok(false);
    }
    let end = line_end(&piece, progress.end.saturating_sub(progress.place));
    let part = &piece[..end.unwrap_or(piece.len())];
    dir.append(alloc, out, part)?;
    progress.pass(part);
    Ok(end.is_none())
}

/// Copies the lines of a split, but for the last one's LF where the file has none.
fn copy_pieces<D: Dir>(
    alloc: Global,
    dir: &mut D,
    path: &Path,
    out: &Path,
    progress: &mut Progress,
) -> Result<(), SplitFault>
    requires lent_path { IsNoOutput (D.lent dir.old) path.now }
    requires lent_out { IsFree (D.lent dir.old) out.now }
    requires few { progress.old.lines ≤ progress.old.place }
    requires small { progress.old.lines < 2 ^ 63 }
    requires copying { D.tells → IsCopying path.now out.now (files (D.told dir.old)) progress.old }
    ensures from { progress.new.from ≡ progress.old.from }
    ensures end { progress.new.end ≡ progress.old.end }
    ensures small { progress.new.lines < 2 ^ 63 }
    ensures copied { D.tells → OnOk result (HasCopied path.now out.now (files (D.told dir.new)) progress.new) }
    ensures others { D.tells → OnOk result (StandsBut out.now (files (D.told dir.old)) (files (D.told dir.new))) }
    ensures stands { D.tells
        → Through (Both (StandsOutside out.now (files (D.told dir.old)))) (D.told dir.old) (D.told dir.new) }
    ensures lent { D.lent dir.new ≡ D.lent dir.old }
    ensures beside { D.beside dir.new ≡ D.beside dir.old }
    ensures cause { HasCause SplitFault.Disk (D.faults dir.old) (D.faults dir.new) result }
{
    while progress.place < MOST_BYTES {
        if !copy_piece(alloc, dir, path, out, progress)? {
            return Ok(());
        }
    }
    Ok(())
}

/// Gives the last line its LF where it has none, and answers how many lines there are.
fn end_last<D: Dir>(
    alloc: Global,
    dir: &mut D,
    out: &Path,
    progress: &Progress,
) -> Result<u64, SplitFault>
    requires lent { IsFree (D.lent dir.old) out.now }
    requires made { D.tells → HasFile (files (D.told dir.old)) out.now }
    requires can { D.tells → CanAppend (files (D.told dir.old)) out.now }
    requires small { progress.now.lines < 2 ^ 63 }
    requires lines { D.tells
        → progress.now.lines ≡ length (cut_of (bytes_at (files (D.told dir.old)) out.now)).whole }
    requires unended { D.tells → progress.now.unended ≡ is_unended (bytes_at (files (D.told dir.old)) out.now) }
    ensures count { D.tells
        → IfOk result (λ count. count ≡ length (records_of (bytes_at (files (D.told dir.old)) out.now))) }
    ensures text { D.tells → OnOk result ((files (D.told dir.new) out.now).now
        ≡ Some (lines_text (records_of (bytes_at (files (D.told dir.old)) out.now)))) }
    ensures others { D.tells → OnOk result (StandsBut out.now (files (D.told dir.old)) (files (D.told dir.new))) }
    ensures stands { D.tells
        → Through (Both (StandsOutside out.now (files (D.told dir.old)))) (D.told dir.old) (D.told dir.new) }
    ensures lent { D.lent dir.new ≡ D.lent dir.old }
    ensures beside { D.beside dir.new ≡ D.beside dir.old }
    ensures cause { HasCause SplitFault.Disk (D.faults dir.old) (D.faults dir.new) result }
{
    if progress.unended {
        dir.append(alloc, out, b"\n")?;
        return Ok(progress.lines + 1);
    }
    Ok(progress.lines)
}

/// Appends the lines to an empty file that begin from the place `from` on, where one does, up to the place `end`. The
/// answer is how many there are.
pub(crate) fn copy_lines<D: Dir>(
    alloc: Global,
    dir: &mut D,
    path: &Path,
    out: &Path,
    from: u64,
    end: u64,
) -> Result<u64, SplitFault>
    requires lent_path { IsNoOutput (D.lent dir.old) path.now }
    requires lent_out { IsFree (D.lent dir.old) out.now }
    requires copying { D.tells → IsCopying path.now out.now (files (D.told dir.old)) (begun from end) }
    ensures count { D.tells
        → IfOk result (λ count. count ≡ length (lines_between from end (bytes_at (files (D.told dir.old)) path.now))) }
    ensures text { D.tells → OnOk result ((files (D.told dir.new) out.now).now
        ≡ Some (lines_text (lines_between from end (bytes_at (files (D.told dir.old)) path.now)))) }
    ensures others { D.tells → OnOk result (StandsBut out.now (files (D.told dir.old)) (files (D.told dir.new))) }
    ensures stands { D.tells
        → Through (Both (StandsOutside out.now (files (D.told dir.old)))) (D.told dir.old) (D.told dir.new) }
    ensures lent { D.lent dir.new ≡ D.lent dir.old }
    ensures beside { D.beside dir.new ≡ D.beside dir.old }
    ensures cause { HasCause SplitFault.Disk (D.faults dir.old) (D.faults dir.new) result }
{
    let mut progress = Progress::new(from, end);
    copy_pieces(alloc, dir, path, out, &mut progress)?;
    end_last(alloc, dir, out, &progress)
}
