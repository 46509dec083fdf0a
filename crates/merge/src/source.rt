ghost use Rattle.std.specs.Prelude.{◌≡◌, ◌∷◌, [], ◌++◌, ◌^◌, ◌<◌, false, drop, IfOk, OnOk};
ghost use Rattle.std.specs.Bool.{OnTrue, OnFalse};
ghost use Rattle.peg_text.specs.Records.{HasNoLf};
ghost use Rattle.dir_disk.specs.Calls.{HasFile};
ghost use Rattle.dir_disk.specs.Causes.{HasCause};
ghost use Rattle.dir_disk.specs.Lent.{IsNoOutput};
ghost use Rattle.dir_disk.specs.Moments.{Both, Through, files};
ghost use Rattle.pairs.specs.Pairs.{pairs_in};
ghost use Rattle.dir_disk.specs.State.{bytes_at};
ghost use Rattle.merge.specs.Sources.{left_of, untaken};

use crate::fault::MergeFault;
use dir_disk::Dir;
use pairs::PairBuf;
use peg_base::Path;
use std::alloc::Global;

/// How many bytes are read at a time.
const PIECE: u32 = 65_536;

/// The most bytes of a file.
const MOST_BYTES: u64 = 1 << 50;

/// A run that is read from its front, with the next of its pairs at hand.
#[derive(Drop)]
pub(crate) struct Source {
    pub path: Path,
    /// Where the next piece begins.
    pub place: u64,
    /// The next pair, unless the run has ended, and what was read behind it.
    pub lines: PairBuf,
    /// Whether all pairs are given.
    pub ended: bool,
}

/// Reads the next piece of a run in behind what is held. The answer is false where the run has no further bytes.
fn read_on<D: Dir>(
    alloc: Global,
    dir: &mut D,
    path: &Path,
    place: &mut u64,
    held: &mut PairBuf,
) -> Result<bool, MergeFault>
    requires lent { IsNoOutput (D.lent dir.old) path.now }
    requires there { D.tells → HasFile (files (D.told dir.old)) path.now }
    ensures held { let bytes = bytes_at (files (D.told dir.old)) path.now in D.tells
        → OnOk result (held.new.rest ++ drop place.new bytes ≡ held.old.rest ++ drop place.old bytes) }
    ensures none { IfOk result (λ more. OnFalse more (held.new.rest ≡ held.old.rest)) }
    ensures ended { D.tells
        → IfOk result (λ more. OnFalse more (drop place.new (bytes_at (files (D.told dir.old)) path.now) ≡ [])) }
    ensures onward { IfOk result (λ more. OnTrue more ((place.old < place.new) × (place.old < 2 ^ 50))) }
    ensures stands { D.tells
        → Through (Both (λ state. state ≡ files (D.told dir.old))) (D.told dir.old) (D.told dir.new) }
    ensures lent { D.lent dir.new ≡ D.lent dir.old }
    ensures beside { D.beside dir.new ≡ D.beside dir.old }
    ensures cause { HasCause MergeFault.Disk (D.faults dir.old) (D.faults dir.new) result }
{
    if *place >= MOST_BYTES {
        return Ok(false);
    }
    let piece = dir.read(alloc, path, *place, PIECE)?;
    if piece.is_empty() {
        return Ok(false);
    }
    held.feed(alloc, &piece)?;
    *place += piece.len() as u64;
    Ok(true)
}

impl Source {
    /// A run from its first pair on.
    pub fn open<D: Dir>(alloc: Global, dir: &mut D, path: &Path) -> Result<Source, MergeFault>
        requires lent { IsNoOutput (D.lent dir.old) path.now }
        requires there { D.tells → HasFile (files (D.told dir.old)) path.now }
        ensures path { IfOk result (λ source. source.path ≡ path.now) }
        ensures left { let entry = files (D.told dir.old) in D.tells
            → IfOk result (λ source. left_of entry source ≡ pairs_in (bytes_at entry path.now)) }
        ensures stands { D.tells
            → Through (Both (λ state. state ≡ files (D.told dir.old))) (D.told dir.old) (D.told dir.new) }
        ensures lent { D.lent dir.new ≡ D.lent dir.old }
        ensures beside { D.beside dir.new ≡ D.beside dir.old }
        ensures cause { HasCause MergeFault.Disk (D.faults dir.old) (D.faults dir.new) result }
    {
        let mut source = Source {
            path: path.copy(alloc)?,
            place: 0,
            lines: PairBuf::new(alloc),
            ended: false,
        };
        source.advance(alloc, dir)?;
        Ok(source)
    }

    /// Goes on to the next pair, or to the end.
    pub fn advance<D: Dir>(&mut self, alloc: Global, dir: &mut D) -> Result<(), MergeFault>
        requires lent { IsNoOutput (D.lent dir.old) self.old.path }
        requires there { D.tells → HasFile (files (D.told dir.old)) self.old.path }
        requires running { self.old.ended ≡ false }
        ensures path { self.new.path ≡ self.old.path }
        ensures left { let entry = files (D.told dir.old) in D.tells
            → OnOk result (left_of entry self.new ≡ pairs_in (untaken entry self.old)) }
        ensures stands { D.tells
            → Through (Both (λ state. state ≡ files (D.told dir.old))) (D.told dir.old) (D.told dir.new) }
        ensures lent { D.lent dir.new ≡ D.lent dir.old }
        ensures beside { D.beside dir.new ≡ D.beside dir.old }
        ensures cause { HasCause MergeFault.Disk (D.faults dir.old) (D.faults dir.new) result }
    {
        if self.whole_line(alloc, dir)? {
            return Ok(());
        }
        self.ended = !self.lines.last();
        Ok(())
    }

    /// Takes the next whole line out, and reads on as long as there is none. Where the answer is false the run has no
    /// further bytes.
    fn whole_line<D: Dir>(&mut self, alloc: Global, dir: &mut D) -> Result<bool, MergeFault>
        requires lent { IsNoOutput (D.lent dir.old) self.old.path }
        requires there { D.tells → HasFile (files (D.told dir.old)) self.old.path }
        ensures path { self.new.path ≡ self.old.path }
        ensures running { self.new.ended ≡ self.old.ended }
        ensures found { let entry = files (D.told dir.old) in D.tells
            → IfOk result (λ found. OnTrue found (pairs_in (untaken entry self.old) ≡ self.new.lines.head ∷ pairs_in (untaken entry self.new))) }
        ensures held { let entry = files (D.told dir.old) in D.tells
            → IfOk result (λ found. OnFalse found (self.new.lines.rest ≡ untaken entry self.old)) }
        ensures ended { D.tells
            → IfOk result (λ found. OnFalse found (drop self.new.place (bytes_at (files (D.told dir.old)) self.new.path) ≡ [])) }
        ensures unbroken { IfOk result (λ found. OnFalse found (HasNoLf self.new.lines.rest)) }
        ensures stands { D.tells
            → Through (Both (λ state. state ≡ files (D.told dir.old))) (D.told dir.old) (D.told dir.new) }
        ensures lent { D.lent dir.new ≡ D.lent dir.old }
        ensures beside { D.beside dir.new ≡ D.beside dir.old }
        ensures cause { HasCause MergeFault.Disk (D.faults dir.old) (D.faults dir.new) result }
    {
        while !self.lines.next() {
            if !read_on(alloc, dir, &self.path, &mut self.place, &mut self.lines)? {
                return Ok(false);
            }
        }
        Ok(true)
    }
}
