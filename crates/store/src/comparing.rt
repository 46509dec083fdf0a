ghost use Rattle.std.specs.Prelude.{◌≡◌, ◌++◌, ◌+◌, ◌<◌, ◌≤◌, ◌^◌, ℕ, List, [], length, take, drop, IfOk, MatchBool};
ghost use Rattle.peg_text.specs.Records.{cut_of};
ghost use Rattle.dir_disk.specs.Calls.{HasFile};
ghost use Rattle.dir_disk.specs.Causes.{HasCause};
ghost use Rattle.dir_disk.specs.Lent.{IsNoOutput};
ghost use Rattle.dir_disk.specs.Moments.{Both, Through, files};
ghost use Rattle.dir_disk.specs.State.{bytes_at};
ghost use Rattle.store.specs.Comparing.{IsCounted, IsParted, IsSame};
ghost use Rattle.store.specs.Differing.{IsDifferingLine, common};

use crate::fault::StoreFault;
use crate::sizes::{MOST_BYTES, PIECE};
use dir_disk::Dir;
use peg_base::Path;
use splits::count_lines;
use std::alloc::Global;

/// How many bytes two texts have in common from their front on.
fn common_length(one: &[u8], other: &[u8]) -> usize
    ensures is { result ≡ length (common one.now other.now) }
    ensures one { result ≤ length one.now }
    ensures other { result ≤ length other.now }
{
    let mut count = 0;
    while count < one.len() && count < other.len() && one[count] == other[count] {
        count += 1;
    }
    count
}

/// How far a file was compared with a text that comes in pieces.
#[derive(Clone, Copy)]
pub(crate) struct Compared {
    /// The bytes before this place are those of the text.
    pub place: u64,
    /// The line of the byte at the place.
    pub line: u64,
}

impl Compared {
    pub fn new() -> Compared
        ensures place { result.place ≡ 0 }
        ensures line { result.line ≡ 1 }
    {
        Compared { place: 0, line: 1 }
    }

    /// Compares the next piece of the file with what the text goes on with. The answer is how many bytes are the
    /// same: none where they part here.
    fn step<D: Dir>(
        &mut self,
        alloc: Global,
        dir: &mut D,
        path: &Path,
        text: &[u8],
    ) -> Result<usize, StoreFault>
        requires lent { IsNoOutput (D.lent dir.old) path.now }
        requires there { D.tells → HasFile (files (D.told dir.old)) path.now }
        requires some { 1 ≤ length text.now }
        requires counted { IsCounted self.old }
        ensures counted { IsCounted self.new }
        ensures few { IfOk result (λ count. count ≤ length text.now) }
        ensures place { IfOk result (λ count. self.new.place ≡ self.old.place + count) }
        ensures line { IfOk result
            (λ count. self.new.line ≡ self.old.line + length (cut_of (take count text.now)).whole) }
        ensures same { let bytes = drop self.old.place (bytes_at (files (D.told dir.old)) path.now) in D.tells
            → IfOk result (λ count. take count bytes ≡ take count text.now) }
        ensures parted { let bytes = drop self.old.place (bytes_at (files (D.told dir.old)) path.now) in D.tells
            → IfOk result (λ count. count ≡ 0 → common bytes text.now ≡ []) }
        ensures stands { D.tells
            → Through (Both (λ state. state ≡ files (D.told dir.old))) (D.told dir.old) (D.told dir.new) }
        ensures lent { D.lent dir.new ≡ D.lent dir.old }
        ensures beside { D.beside dir.new ≡ D.beside dir.old }
        ensures cause { HasCause StoreFault.Disk (D.faults dir.old) (D.faults dir.new) result }
    {
        if self.place >= MOST_BYTES {
            return Ok(0);
        }
        let most = text.len().min(PIECE as usize);
        let piece = dir.read(alloc, path, self.place, most as u32)?;
        let count = common_length(&piece, text);
        self.line += count_lines(&text[..count]);
        self.place += count as u64;
        Ok(count)
    }

    /// Goes on comparing with what the text goes on with. The answer is false where they part.
    pub fn go_on<D: Dir>(
        &mut self,
        alloc: Global,
        dir: &mut D,
        path: &Path,
        text: &[u8],
    ) -> Result<bool, StoreFault>
        requires lent { IsNoOutput (D.lent dir.old) path.now }
        requires there { D.tells → HasFile (files (D.told dir.old)) path.now }
        requires counted { IsCounted self.old }
        ensures counted { IsCounted self.new }
        ensures found { let bytes = bytes_at (files (D.told dir.old)) path.now in D.tells
            → (before : List ℕ) → IsSame bytes before self.old
            → IfOk result (λ same. MatchBool same
            (IsSame bytes (before ++ text.now) self.new)
            (IsParted bytes (before ++ text.now) self.new)) }
        ensures stands { D.tells
            → Through (Both (λ state. state ≡ files (D.told dir.old))) (D.told dir.old) (D.told dir.new) }
        ensures lent { D.lent dir.new ≡ D.lent dir.old }
        ensures beside { D.beside dir.new ≡ D.beside dir.old }
        ensures cause { HasCause StoreFault.Disk (D.faults dir.old) (D.faults dir.new) result }
    {
        let mut done = 0;
        while done < text.len() {
            let count = self.step(alloc, dir, path, &text[done..])?;
            if count == 0 {
                return Ok(false);
            }
            done += count;
        }
        Ok(true)
    }

    /// The line at which the file goes on behind the text, if it does.
    pub fn end<D: Dir>(
        &self,
        alloc: Global,
        dir: &mut D,
        path: &Path,
    ) -> Result<Option<u64>, StoreFault>
        requires lent { IsNoOutput (D.lent dir.old) path.now }
        requires there { D.tells → HasFile (files (D.told dir.old)) path.now }
        ensures found { let bytes = bytes_at (files (D.told dir.old)) path.now in D.tells
            → (text : List ℕ) → IsSame bytes text self.now → IfOk result (IsDifferingLine bytes text) }
        ensures stands { D.tells
            → Through (Both (λ state. state ≡ files (D.told dir.old))) (D.told dir.old) (D.told dir.new) }
        ensures lent { D.lent dir.new ≡ D.lent dir.old }
        ensures beside { D.beside dir.new ≡ D.beside dir.old }
        ensures cause { HasCause StoreFault.Disk (D.faults dir.old) (D.faults dir.new) result }
    {
        if self.place >= MOST_BYTES {
            return Ok(None);
        }
        let piece = dir.read(alloc, path, self.place, 1)?;
        if piece.is_empty() {
            return Ok(None);
        }
        Ok(Some(self.line))
    }
}
