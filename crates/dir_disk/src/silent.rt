ghost use Rattle.std.specs.Prelude.{[]};
ghost use Rattle.dir_disk.specs.State.{no_files};

use crate::dir::{Dir, DirFault};
use peg_base::Path;
use std::alloc::Global;

/// A directory that tells nothing and keeps nothing, for code that has to do with any directory.
#[derive(Clone, Copy)]
pub struct SilentDir;

impl Dir for SilentDir {
    ghost tells = { ⊥ };

    ghost told = { λ _. record { count = 0; at = λ _. record { calls = 0; state = no_files } } };

    ghost lent = { λ _. [] };

    ghost faults = { λ _. 0 };

    ghost Beside = { Unit {0} };

    ghost beside = { λ _. tt };

    fn size(&mut self, _alloc: Global, _path: &Path) -> Result<Option<u64>, DirFault> {
        Ok(None)
    }

    fn read(
        &mut self,
        alloc: Global,
        _path: &Path,
        _from: u64,
        _max: u32,
    ) -> Result<Vec<u8>, DirFault> {
        Ok(Vec::new(alloc))
    }

    fn append(&mut self, _alloc: Global, _path: &Path, _bytes: &[u8]) -> Result<(), DirFault> {
        Ok(())
    }

    fn move_tree(&mut self, _alloc: Global, _from: &Path, _to: &Path) -> Result<(), DirFault> {
        Ok(())
    }

    fn remove_tree(&mut self, _alloc: Global, _path: &Path) -> Result<(), DirFault> {
        Ok(())
    }

    fn settle(&mut self, _alloc: Global, _path: &Path) -> Result<(), DirFault> {
        Ok(())
    }

    ghost clock = { λ d early late tells. absurd tells };

    ghost now_allowed = { λ d path tells. absurd tells };

    ghost short_files = { λ d path bytes tells. absurd tells };

    ghost top_is_no_file = { λ d content tells. absurd tells };
}
