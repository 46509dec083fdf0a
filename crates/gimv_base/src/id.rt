ghost use Rattle.std.specs.Prelude.{◌≡◌};
ghost use Rattle.gimv_base.specs.BaseRules.{id_rule};
ghost use Rattle.gimv_base.specs.Standings.{fresh};

use crate::lines::append_record;
use crate::role::{Role, RoleFault};
use std::alloc::Global;

/// `id`: each record is copied.
#[derive(Clone, Copy, Debug, PartialEq, Eq)]
pub struct IdRole;

impl IdRole {
    /// The role before its first record.
    pub fn new() -> IdRole
        ensures { ⟦<IdRole as Role>⟧.standing result ≡ fresh id_rule }
    {
        IdRole
    }
}

impl Role for IdRole {
    ghost standing = { λ _. fresh id_rule };

    fn line(&mut self, _: Global, text: &[u8], out: &mut Vec<u8>) -> Result<(), RoleFault> {
        let before = out.len();
        match append_record(out, text) {
            Ok(()) => Ok(()),
            Err(_) => {
                out.truncate(before);
                Err(RoleFault::NoMemory)
            }
        }
    }

    fn end(&mut self, _: Global, _: &mut Vec<u8>) -> Result<(), RoleFault> {
        Ok(())
    }
}
