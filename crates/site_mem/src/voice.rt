ghost use Rattle.std.specs.Prelude.{◌≡◌, ◌+◌, ◌<◌, ◌≤◌, [], ◌∷◌, ◌++◌, Some, OnOk, OnErr, IsErrOf, length};
ghost use Rattle.std.specs.Vec.{vec_len, vec_capacity};
ghost use Rattle.dir_disk.specs.Causes.{HasCause};
ghost use Rattle.dir_disk.specs.Says.{with_say};
ghost use Rattle.dir_disk.specs.Streams.{AddsPart};

use dir_disk::SayFault;
use std::alloc::Global;
use std::marker::Model;

/// A say that was carried out or failed.
#[derive(Drop)]
struct Said {
    bytes: Vec<u8>,
    ok: bool,
    moment: u64,
}

impl Model for Said {
    ghost use Rattle.dir_disk.specs.Says.{Say};

    ghost Value = { Say };

    ghost view = { λ s. record { bytes = s.bytes.items; ok = s.ok; moment = s.moment } };
}

/// What was said, and which says fail.
#[derive(Drop)]
pub(crate) struct Voice {
    said: Vec<u8>,
    says: Vec<Said>,
    mute: Vec<u64>,
    faults: u64,
}

impl Model for Voice {
    ghost use Rattle.site_mem.specs.Voices.{Voiced};

    ghost Value = { Voiced };

    ghost view = { λ v. record { said = v.said.items; says = v.says.items; mute = v.mute.items; faults = v.faults } };
}

impl Voice {
    ghost use Rattle.site_mem.specs.Voices.{FailsIf, is_muted};

    /// Nothing was said yet, and no say is to fail.
    pub(crate) fn new(alloc: Global) -> Voice
        ensures { result ≡ record { said = []; says = []; mute = []; faults = 0 } }
    {
        Voice {
            said: Vec::new(alloc),
            says: Vec::new(alloc),
            mute: Vec::new(alloc),
            faults: 0,
        }
    }

    /// From now on the says of these numbers fail, counted from 0, in place of those that were named before.
    pub(crate) fn mute(&mut self, says: Vec<u64>)
        ensures { self.new ≡ record self.old { mute = says.items } }
    {
        self.mute = says;
    }

    /// The bytes that were said.
    pub(crate) fn said(&self) -> &[u8]
        ensures { result.now ≡ self.now.said }
    {
        &self.said
    }

    /// Says the bytes at this moment, unless this say is to fail; then nothing is said.
    pub(crate) fn say(&mut self, alloc: Global, bytes: &[u8], moment: u64) -> Result<(), SayFault>
        ensures ok { OnOk result (self.new.said ≡ self.old.said ++ bytes.now) }
        ensures err { OnErr result (self.new.said ≡ self.old.said) }
        ensures part { AddsPart (Some self.old.said) (Some self.new.said) bytes.now }
        ensures says { Some self.new.says ≡ with_say bytes.now moment result (Some self.old.says) }
        ensures fails { FailsIf (is_muted self.old) result }
        ensures mute { self.new.mute ≡ self.old.mute }
        ensures cause { HasCause SayFault.Failed self.old.faults self.new.faults result }
        ensures steady { OnOk result (self.new.faults ≡ self.old.faults) }
        ensures uncounted { IsErrOf result SayFault.NoMemory → self.new.faults ≡ self.old.faults }
    {
        let due = self.mute.contains(&(self.says.len() as u64));
        let Ok(kept) = Vec::from_slice(alloc, bytes) else {
            return Err(SayFault::NoMemory);
        };
        if self.says.reserve(1).is_err() {
            return Err(SayFault::NoMemory);
        }
        if due {
            self.faults = self.faults.saturating_add(1);
            note(&mut self.says, kept, false, moment);
            return Err(SayFault::Failed);
        }
        if self.said.extend_from_slice(bytes).is_err() {
            return Err(SayFault::NoMemory);
        }
        note(&mut self.says, kept, true, moment);
        Ok(())
    }
}

/// Notes a say in a list that has room for it.
fn note(says: &mut Vec<Said>, bytes: Vec<u8>, ok: bool, moment: u64)
    requires { vec_len says.old < vec_capacity says.old }
    ensures { says.new.items ≡ says.old.items ++ record { bytes = bytes.items; ok = ok; moment = moment } ∷ [] }
{
    let _ = says.push(Said { bytes, ok, moment });
}
