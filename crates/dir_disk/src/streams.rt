ghost use Rattle.std.specs.Prelude.{◌≡◌, ◌≤◌, ℕ, List, [], Option, length, IfOk, OnOk, OnErr, IsErrOf};
ghost use Rattle.dir_disk.specs.Causes.{HasCause};
ghost use Rattle.dir_disk.specs.Streams.{AddsPart, AtEnd, added, onto};
ghost use Rattle.dir_disk.specs.Says.{Say, with_say};

use std::alloc::Global;

/// Why a [`Source`] gave nothing.
#[derive(Clone, Copy, Debug, PartialEq, Eq)]
pub enum SourceFault {
    /// The outside failed; the source counted it.
    Failed,
    /// There was no memory for the bytes.
    NoMemory,
}

/// What bytes come from.
pub trait Source {
    /// The bytes that are left, where the source tells them.
    ghost left: { Self → Option (List ℕ) };

    /// How often a read has failed.
    ghost faults: { Self → ℕ };

    /// Gives the next bytes, at most `max` of them, and none exactly at the end. A refusal leaves the bytes where they are.
    fn read(&mut self, alloc: Global, max: u32) -> Result<Vec<u8>, SourceFault>
        requires { 1 ≤ max }
        ensures few { IfOk result (λ bytes. length bytes.items ≤ max) }
        ensures next { IfOk result (λ bytes. left self.old ≡ onto bytes.items (left self.new)) }
        ensures end { IfOk result (λ bytes. bytes.items ≡ [] → AtEnd (left self.new)) }
        ensures err { OnErr result (left self.new ≡ left self.old) }
        ensures cause { HasCause SourceFault.Failed (faults self.old) (faults self.new) result }
        ensures steady { OnOk result (faults self.new ≡ faults self.old) }
        ensures uncounted { IsErrOf result SourceFault.NoMemory → faults self.new ≡ faults self.old };
}

/// Why a [`Sink`] didn't take all bytes.
#[derive(Clone, Copy, Debug, PartialEq, Eq)]
pub enum SinkFault {
    /// The outside failed, maybe after some of the bytes; the sink counted it.
    Failed,
    /// There was no memory, and nothing was written.
    NoMemory,
}

/// What bytes are written to.
pub trait Sink {
    /// The bytes that were written, where the sink tells them.
    ghost written: { Self → Option (List ℕ) };

    /// How often a write has failed.
    ghost faults: { Self → ℕ };

    /// Writes all the bytes. After a fault some of them, from their front, may have been written.
    fn write(&mut self, alloc: Global, bytes: &[u8]) -> Result<(), SinkFault>
        ensures ok { OnOk result (written self.new ≡ added (written self.old) bytes.now) }
        ensures part { AddsPart (written self.old) (written self.new) bytes.now }
        ensures no_memory { IsErrOf result SinkFault.NoMemory → written self.new ≡ written self.old }
        ensures cause { HasCause SinkFault.Failed (faults self.old) (faults self.new) result }
        ensures steady { OnOk result (faults self.new ≡ faults self.old) }
        ensures uncounted { IsErrOf result SinkFault.NoMemory → faults self.new ≡ faults self.old };
}

/// Why a [`Console`] didn't say all bytes.
#[derive(Clone, Copy, Debug, PartialEq, Eq)]
pub enum SayFault {
    /// The outside failed, maybe after some of the bytes; the console counted it. The bytes count as not said.
    Failed,
    /// There was no memory, and nothing was said.
    NoMemory,
}

/// Where lines are said to a person.
pub trait Console {
    /// The bytes that were said, where the console tells them.
    ghost said: { Self → Option (List ℕ) };

    /// The says so far, where the console tells them.
    ghost says: { Self → Option (List Say) };

    /// The moment of a say that is made now: how many calls were made of the directory that is beside the console.
    ghost moment: { Self → ℕ };

    /// How often a say has failed.
    ghost say_faults: { Self → ℕ };

    /// What else the object is that the console is a part of.
    ghost Beside: { Type 0 };

    /// What its calls leave as it is.
    ghost beside: { Self → Beside };

    /// Says all the bytes. After a fault some of them, from their front, may have been said.
    fn say(&mut self, alloc: Global, bytes: &[u8]) -> Result<(), SayFault>
        ensures ok { OnOk result (said self.new ≡ added (said self.old) bytes.now) }
        ensures part { AddsPart (said self.old) (said self.new) bytes.now }
        ensures no_memory { IsErrOf result SayFault.NoMemory → said self.new ≡ said self.old }
        ensures says { says self.new ≡ with_say bytes.now (moment self.old) result (says self.old) }
        ensures beside { beside self.new ≡ beside self.old }
        ensures cause { HasCause SayFault.Failed (say_faults self.old) (say_faults self.new) result }
        ensures steady { OnOk result (say_faults self.new ≡ say_faults self.old) }
        ensures uncounted { IsErrOf result SayFault.NoMemory → say_faults self.new ≡ say_faults self.old };
}
