ghost use Rattle.std.specs.Prelude.{◌≡◌, ◌↔◌, [], None, Some, Err, OnOk, OnErr, IsErrOf, IsTrue};
ghost use Rattle.dir_disk.specs.Causes.{HasCause};
ghost use Rattle.dir_disk.specs.FaultPlan.{counted, is_due, planned};
ghost use Rattle.dir_disk.specs.Streams.{AddsPart, added};

use crate::mem_sink::MemSink;
use crate::streams::{Console, SayFault, Sink, SinkFault};
use std::alloc::Global;
use std::marker::Model;

/// A console in memory, which fails at the says that it is told; such a say says nothing.
#[derive(Drop)]
pub struct MemConsole {
    sink: MemSink,
}

impl Model for MemConsole {
    ghost use Rattle.dir_disk.specs.Doubles.{Intake};

    ghost Value = { Intake };

    ghost view = { λ c. c.sink };
}

impl MemConsole {
    /// A console on which nothing was said; the says of the numbers in `fail`, from 0, fail.
    pub fn new(alloc: Global, fail: Vec<u64>) -> MemConsole
        ensures { result ≡ record { bytes = []; plan = planned fail.items } }
    {
        MemConsole {
            sink: MemSink::new(alloc, fail),
        }
    }

    /// The bytes that were said.
    pub fn said(&self) -> &[u8]
        ensures { result.now ≡ self.now.bytes }
    {
        self.sink.written()
    }
}

impl Console for MemConsole {
    ghost said = { λ c. Some c.bytes };

    ghost says = { λ _. None };

    ghost moment = { λ _. 0 };

    ghost say_faults = { λ c. c.plan.faults };

    ghost Beside = { Unit {0} };

    ghost beside = { λ _. tt };

    fn say(&mut self, alloc: Global, bytes: &[u8]) -> Result<(), SayFault>
        ensures ok { OnOk result (Some self.new.bytes ≡ added (Some self.old.bytes) bytes.now) }
        ensures part { AddsPart (Some self.old.bytes) (Some self.new.bytes) bytes.now }
        ensures no_memory { IsErrOf result SayFault.NoMemory → Some self.new.bytes ≡ Some self.old.bytes }
        ensures cause { HasCause SayFault.Failed self.old.plan.faults self.new.plan.faults result }
        ensures steady { OnOk result (self.new.plan.faults ≡ self.old.plan.faults) }
        ensures uncounted { IsErrOf result SayFault.NoMemory → self.new.plan.faults ≡ self.old.plan.faults }

        // It fails just where it is told, and then says nothing.
        ensures fails { (result ≡ Err SayFault.Failed) ↔ IsTrue (is_due self.old.plan) }
        ensures counts { self.new.plan ≡ counted self.old.plan }
        ensures err { OnErr result (self.new.bytes ≡ self.old.bytes) }
    {
        match self.sink.write(alloc, bytes) {
            Ok(()) => Ok(()),
            Err(SinkFault::Failed) => Err(SayFault::Failed),
            Err(SinkFault::NoMemory) => Err(SayFault::NoMemory),
        }
    }
}
