ghost use Rattle.std.specs.Prelude.{◌≡◌, ◌↔◌, [], Some, Err, OnOk, OnErr, IsErrOf, IsTrue};
ghost use Rattle.dir_disk.specs.Causes.{HasCause};
ghost use Rattle.dir_disk.specs.FaultPlan.{counted, is_due, planned};
ghost use Rattle.dir_disk.specs.Streams.{AddsPart, added};

use crate::fault_plan::FaultPlan;
use crate::streams::{Sink, SinkFault};
use std::alloc::Global;
use std::marker::Model;

/// A sink in memory, which fails at the writes that it is told; such a write writes nothing.
#[derive(Drop)]
pub struct MemSink {
    bytes: Vec<u8>,
    plan: FaultPlan,
}

impl Model for MemSink {
    ghost use Rattle.dir_disk.specs.Doubles.{Intake};

    ghost Value = { Intake };

    ghost view = { λ s. record { bytes = s.bytes.items; plan = s.plan } };
}

impl MemSink {
    /// A sink that nothing was written to; the writes of the numbers in `fail`, from 0, fail.
    pub fn new(alloc: Global, fail: Vec<u64>) -> MemSink
        ensures { result ≡ record { bytes = []; plan = planned fail.items } }
    {
        MemSink {
            bytes: Vec::new(alloc),
            plan: FaultPlan::new(fail),
        }
    }

    /// The bytes that were written.
    pub fn written(&self) -> &[u8]
        ensures { result.now ≡ self.now.bytes }
    {
        &self.bytes
    }
}

impl Sink for MemSink {
    ghost written = { λ s. Some s.bytes };

    ghost faults = { λ s. s.plan.faults };

    fn write(&mut self, _alloc: Global, bytes: &[u8]) -> Result<(), SinkFault>
        ensures ok { OnOk result (Some self.new.bytes ≡ added (Some self.old.bytes) bytes.now) }
        ensures part { AddsPart (Some self.old.bytes) (Some self.new.bytes) bytes.now }
        ensures no_memory { IsErrOf result SinkFault.NoMemory → Some self.new.bytes ≡ Some self.old.bytes }
        ensures cause { HasCause SinkFault.Failed self.old.plan.faults self.new.plan.faults result }
        ensures steady { OnOk result (self.new.plan.faults ≡ self.old.plan.faults) }
        ensures uncounted { IsErrOf result SinkFault.NoMemory → self.new.plan.faults ≡ self.old.plan.faults }

        // It fails just where it is told, and then writes nothing.
        ensures fails { (result ≡ Err SinkFault.Failed) ↔ IsTrue (is_due self.old.plan) }
        ensures counts { self.new.plan ≡ counted self.old.plan }
        ensures err { OnErr result (self.new.bytes ≡ self.old.bytes) }
    {
        if self.plan.fails_next() {
            return Err(SinkFault::Failed);
        }
        match self.bytes.extend_from_slice(bytes) {
            Ok(()) => Ok(()),
            Err(_) => Err(SinkFault::NoMemory),
        }
    }
}
