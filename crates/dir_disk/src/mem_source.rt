ghost use Rattle.std.specs.Prelude.{◌≡◌, ◌≤◌, ◌↔◌, [], Some, Err, length, min, take, IfOk, OnOk, OnErr, IsErrOf, IsTrue};
ghost use Rattle.dir_disk.specs.Causes.{HasCause};
ghost use Rattle.dir_disk.specs.FaultPlan.{counted, is_due, planned};
ghost use Rattle.dir_disk.specs.Streams.{AtEnd, onto};

use crate::fault_plan::FaultPlan;
use crate::streams::{Source, SourceFault};
use std::alloc::Global;
use std::marker::Model;

/// A source over bytes in memory, which gives pieces of a set length and fails at the reads that it is told.
#[derive(Drop)]
pub struct MemSource {
    bytes: Vec<u8>,
    start: usize,
    piece: u32,
    plan: FaultPlan,
}

impl Model for MemSource {
    ghost use Rattle.std.specs.Prelude.{◌≤◌, drop, vec_len};
    ghost use Rattle.dir_disk.specs.Doubles.{Supply};

    ghost Value = { Supply };

    ghost view = { λ s. record { left = drop s.start s.bytes.items; piece = s.piece; plan = s.plan } };

    ghost invariant = { λ s. (s.start ≤ vec_len s.bytes) × (1 ≤ s.piece) };
}

impl MemSource {
    /// A source of these bytes, in pieces of at most `piece` of them; the reads of the numbers in `fail`, from 0, fail.
    pub fn new(bytes: Vec<u8>, piece: u32, fail: Vec<u64>) -> MemSource
        requires { 1 ≤ piece }
        ensures { result ≡ record { left = bytes.items; piece = piece; plan = planned fail.items } }
    {
        MemSource {
            bytes,
            start: 0,
            piece,
            plan: FaultPlan::new(fail),
        }
    }
}

impl Source for MemSource {
    ghost left = { λ s. Some s.left };

    ghost faults = { λ s. s.plan.faults };

    fn read(&mut self, alloc: Global, max: u32) -> Result<Vec<u8>, SourceFault>
        requires { 1 ≤ max }
        ensures few { IfOk result (λ bytes. length bytes.items ≤ max) }
        ensures next { IfOk result (λ bytes. Some self.old.left ≡ onto bytes.items (Some self.new.left)) }
        ensures end { IfOk result (λ bytes. bytes.items ≡ [] → AtEnd (Some self.new.left)) }
        ensures err { OnErr result (Some self.new.left ≡ Some self.old.left) }
        ensures cause { HasCause SourceFault.Failed self.old.plan.faults self.new.plan.faults result }
        ensures steady { OnOk result (self.new.plan.faults ≡ self.old.plan.faults) }
        ensures uncounted { IsErrOf result SourceFault.NoMemory → self.new.plan.faults ≡ self.old.plan.faults }

        // It fails just where it is told, and gives as much as it may.
        ensures fails { (result ≡ Err SourceFault.Failed) ↔ IsTrue (is_due self.old.plan) }
        ensures counts { self.new.plan ≡ counted self.old.plan }
        ensures same { self.new.piece ≡ self.old.piece }
        ensures piece { IfOk result (λ bytes. bytes.items ≡ take (min self.old.piece max) self.old.left) }
    {
        if self.plan.fails_next() {
            return Err(SourceFault::Failed);
        }
        let rest = &self.bytes[self.start..];
        let len = rest.len().min(self.piece.min(max) as usize);
        let Ok(bytes) = Vec::from_slice(alloc, &rest[..len]) else {
            return Err(SourceFault::NoMemory);
        };
        self.start += len;
        Ok(bytes)
    }
}
