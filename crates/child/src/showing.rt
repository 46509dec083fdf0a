ghost use Rattle.std.specs.Prelude.{◌≡◌, ◌↔◌, None, IfSome, map};
ghost use Rattle.std.specs.String.{string_bytes};
ghost use Rattle.child.specs.Child.{Runs, streams};
ghost use Rattle.child.specs.Shown.{ShowsBad};
ghost use Rattle.child.specs.Words.{rule_of};

use crate::dispatch::run_kind;
use crate::front::Front;
use crate::kinds::read_kind;
use crate::status::ChildStatus;
use dir_disk::{Sink, Source};
use std::alloc::Global;

/// Does what [`run_child`](crate::run_child) does. Where a record is bad, `shown` has its front then.
pub fn run_showing<I: Source, O: Sink>(
    alloc: Global,
    words: &[String],
    source: &mut I,
    sink: &mut O,
    shown: &mut Front,
) -> ChildStatus
    ensures runs { IfSome (rule_of (map string_bytes words.now)) (λ rule. Runs rule result
        (streams (I.left source.old) (O.written sink.old) (I.faults source.old) (O.faults sink.old))
        (streams (I.left source.new) (O.written sink.new) (I.faults source.new) (O.faults sink.new))) }
    ensures shown { ShowsBad result (I.left source.old) shown.new }
    ensures usage { (result ≡ ChildStatus.Usage) ↔ (rule_of (map string_bytes words.now) ≡ None) }
    ensures untouched { result ≡ ChildStatus.Usage → (source.new ≡ source.old) × (sink.new ≡ sink.old) }
{
    match read_kind(words) {
        Some(kind) => run_kind(alloc, kind, source, sink, shown),
        None => ChildStatus::Usage,
    }
}
