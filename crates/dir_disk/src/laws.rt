//! What a stop may leave of a directory: small examples, and what holds of every call. Each function is a law that its
//! contract states, and does nothing.
ghost use Rattle.dir_disk.specs.Examples.{AppendedMayBeAnything, MovedUnsettledMayBeAnything, SettledIsThere, MovedMayBeAtEitherOrNone, RemovedMayBeThere, RemovedAndSettledIsGone, SettledFolderIsThere, MovedFolderTakesAll, ArrivesAsItWas, FailsInAnyPart, FailedAppendMayBeAnything, FitsBetween, MixesWithin, StaysSound, CallMakesFresh, StartedMayLeaveAnything, StartLeavesOthers, EndLeavesOthers};

/// A file that was appended to and not settled may have any bytes after a stop, or may not be there.
pub fn appended_may_be_anything()
    ensures { AppendedMayBeAnything }
{}

/// A file that was appended to, not settled, and then moved may have any bytes at its new path after a stop, or may not
/// be there.
pub fn moved_unsettled_may_be_anything()
    ensures { MovedUnsettledMayBeAnything }
{}

/// A file that was settled is there with its bytes after a stop.
pub fn settled_is_there()
    ensures { SettledIsThere }
{}

/// A file that was settled and then moved may be with its bytes at either path after a stop, at both, or at none.
pub fn moved_may_be_at_either_or_none()
    ensures { MovedMayBeAtEitherOrNone }
{}

/// A file that was removed and not settled may still be there after a stop.
pub fn removed_may_be_there()
    ensures { RemovedMayBeThere }
{}

/// A file that was removed and then settled is gone.
pub fn removed_and_settled_is_gone()
    ensures { RemovedAndSettledIsGone }
{}

/// To settle a folder settles each file under it.
pub fn settled_folder_is_there()
    ensures { SettledFolderIsThere }
{}

/// To move a folder moves each file under it.
pub fn moved_folder_takes_all()
    ensures { MovedFolderTakesAll }
{}

/// A file that is moved may come out of a stop with other bytes, unless its old path allowed none but its own.
pub fn arrives_as_it_was()
    ensures { ArrivesAsItWas }
{}

/// A call that failed may have been carried out at any of the paths, and not at the others.
pub fn fails_in_any_part()
    ensures { FailsInAnyPart }
{}

/// After an append that failed the file may have any bytes.
pub fn failed_append_may_be_anything()
    ensures { FailedAppendMayBeAnything }
{}

/// Between two calls a stop leaves an image that fits the state.
pub fn fits_between()
    ensures { FitsBetween }
{}

/// Within a call a stop may leave any paths as before it and all others as after it.
pub fn mixes_within()
    ensures { MixesWithin }
{}

/// What is there now may be there after a stop, and each call keeps that.
pub fn stays_sound()
    ensures { StaysSound }
{}

/// A call moves the clock on, so that what is said right after it is said at a moment of its own.
pub fn call_makes_fresh()
    ensures { CallMakesFresh }
{}

/// What a child has written may have any bytes after a stop, or may not be there, until it is settled.
pub fn started_may_leave_anything()
    ensures { StartedMayLeaveAnything }
{}

/// A start leaves all paths but the child's output as they are.
pub fn start_leaves_others()
    ensures { StartLeavesOthers }
{}

/// The end of a child leaves all paths but its output as they are.
pub fn end_leaves_others()
    ensures { EndLeavesOthers }
{}
