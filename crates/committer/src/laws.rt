//! What whole folders and the names within them are good for. Each function is a law that its contract states, and does
//! nothing.
ghost use Rattle.committer.specs.Laws.{UnmarkedIsWholeInNone, SealedIsWholeInEach, CommittedIsWholeInEach, PartsAreApart, NamesByExample};

/// A folder is unmarked exactly where it is whole in no image.
pub fn unmarked_is_whole_in_none()
    ensures { UnmarkedIsWholeInNone }
{}

/// A sealed folder is whole in each image, with the files that it had before.
pub fn sealed_is_whole_in_each()
    ensures { SealedIsWholeInEach }
{}

/// A committed folder is whole in each image, with all its parts and nothing else.
pub fn committed_is_whole_in_each()
    ensures { CommittedIsWholeInEach }
{}

/// Parts of different numbers are apart.
pub fn parts_are_apart()
    ensures { PartsAreApart }
{}

/// Numbers in names have their width, with zeros in front.
pub fn names_by_example()
    ensures { NamesByExample }
{}
