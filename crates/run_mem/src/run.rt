ghost use Rattle.std.specs.Prelude.{◌≡◌, ◌≢◌, [], ℕ, List, None, Some, map};
ghost use Rattle.std.specs.String.{string_bytes};
ghost use Rattle.graph.specs.declared.edges.Edge.{Edge};
ghost use Rattle.conf.specs.declared.reading.Conf.{Conf as Settings};
ghost use Rattle.dir_disk.specs.Moments.{files};
ghost use Rattle.dir_disk.specs.State.{Fits, Image};
ghost use Rattle.dir_mem.specs.Memory.{told_of};
ghost use Rattle.peg_base.specs.Names.{Names};
ghost use Rattle.mining.specs.Stored.{IsNotAsMade};
ghost use Rattle.flow.specs.Held.{HoldsIterates};
ghost use Rattle.driver.specs.Headline.{Asks, HasWritten};
ghost use Rattle.driver.specs.Logged.{LogsPast, TellsOfOutcome};
ghost use Rattle.conf.specs.Meaning.{Mean};
ghost use Rattle.flow.specs.Children.{bundled};

use crate::bundled::Bundled;
use dir_disk::Source;
use dir_mem::MemDir;
use driver::{Outcome, run};
use site_mem::MemSite;
use std::alloc::Global;

/// What a run answered, and what it left.
#[derive(Drop)]
pub struct Ran {
    pub outcome: Outcome,
    pub site: MemSite<Bundled>,
}

/// Carries out what the words ask for, in an empty work folder in memory, with the bundled children.
///
/// No premise on the outside is left: whatever a mining run leaves holds so many steps over the edges, and when it is done
/// all of its lines were said and the result is that of the plain iteration.
pub fn run_in_memory<E: Source>(alloc: Global, words: &[String], edges: &mut E) -> Ran
    ensures iterates { (conf : Settings) (accepted : List Edge)
        → Asks (map string_bytes words.now) (E.left edges.old) conf accepted → (image : Image)
        → Fits (files (told_of result.site.dir)) image → HoldsIterates conf accepted image }
    ensures written { (conf : Settings) (accepted : List Edge)
        → Asks (map string_bytes words.now) (E.left edges.old) conf accepted → result.outcome ≡ Outcome.Done
        → HasWritten conf accepted None (Some []) (Some result.site.voice.said) (files (told_of result.site.dir)) }
    // The log is what jobs of the table add, from the first on, and it tells of a task that failed.
    ensures log { (conf : Settings) → Mean (map string_bytes words.now) conf
        → LogsPast (Unit {0}) bundled conf None (record { running = []; log = []; start_faults = 0 }) result.site.seen []
        result.site.given (told_of result.site.dir) result.outcome }
    ensures answers { TellsOfOutcome result.site.seen.log result.outcome }
    // A place that is named as bad isn't as it was made, and of the edges that are told none is named.
    ensures stored { (conf : Settings) (path : Names) (line : ℕ) → Mean (map string_bytes words.now) conf
        → result.outcome ≡ Outcome.BadStore path line
        → IsNotAsMade conf (files (told_of result.site.dir)) path line }
    ensures unblamed { (conf : Settings) (accepted : List Edge) (path : Names) (line : ℕ)
        → Asks (map string_bytes words.now) (E.left edges.old) conf accepted
        → result.outcome ≢ Outcome.BadStore path line }
{
    let dir = MemDir::new(alloc);
    let mut site = MemSite::new(alloc, dir, Bundled);
    let outcome = run(alloc, words, edges, &mut site);
    Ran { outcome, site }
}
