ghost use Rattle.std.specs.Prelude.{◌≡◌, ◌≢◌, ◌⊎◌, [], ℕ, List, None, Option, Some, true, map};
ghost use Rattle.std.specs.String.{string_bytes};
ghost use Rattle.dir_disk.specs.Causes.{Rose};
ghost use Rattle.dir_disk.specs.Moments.{EachImage, Through, files};
ghost use Rattle.dir_disk.specs.Says.{Say};
ghost use Rattle.dir_disk.specs.Streams.{AddsPart, AtEnd};
ghost use Rattle.graph.specs.declared.edges.Edge.{Edge};
ghost use Rattle.conf.specs.Commands.{is_mining};
ghost use Rattle.conf.specs.Meaning.{Mean};
ghost use Rattle.conf.specs.Rules.{IsLeastRefused};
ghost use Rattle.conf.specs.declared.commands.Command.TheVariants.{Plain};
ghost use Rattle.conf.specs.declared.reading.Conf.{Conf as Settings};
ghost use Rattle.job.specs.Failing.{gained};
ghost use Rattle.mining.specs.Acked.{Acks};
ghost use Rattle.mining.specs.Flow.{last_of, mining_of, most_of};
ghost use Rattle.mining.specs.Iterations.{console};
ghost use Rattle.mining.specs.Kept.{AllKept, Kept};
ghost use Rattle.flow.specs.Children.{FollowsChildren};
ghost use Rattle.flow.specs.Held.{HoldsIterates, iterates_console};
ghost use Rattle.flow.specs.Iterates.{IsLast, changed_of};
ghost use Rattle.driver.specs.Headline.{Asks, HasWritten, WhereverItStops};
ghost use Rattle.driver.specs.Logged.{LogsRun, TellsOfOutcome};
ghost use Rattle.mining.specs.Read.{HasRead};
ghost use Rattle.driver.specs.Opening.{HasRun, HasVectors, IsFrom, IsFromAny, StaysOne, first_read};
ghost use Rattle.driver.specs.Plain.{Labels};
ghost use Rattle.driver.specs.Running.{IsUnmade, bytes_for};
ghost use Rattle.driver.specs.Causes.{IsOpened, IsRefusal, MakesNone};
ghost use Rattle.mining.specs.Stored.{IsNotAsMade};
ghost use Rattle.peg_base.specs.Names.{Names};

use crate::Outcome;
use crate::running::carry_out;
use conf::laws::meanings_are_within_limits;
use dir_disk::{Site, Source};
use std::alloc::Global;

/// Carries out what the words ask for, over the edges that the source has left, or over generated ones: `plain` by
/// itself, and each other command in the work folder of the site. A form other than the base form is refused at its word.
pub fn run<E: Source, S: Site>(
    alloc: Global,
    words: &[String],
    edges: &mut E,
    site: &mut S,
) -> Outcome
    requires none_running { (S.seen site.old).running ≡ [] }
    // The headline. Where the children are the bundled ones and each image at entry is kept, each image that a stop may leave
    // holds whole iterations 0 to k, or none, each exactly so many steps over the edges, and no result but that of the last.
    ensures iterates { (conf : Settings) (accepted : List Edge)
        → Asks (map string_bytes words.now) (E.left edges.old) conf accepted → S.tells → FollowsChildren S.gives
        → AllKept (mining_of S.gives conf accepted) (files (S.told site.old))
        → WhereverItStops (HoldsIterates conf accepted) (S.told site.old) (S.told site.new) }
    // A run goes on after the greatest iteration up to which all are whole at entry. What it says is a front of the lines of
    // the plain iteration from there on.
    ensures lines { (conf : Settings) (accepted : List Edge) (k : Option ℕ) (last : ℕ)
        → Asks (map string_bytes words.now) (E.left edges.old) conf accepted → S.tells → FollowsChildren S.gives
        → AllKept (mining_of S.gives conf accepted) (files (S.told site.old))
        → IsFrom (most_of conf conf.command) (files (S.told site.old)) k → IsLast conf (changed_of conf accepted) last
        → AddsPart (S.said site.old) (S.said site.new) (iterates_console conf accepted k last) }
    // When it is done all of them were said, and each image has every iteration and the result of the plain iteration: the
    // least labels, the radii, or the ranks after so many steps.
    ensures written { (conf : Settings) (accepted : List Edge) (k : Option ℕ)
        → Asks (map string_bytes words.now) (E.left edges.old) conf accepted → S.tells → FollowsChildren S.gives
        → AllKept (mining_of S.gives conf accepted) (files (S.told site.old))
        → IsFrom (most_of conf conf.command) (files (S.told site.old)) k → result ≡ Outcome.Done
        → HasWritten conf accepted k (S.said site.old) (S.said site.new) (files (S.told site.new)) }

    // From the line on that acknowledged it each iteration is whole in each image, and so is each that was whole in each
    // image at entry.
    ensures acked { (conf : Settings) (had : List Say) → Mean (map string_bytes words.now) conf
        → is_mining conf.command ≡ true → S.tells → S.says site.old ≡ Some had
        → Acks had (S.told site.old) (S.told site.new) (S.says site.new) }
    ensures vectors { S.tells
        → Through (EachImage (HasVectors (files (S.told site.old)))) (S.told site.old) (S.told site.new) }

    // Whatever the children write: each image is kept, where each at entry is, so that the next run may stand on it; what is
    // said is a front of what the flow of these children has a run say; and when it is done, all of that was said.
    ensures kept { (conf : Settings) (accepted : List Edge)
        → Asks (map string_bytes words.now) (E.left edges.old) conf accepted
        → let mining = mining_of S.gives conf accepted in S.tells → AllKept mining (files (S.told site.old))
        → WhereverItStops (Kept mining) (S.told site.old) (S.told site.new) }
    ensures said { (conf : Settings) (accepted : List Edge) (k : Option ℕ) (l : ℕ)
        → Asks (map string_bytes words.now) (E.left edges.old) conf accepted
        → let mining = mining_of S.gives conf accepted in S.tells → AllKept mining (files (S.told site.old))
        → IsFrom (most_of conf conf.command) (files (S.told site.old)) k → last_of mining ≡ Some l
        → AddsPart (S.said site.old) (S.said site.new) (console mining k l) }
    ensures done { (conf : Settings) (accepted : List Edge) (k : Option ℕ)
        → Asks (map string_bytes words.now) (E.left edges.old) conf accepted
        → let mining = mining_of S.gives conf accepted in S.tells → AllKept mining (files (S.told site.old))
        → IsFrom (most_of conf conf.command) (files (S.told site.old)) k → result ≡ Outcome.Done
        → HasRun mining k (S.said site.old) (S.said site.new) (files (S.told site.new)) }

    // The log gained, and the children were given, what the phases of jobs of the table add, in its order, each once, and of no
    // iteration up to the one that the run goes on after; when it is done each of them was done. `plain` starts no child.
    ensures log { (conf : Settings) → Mean (map string_bytes words.now) conf
        → LogsRun S.tells S.gives conf (S.told site.old) (S.told site.new) (S.seen site.old)
        (S.seen site.new) (S.given site.old) (S.given site.new) result }
    ensures idle { (conf : Settings) → Mean (map string_bytes words.now) conf → conf.command ≡ Plain
        → S.seen site.new ≡ S.seen site.old }
    // `TaskFailed` is answered just where four attempts of that task failed, and of no lesser one of its phase.
    ensures answers { TellsOfOutcome (gained (S.seen site.old).log (S.seen site.new).log) result }

    // Whatever was there: what is whole with the same bytes in each image stays so, and no child is left running.
    ensures stays { S.tells → StaysOne (files (S.told site.old)) (files (S.told site.new)) }
    ensures none_running { (S.seen site.new).running ≡ [] }

    // The least number of a refused word is named, and then nothing was touched.
    ensures usage { (word : ℕ) → IsLeastRefused (map string_bytes words.now) word → result ≡ Outcome.Usage word }
    ensures refused { (word : ℕ) → result ≡ Outcome.Usage word
        → IsLeastRefused (map string_bytes words.now) word ⊎ IsUnmade (map string_bytes words.now) }
    ensures untouched { (word : ℕ) → result ≡ Outcome.Usage word → (edges.new ≡ edges.old) × (site.new ≡ site.old) }

    // The settings, the edges and the work folder are refused as they are judged, in the order of the opening, and else not.
    ensures opened { (conf : Settings) (accepted : List Edge)
        (asks : Asks (map string_bytes words.now) (E.left edges.old) conf accepted) → S.tells
        → IsOpened conf (files (S.told site.old)) asks.bytes result }
    // Such a refusal starts no child, and makes no folder but `conf`.
    ensures unmade { S.tells → IsRefusal result → MakesNone (files (S.told site.old)) (files (S.told site.new)) }
    ensures unstarted { IsRefusal result → S.seen site.new ≡ S.seen site.old }

    // Whatever the children write, a place that is named as bad isn't as it was made: a part of a whole folder isn't
    // there, or this is its first record that isn't of the folder's grammar, or the first that counts a change in the
    // last iteration that there can be of components.
    ensures stored { (conf : Settings) (path : Names) (line : ℕ) → Mean (map string_bytes words.now) conf
        → S.tells → result ≡ Outcome.BadStore path line
        → IsNotAsMade conf (files (S.told site.new)) path line }
    // Whatever was there and whatever the children write: when it is done, all that it read of its vectors and of its
    // result was as it is made, and the last line names the last of them.
    ensures good { (conf : Settings) (k : Option ℕ) → Mean (map string_bytes words.now) conf
        → is_mining conf.command ≡ true → S.tells
        → IsFromAny (most_of conf conf.command) (files (S.told site.old)) k → result ≡ Outcome.Done
        → HasRead conf (first_read conf.command k) (S.said site.new) (files (S.told site.new)) }
    // Where the children are the bundled ones and each image at entry is kept, none is named.
    ensures unblamed { (conf : Settings) (accepted : List Edge) (path : Names) (line : ℕ)
        → Asks (map string_bytes words.now) (E.left edges.old) conf accepted
        → S.tells → FollowsChildren S.gives → AllKept (mining_of S.gives conf accepted) (files (S.told site.old))
        → result ≢ Outcome.BadStore path line }

    // A fault is answered only where its count rose, and at any other answer a count stands.
    ensures disk { result ≡ Outcome.DiskFault → Rose (S.faults site.old) (S.faults site.new) }
    ensures read { result ≡ Outcome.ReadFault → Rose (E.faults edges.old) (E.faults edges.new) }
    ensures say { result ≡ Outcome.SayFault → Rose (S.say_faults site.old) (S.say_faults site.new) }
    ensures steady_disk { result ≢ Outcome.DiskFault → S.faults site.new ≡ S.faults site.old }
    ensures steady_read { result ≢ Outcome.ReadFault → E.faults edges.new ≡ E.faults edges.old }
    ensures steady_say { result ≢ Outcome.SayFault → S.say_faults site.new ≡ S.say_faults site.old }

    // When it is done the source was read to its end; where edges are generated it isn't touched.
    ensures end { (conf : Settings) → Mean (map string_bytes words.now) conf → conf.generated ≡ None
        → result ≡ Outcome.Done → AtEnd (E.left edges.new) }
    ensures unread { (conf : Settings) → Mean (map string_bytes words.now) conf → conf.generated ≢ None
        → edges.new ≡ edges.old }

    // `plain` says the least labels of the edges that the words have read.
    ensures plain { (conf : Settings) → Mean (map string_bytes words.now) conf → conf.command ≡ Plain
        → Labels conf.nodes (bytes_for conf (E.left edges.old)) (S.said site.old) (S.said site.new) result }
{
    meanings_are_within_limits();
    carry_out(alloc, words, edges, site)
}
