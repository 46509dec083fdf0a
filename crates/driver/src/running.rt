ghost use Rattle.std.specs.Prelude.{◌≡◌, ◌≢◌, ◌⊎◌, ◌≤◌, [], ℕ, List, None, Option, Some, true, IfSome, map};
ghost use Rattle.std.specs.String.{string_bytes};
ghost use Rattle.dir_disk.specs.Causes.{Rose};
ghost use Rattle.dir_disk.specs.Moments.{EachImage, Through, files};
ghost use Rattle.dir_disk.specs.Says.{Say};
ghost use Rattle.dir_disk.specs.Streams.{AddsPart, AtEnd};
ghost use Rattle.edge_text.specs.Edges.{edges_of};
ghost use Rattle.conf.specs.Commands.{is_mining};
ghost use Rattle.conf.specs.Limits.{IsWithinLimits};
ghost use Rattle.conf.specs.Meaning.{Mean};
ghost use Rattle.conf.specs.Rules.{IsLeastRefused};
ghost use Rattle.conf.specs.declared.commands.Command.TheVariants.{Plain};
ghost use Rattle.conf.specs.declared.commands.Form.TheVariants.{Base};
ghost use Rattle.conf.specs.declared.reading.Conf.{Conf as Settings};
ghost use Rattle.mining.specs.Acked.{Acks};
ghost use Rattle.mining.specs.Flow.{last_of, mining_of, most_of};
ghost use Rattle.mining.specs.Iterations.{console};
ghost use Rattle.mining.specs.Kept.{AllKept, Kept};
ghost use Rattle.mining.specs.Read.{HasRead};
ghost use Rattle.driver.specs.Opening.{HasRun, HasVectors, IsFrom, IsFromAny, StaysOne, first_read};
ghost use Rattle.driver.specs.Plain.{Labels};
ghost use Rattle.driver.specs.Running.{IsUnmade, bytes_for};
ghost use Rattle.driver.specs.Causes.{IsOpened, IsRefusal, MakesNone};
ghost use Rattle.driver.specs.Logged.{LogsRun, TellsOfOutcome};
ghost use Rattle.job.specs.Failing.{gained};
ghost use Rattle.mining.specs.Stored.{IsNotAsMade};
ghost use Rattle.peg_base.specs.Names.{Names};

use crate::Outcome;
use crate::mining_run::mine;
use crate::plain::label_nodes;
use conf::laws::meanings_are_within_limits;
use conf::{Command, Conf, Form, read_words};
use dir_disk::{Site, Source};
use report::GenSource;
use std::alloc::Global;
use words::bytes_at;

/// The number of the word that names a form.
fn form_word(words: &[String]) -> u32 {
    for at in 3..words.len() {
        if bytes_at(words, at).starts_with(b"form=") {
            return u32::try_from(at).unwrap_or(3);
        }
    }
    3
}

/// Mines the edges that the source has left.
fn run_mining<E: Source, S: Site>(
    alloc: Global,
    conf: &Conf,
    edges: &mut E,
    site: &mut S,
) -> Outcome
    requires limits { IsWithinLimits conf.now }
    requires mines { is_mining conf.now.command ≡ true }
    requires none_running { (S.seen site.old).running ≡ [] }
    ensures none_running { (S.seen site.new).running ≡ [] }
    ensures log { LogsRun S.tells S.gives conf.now (S.told site.old) (S.told site.new) (S.seen site.old)
        (S.seen site.new) (S.given site.old) (S.given site.new) result }
    ensures answers { TellsOfOutcome (gained (S.seen site.old).log (S.seen site.new).log) result }
    ensures no_usage { (word : ℕ) → result ≢ Outcome.Usage word }
    ensures opened { IfSome (E.left edges.old)
        (λ bytes. S.tells → IsOpened conf.now (files (S.told site.old)) bytes result) }
    ensures unmade { S.tells → IsRefusal result → MakesNone (files (S.told site.old)) (files (S.told site.new)) }
    ensures unstarted { IsRefusal result → S.seen site.new ≡ S.seen site.old }
    ensures end { result ≡ Outcome.Done → AtEnd (E.left edges.new) }
    ensures disk { result ≡ Outcome.DiskFault → Rose (S.faults site.old) (S.faults site.new) }
    ensures read { result ≡ Outcome.ReadFault → Rose (E.faults edges.old) (E.faults edges.new) }
    ensures say { result ≡ Outcome.SayFault → Rose (S.say_faults site.old) (S.say_faults site.new) }
    ensures steady_disk { result ≢ Outcome.DiskFault → S.faults site.new ≡ S.faults site.old }
    ensures steady_read { result ≢ Outcome.ReadFault → E.faults edges.new ≡ E.faults edges.old }
    ensures steady_say { result ≢ Outcome.SayFault → S.say_faults site.new ≡ S.say_faults site.old }
    ensures kept { conf.now.form ≡ Base → IfSome (E.left edges.old)
        (λ bytes. let mining = mining_of S.gives conf.now (edges_of conf.now.nodes bytes).edges in S.tells
        → AllKept mining (files (S.told site.old))
        → Through (EachImage (Kept mining)) (S.told site.old) (S.told site.new)) }
    ensures acked { (had : List Say) → S.tells → S.says site.old ≡ Some had
        → Acks had (S.told site.old) (S.told site.new) (S.says site.new) }
    ensures vectors { S.tells
        → Through (EachImage (HasVectors (files (S.told site.old)))) (S.told site.old) (S.told site.new) }
    ensures done { conf.now.form ≡ Base → IfSome (E.left edges.old)
        (λ bytes. let mining = mining_of S.gives conf.now (edges_of conf.now.nodes bytes).edges in
        (k : Option ℕ) → S.tells → AllKept mining (files (S.told site.old))
        → IsFrom (most_of conf.now conf.now.command) (files (S.told site.old)) k → result ≡ Outcome.Done
        → HasRun mining k (S.said site.old) (S.said site.new) (files (S.told site.new))) }
    ensures part { conf.now.form ≡ Base → IfSome (E.left edges.old)
        (λ bytes. let mining = mining_of S.gives conf.now (edges_of conf.now.nodes bytes).edges in
        (k : Option ℕ) (l : ℕ) → S.tells → AllKept mining (files (S.told site.old))
        → IsFrom (most_of conf.now conf.now.command) (files (S.told site.old)) k → last_of mining ≡ Some l
        → AddsPart (S.said site.old) (S.said site.new) (console mining k l)) }
    ensures stays { S.tells → StaysOne (files (S.told site.old)) (files (S.told site.new)) }
    ensures stored { (path : Names) (line : ℕ) → S.tells → conf.now.form ≡ Base
        → result ≡ Outcome.BadStore path line → IsNotAsMade conf.now (files (S.told site.new)) path line }
    ensures good { (k : Option ℕ) → S.tells
        → IsFromAny (most_of conf.now conf.now.command) (files (S.told site.old)) k → result ≡ Outcome.Done
        → HasRead conf.now (first_read conf.now.command k) (S.said site.new) (files (S.told site.new)) }
{
    match mine(alloc, site, conf, edges) {
        Ok(()) => Outcome::Done,
        Err(stop) => stop.into(),
    }
}

/// Carries out a command over the edges that the source has left.
fn run_over<E: Source, S: Site>(alloc: Global, conf: &Conf, edges: &mut E, site: &mut S) -> Outcome
    requires limits { IsWithinLimits conf.now }
    requires none_running { (S.seen site.old).running ≡ [] }
    ensures none_running { (S.seen site.new).running ≡ [] }
    ensures log { LogsRun S.tells S.gives conf.now (S.told site.old) (S.told site.new) (S.seen site.old)
        (S.seen site.new) (S.given site.old) (S.given site.new) result }
    ensures answers { TellsOfOutcome (gained (S.seen site.old).log (S.seen site.new).log) result }
    ensures idle { conf.now.command ≡ Plain → S.seen site.new ≡ S.seen site.old }
    ensures no_usage { (word : ℕ) → result ≢ Outcome.Usage word }
    ensures plain { conf.now.command ≡ Plain
        → Labels conf.now.nodes (E.left edges.old) (S.said site.old) (S.said site.new) result }
    ensures opened { is_mining conf.now.command ≡ true → IfSome (E.left edges.old)
        (λ bytes. S.tells → IsOpened conf.now (files (S.told site.old)) bytes result) }
    ensures unmade { S.tells → IsRefusal result → MakesNone (files (S.told site.old)) (files (S.told site.new)) }
    ensures unstarted { IsRefusal result → S.seen site.new ≡ S.seen site.old }
    ensures end { result ≡ Outcome.Done → AtEnd (E.left edges.new) }
    ensures disk { result ≡ Outcome.DiskFault → Rose (S.faults site.old) (S.faults site.new) }
    ensures read { result ≡ Outcome.ReadFault → Rose (E.faults edges.old) (E.faults edges.new) }
    ensures say { result ≡ Outcome.SayFault → Rose (S.say_faults site.old) (S.say_faults site.new) }
    ensures steady_disk { result ≢ Outcome.DiskFault → S.faults site.new ≡ S.faults site.old }
    ensures steady_read { result ≢ Outcome.ReadFault → E.faults edges.new ≡ E.faults edges.old }
    ensures steady_say { result ≢ Outcome.SayFault → S.say_faults site.new ≡ S.say_faults site.old }
    ensures kept { is_mining conf.now.command ≡ true → conf.now.form ≡ Base → IfSome (E.left edges.old)
        (λ bytes. let mining = mining_of S.gives conf.now (edges_of conf.now.nodes bytes).edges in S.tells
        → AllKept mining (files (S.told site.old))
        → Through (EachImage (Kept mining)) (S.told site.old) (S.told site.new)) }
    ensures acked { is_mining conf.now.command ≡ true → (had : List Say) → S.tells → S.says site.old ≡ Some had
        → Acks had (S.told site.old) (S.told site.new) (S.says site.new) }
    ensures vectors { S.tells
        → Through (EachImage (HasVectors (files (S.told site.old)))) (S.told site.old) (S.told site.new) }
    ensures done { is_mining conf.now.command ≡ true → conf.now.form ≡ Base → IfSome (E.left edges.old)
        (λ bytes. let mining = mining_of S.gives conf.now (edges_of conf.now.nodes bytes).edges in
        (k : Option ℕ) → S.tells → AllKept mining (files (S.told site.old))
        → IsFrom (most_of conf.now conf.now.command) (files (S.told site.old)) k → result ≡ Outcome.Done
        → HasRun mining k (S.said site.old) (S.said site.new) (files (S.told site.new))) }
    ensures part { is_mining conf.now.command ≡ true → conf.now.form ≡ Base → IfSome (E.left edges.old)
        (λ bytes. let mining = mining_of S.gives conf.now (edges_of conf.now.nodes bytes).edges in
        (k : Option ℕ) (l : ℕ) → S.tells → AllKept mining (files (S.told site.old))
        → IsFrom (most_of conf.now conf.now.command) (files (S.told site.old)) k → last_of mining ≡ Some l
        → AddsPart (S.said site.old) (S.said site.new) (console mining k l)) }
    ensures stays { S.tells → StaysOne (files (S.told site.old)) (files (S.told site.new)) }
    ensures stored { (path : Names) (line : ℕ) → S.tells → conf.now.form ≡ Base
        → result ≡ Outcome.BadStore path line → IsNotAsMade conf.now (files (S.told site.new)) path line }
    ensures good { is_mining conf.now.command ≡ true → (k : Option ℕ) → S.tells
        → IsFromAny (most_of conf.now conf.now.command) (files (S.told site.old)) k → result ≡ Outcome.Done
        → HasRead conf.now (first_read conf.now.command k) (S.said site.new) (files (S.told site.new)) }
{
    match conf.command {
        Command::Plain => label_nodes(alloc, conf.nodes, edges, site),
        _ => run_mining(alloc, conf, edges, site),
    }
}

/// Carries out what the words ask for; what it says of settings and bytes is said of those that the words have.
pub fn carry_out<E: Source, S: Site>(
    alloc: Global,
    words: &[String],
    edges: &mut E,
    site: &mut S,
) -> Outcome
    requires none_running { (S.seen site.old).running ≡ [] }
    // No child is left running.
    ensures none_running { (S.seen site.new).running ≡ [] }

    // The log gained what jobs of the table add, and tells of a task that failed; `plain` starts no child.
    ensures log { (conf : Settings) → Mean (map string_bytes words.now) conf
        → LogsRun S.tells S.gives conf (S.told site.old) (S.told site.new) (S.seen site.old)
        (S.seen site.new) (S.given site.old) (S.given site.new) result }
    ensures answers { TellsOfOutcome (gained (S.seen site.old).log (S.seen site.new).log) result }
    ensures idle { (conf : Settings) → Mean (map string_bytes words.now) conf → conf.command ≡ Plain
        → S.seen site.new ≡ S.seen site.old }

    // The least number of a refused word is named, and then nothing was touched.
    ensures usage { (word : ℕ) → IsLeastRefused (map string_bytes words.now) word → result ≡ Outcome.Usage word }
    ensures refused { (word : ℕ) → result ≡ Outcome.Usage word
        → IsLeastRefused (map string_bytes words.now) word ⊎ IsUnmade (map string_bytes words.now) }
    ensures untouched { (word : ℕ) → result ≡ Outcome.Usage word → (edges.new ≡ edges.old) × (site.new ≡ site.old) }

    // A fault is answered only where its count rose, and at any other answer a count stands.
    ensures disk { result ≡ Outcome.DiskFault → Rose (S.faults site.old) (S.faults site.new) }
    ensures read { result ≡ Outcome.ReadFault → Rose (E.faults edges.old) (E.faults edges.new) }
    ensures say { result ≡ Outcome.SayFault → Rose (S.say_faults site.old) (S.say_faults site.new) }
    ensures steady_disk { result ≢ Outcome.DiskFault → S.faults site.new ≡ S.faults site.old }
    ensures steady_read { result ≢ Outcome.ReadFault → E.faults edges.new ≡ E.faults edges.old }
    ensures steady_say { result ≢ Outcome.SayFault → S.say_faults site.new ≡ S.say_faults site.old }

    // `plain` says the least labels of the edges that the words have read.
    ensures plain { (conf : Settings) → Mean (map string_bytes words.now) conf → conf.command ≡ Plain
        → Labels conf.nodes (bytes_for conf (E.left edges.old)) (S.said site.old) (S.said site.new) result }

    // The settings, the edges and the work folder are refused as they are judged, and else not.
    ensures opened { (conf : Settings) → Mean (map string_bytes words.now) conf
        → is_mining conf.command ≡ true → conf.form ≡ Base → IfSome (bytes_for conf (E.left edges.old))
        (λ bytes. S.tells → IsOpened conf (files (S.told site.old)) bytes result) }
    ensures unmade { S.tells → IsRefusal result → MakesNone (files (S.told site.old)) (files (S.told site.new)) }
    ensures unstarted { IsRefusal result → S.seen site.new ≡ S.seen site.old }

    // When it is done the source was read to its end; where edges are generated it isn't touched.
    ensures end { (conf : Settings) → Mean (map string_bytes words.now) conf → conf.generated ≡ None
        → result ≡ Outcome.Done → AtEnd (E.left edges.new) }
    ensures unread { (conf : Settings) → Mean (map string_bytes words.now) conf → conf.generated ≢ None
        → edges.new ≡ edges.old }

    // Wherever the machine stops, what is left is kept, where what was there at entry is.
    ensures kept { (conf : Settings) → Mean (map string_bytes words.now) conf
        → is_mining conf.command ≡ true → conf.form ≡ Base
        → IfSome (bytes_for conf (E.left edges.old))
        (λ bytes. let mining = mining_of S.gives conf (edges_of conf.nodes bytes).edges in S.tells
        → AllKept mining (files (S.told site.old))
        → Through (EachImage (Kept mining)) (S.told site.old) (S.told site.new)) }

    // From the line on that acknowledged it each iteration is whole in each image, and so is each that was whole in each
    // image at entry.
    ensures acked { (conf : Settings) (had : List Say) → Mean (map string_bytes words.now) conf
        → is_mining conf.command ≡ true → S.tells → S.says site.old ≡ Some had
        → Acks had (S.told site.old) (S.told site.new) (S.says site.new) }
    ensures vectors { S.tells
        → Through (EachImage (HasVectors (files (S.told site.old)))) (S.told site.old) (S.told site.new) }

    // A run goes on after the greatest iteration up to which all are whole at entry. What it says is a front of what the
    // flow has it say from there, and when it is done all of that was said, and the last vector and the result stand.
    ensures said { (conf : Settings) → Mean (map string_bytes words.now) conf
        → is_mining conf.command ≡ true → conf.form ≡ Base → IfSome (bytes_for conf (E.left edges.old))
        (λ bytes. let mining = mining_of S.gives conf (edges_of conf.nodes bytes).edges in
        (k : Option ℕ) (l : ℕ) → S.tells → AllKept mining (files (S.told site.old)) → IsFrom (most_of conf conf.command) (files (S.told site.old)) k
        → last_of mining ≡ Some l → AddsPart (S.said site.old) (S.said site.new) (console mining k l)) }
    ensures done { (conf : Settings) → Mean (map string_bytes words.now) conf
        → is_mining conf.command ≡ true → conf.form ≡ Base → IfSome (bytes_for conf (E.left edges.old))
        (λ bytes. let mining = mining_of S.gives conf (edges_of conf.nodes bytes).edges in
        (k : Option ℕ) → S.tells → AllKept mining (files (S.told site.old)) → IsFrom (most_of conf conf.command) (files (S.told site.old)) k
        → result ≡ Outcome.Done → HasRun mining k (S.said site.old) (S.said site.new) (files (S.told site.new))) }

    // What is whole with the same bytes in each image stays so.
    ensures stays { S.tells → StaysOne (files (S.told site.old)) (files (S.told site.new)) }

    // A place that is named as bad isn't as it was made.
    ensures stored { (conf : Settings) (path : Names) (line : ℕ) → Mean (map string_bytes words.now) conf
        → S.tells → result ≡ Outcome.BadStore path line
        → IsNotAsMade conf (files (S.told site.new)) path line }
    // When it is done, all that it read of its vectors and of its result was as it is made.
    ensures good { (conf : Settings) (k : Option ℕ) → Mean (map string_bytes words.now) conf
        → is_mining conf.command ≡ true → S.tells
        → IsFromAny (most_of conf conf.command) (files (S.told site.old)) k → result ≡ Outcome.Done
        → HasRead conf (first_read conf.command k) (S.said site.new) (files (S.told site.new)) }
{
    meanings_are_within_limits();
    let conf = match read_words(words) {
        Ok(conf) => conf,
        Err(usage) => return Outcome::Usage { word: usage.word },
    };
    if conf.form != Form::Base {
        return Outcome::Usage {
            word: form_word(words),
        };
    }
    match conf.generated {
        Some((count, seed)) => {
            let mut source = GenSource::new(alloc, count, seed, conf.nodes);
            run_over(alloc, &conf, &mut source, site)
        }
        None => run_over(alloc, &conf, edges, site),
    }
}
