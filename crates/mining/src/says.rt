ghost use Rattle.std.specs.Prelude.{◌≡◌, ◌<◌, ◌≤◌, ◌^◌, ◌==◌, ℕ, List, true, OnOk, IsErrOf, IfErr};
ghost use Rattle.conf.specs.Commands.{is_mining};
ghost use Rattle.dir_disk.specs.Causes.{HasCause};
ghost use Rattle.dir_disk.specs.Moments.{IsFresh, Told, files};
ghost use Rattle.dir_disk.specs.Says.{Say};
ghost use Rattle.dir_disk.specs.Streams.{AddsPart, added};
ghost use Rattle.report.specs.Lines.{done_text, iteration_text, resumed_text};
ghost use Rattle.mining.specs.Acked.{Acks};
ghost use Rattle.mining.specs.Between.{IsSure};
ghost use Rattle.mining.specs.Stops.{IsOfMining};
ghost use Rattle.mining.specs.Failures.{IsOfNoTask};
ghost use Rattle.mining.specs.Stored.{IsNoBadStore};

use crate::place::Place;
use crate::run::Reached;
use crate::stop::Stop;
use conf::Conf;
use dir_disk::Site;
use report::{done_line, iteration_line, resumed_line};
use std::alloc::Global;

/// Says the line of iteration `k`, which is whole.
pub fn say_iteration<S: Site>(alloc: Global, site: &mut S, k: u32, changed: u64) -> Result<(), Stop>
    ensures seen { S.seen site.new ≡ S.seen site.old }
    ensures given { S.tells → S.given site.new ≡ S.given site.old }
    ensures no_task { IfErr result IsOfNoTask }
    ensures told { S.tells → S.told site.new ≡ S.told site.old }
    ensures ok { OnOk result (S.said site.new ≡ added (S.said site.old) (iteration_text k changed)) }
    ensures part { AddsPart (S.said site.old) (S.said site.new) (iteration_text k changed) }
    ensures acked { (entry : Told) (had : List Say) → S.tells → k < 10 ^ 10
        → IsSure (Place.Vector k) (files (S.told site.old)) → IsFresh (S.told site.old)
        → Acks had entry (S.told site.old) (S.says site.old)
        → Acks had entry (S.told site.new) (S.says site.new) }
    ensures faults { S.faults site.new ≡ S.faults site.old }
    ensures no_disk { ¬ IsErrOf result Stop.Disk }
    ensures say_cause { HasCause Stop.Say (S.say_faults site.old) (S.say_faults site.new) result }
    ensures err { IfErr result IsOfMining }
    ensures no_store { IfErr result IsNoBadStore }
{
    let line = iteration_line(alloc, k, changed)?;
    site.say(alloc, &line)?;
    Ok(())
}

/// Says that the run goes on after iteration `k`, up to which all are whole.
pub fn say_resumed<S: Site>(alloc: Global, site: &mut S, k: u32) -> Result<(), Stop>
    ensures seen { S.seen site.new ≡ S.seen site.old }
    ensures given { S.tells → S.given site.new ≡ S.given site.old }
    ensures no_task { IfErr result IsOfNoTask }
    ensures told { S.tells → S.told site.new ≡ S.told site.old }
    ensures ok { OnOk result (S.said site.new ≡ added (S.said site.old) (resumed_text k)) }
    ensures part { AddsPart (S.said site.old) (S.said site.new) (resumed_text k) }
    ensures acked { (entry : Told) (had : List Say) → S.tells → k < 10 ^ 10
        → ((j : ℕ) → j ≤ k → IsSure (Place.Vector j) (files (S.told site.old))) → IsFresh (S.told site.old)
        → Acks had entry (S.told site.old) (S.says site.old)
        → Acks had entry (S.told site.new) (S.says site.new) }
    ensures faults { S.faults site.new ≡ S.faults site.old }
    ensures no_disk { ¬ IsErrOf result Stop.Disk }
    ensures say_cause { HasCause Stop.Say (S.say_faults site.old) (S.say_faults site.new) result }
    ensures err { IfErr result IsOfMining }
    ensures no_store { IfErr result IsNoBadStore }
{
    let line = resumed_line(alloc, k)?;
    site.say(alloc, &line)?;
    Ok(())
}

/// Says the last line.
pub fn say_done<S: Site>(
    alloc: Global,
    site: &mut S,
    conf: &Conf,
    last: Reached,
    total: u128,
) -> Result<(), Stop>
    requires mines { is_mining conf.now.command ≡ true }
    ensures seen { S.seen site.new ≡ S.seen site.old }
    ensures given { S.tells → S.given site.new ≡ S.given site.old }
    ensures no_task { IfErr result IsOfNoTask }
    ensures told { S.tells → S.told site.new ≡ S.told site.old }
    ensures ok { OnOk result (S.said site.new ≡ added (S.said site.old) (done_text conf.now last.k (last.changed == 0) total)) }
    ensures part { AddsPart (S.said site.old) (S.said site.new) (done_text conf.now last.k (last.changed == 0) total) }
    ensures acked { (entry : Told) (had : List Say) → S.tells → IsFresh (S.told site.old)
        → Acks had entry (S.told site.old) (S.says site.old)
        → Acks had entry (S.told site.new) (S.says site.new) }
    ensures faults { S.faults site.new ≡ S.faults site.old }
    ensures no_disk { ¬ IsErrOf result Stop.Disk }
    ensures say_cause { HasCause Stop.Say (S.say_faults site.old) (S.say_faults site.new) result }
    ensures err { IfErr result IsOfMining }
    ensures no_store { IfErr result IsNoBadStore }
{
    let line = done_line(alloc, conf, last.k, last.changed == 0, total)?;
    site.say(alloc, &line)?;
    Ok(())
}
