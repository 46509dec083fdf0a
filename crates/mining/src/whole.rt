ghost use Rattle.std.specs.Prelude.{◌≡◌, [], true, false, IfOk, OnOk, IfErr};
ghost use Rattle.dir_disk.specs.Causes.{HasCause};
ghost use Rattle.dir_disk.specs.Moments.{Both, IsFresh, Through, files};
ghost use Rattle.committer.specs.Folders.{IsUnmarked};
ghost use Rattle.mining.specs.Places.{folder_of, IsInTable};
ghost use Rattle.mining.specs.Between.{AllFirm, IsSure};
ghost use Rattle.mining.specs.Stops.{IsOfDisk, IsOfJobs};
ghost use Rattle.mining.specs.Failures.{IsOfNoTask};

use crate::place::Place;
use crate::stop::Stop;
use dir_disk::Site;
use std::alloc::Global;

/// Whether a folder is whole.
pub fn has<S: Site>(alloc: Global, site: &mut S, place: Place) -> Result<bool, Stop>
    requires is_there { IsInTable place }
    requires none_running { (S.seen site.old).running ≡ [] }
    requires firm { S.tells → AllFirm (files (S.told site.old)) }
    ensures none_running { (S.seen site.new).running ≡ [] }
    ensures seen { S.seen site.new ≡ S.seen site.old }
    ensures given { S.tells → S.given site.new ≡ S.given site.old }
    ensures no_task { IfErr result IsOfNoTask }
    ensures stands { S.tells
        → Through (Both (λ state. state ≡ files (S.told site.old))) (S.told site.old) (S.told site.new) }
    ensures firm { S.tells → AllFirm (files (S.told site.new)) }
    ensures yes { S.tells → IfOk result (λ whole. whole ≡ true → IsSure place (files (S.told site.new))) }
    ensures no { S.tells → IfOk result (λ whole. whole ≡ false → IsUnmarked (folder_of place) (files (S.told site.new))) }
    // Its last step is a call of the directory, so what is said next has a moment of its own.
    ensures fresh { S.tells → OnOk result (IsFresh (S.told site.new)) }
    ensures said { S.said site.new ≡ S.said site.old }
    ensures says { S.says site.new ≡ S.says site.old }
    ensures say_faults { S.say_faults site.new ≡ S.say_faults site.old }
    ensures cause { HasCause Stop.Disk (S.faults site.old) (S.faults site.new) result }
    ensures err { IfErr result IsOfJobs }
    ensures of_disk { IfErr result IsOfDisk }
{
    let mark = place.mark(alloc)?;
    let size = site.size(alloc, &mark)?;
    Ok(size.is_some())
}
