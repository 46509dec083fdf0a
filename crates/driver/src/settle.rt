ghost use Rattle.std.specs.Prelude.{◌≡◌, [], OnOk, IsErrOf, IfErr};
ghost use Rattle.dir_disk.specs.Causes.{HasCause};
ghost use Rattle.dir_disk.specs.Moments.{EachImage, Through, files};
ghost use Rattle.dir_disk.specs.State.{Fits};
ghost use Rattle.driver.specs.Opening.{IsSettled};
ghost use Rattle.mining.specs.Stops.{IsOfDisk, IsOfJobs};

use dir_disk::Site;
use mining::Stop;
use peg_base::Path;
use std::alloc::Global;

/// Settles the whole work folder.
pub fn settle_all<S: Site>(alloc: Global, site: &mut S) -> Result<(), Stop>
    requires none_running { (S.seen site.old).running ≡ [] }
    ensures none_running { (S.seen site.new).running ≡ [] }
    ensures seen { S.seen site.new ≡ S.seen site.old }
    ensures given { S.tells → S.given site.new ≡ S.given site.old }
    ensures settled { S.tells → OnOk result (IsSettled (files (S.told site.old)) (files (S.told site.new))) }
    // A stop leaves nothing that it might not have left before.
    ensures images { S.tells
        → Through (EachImage (Fits (files (S.told site.old)))) (S.told site.old) (S.told site.new) }
    ensures said { S.said site.new ≡ S.said site.old }
    ensures says { S.says site.new ≡ S.says site.old }
    ensures say_faults { S.say_faults site.new ≡ S.say_faults site.old }
    ensures cause { HasCause Stop.Disk (S.faults site.old) (S.faults site.new) result }
    ensures err { IfErr result IsOfJobs }
    ensures of_disk { IfErr result IsOfDisk }
{
    let top = Path::root(alloc);
    site.settle(alloc, &top)?;
    Ok(())
}
