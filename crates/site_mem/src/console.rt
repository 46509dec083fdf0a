use crate::mem_site::MemSite;
use crate::roles::Roles;
use dir_disk::{Console, SayFault};
use std::alloc::Global;

impl<R: Roles + Drop> Console for MemSite<R> {
    ghost use Rattle.std.specs.Prelude.{List, Some};
    ghost use Rattle.dir_disk.specs.Children.{Given, Seen};
    ghost use Rattle.dir_disk.specs.Moments.{clock};
    ghost use Rattle.dir_mem.specs.declared.mem_dir.MemDir.{MemDir};
    ghost use Rattle.dir_mem.specs.Memory.{told_of};
    ghost use Rattle.dir_disk.specs.Causes.{HasCause};
    ghost use Rattle.dir_disk.specs.Says.{with_say};
    ghost use Rattle.dir_disk.specs.Streams.{AddsPart, added};
    ghost use Rattle.std.specs.Prelude.{◌≡◌, OnOk, OnErr, IsErrOf};
    ghost use Rattle.site_mem.specs.Plans.{Planned};
    ghost use Rattle.site_mem.specs.Voices.{FailsIf, is_muted};

    ghost said = { λ site. Some site.voice.said };

    ghost says = { λ site. Some site.voice.says };

    ghost moment = { λ site. clock (told_of site.dir) };

    ghost say_faults = { λ site. site.voice.faults };

    ghost Beside = { MemDir × Seen × List Given × Planned };

    ghost beside = { λ site. (site.dir, site.seen, site.given, site.plan) };

    fn say(&mut self, alloc: Global, bytes: &[u8]) -> Result<(), SayFault>
        ensures ok { OnOk result (Some self.new.voice.said ≡ added (Some self.old.voice.said) bytes.now) }
        ensures part { AddsPart (Some self.old.voice.said) (Some self.new.voice.said) bytes.now }
        ensures no_memory { IsErrOf result SayFault.NoMemory → Some self.new.voice.said ≡ Some self.old.voice.said }
        ensures says { Some self.new.voice.says ≡ with_say bytes.now (clock (told_of self.old.dir)) result (Some self.old.voice.says) }
        ensures dir { self.new.dir ≡ self.old.dir }
        ensures seen { self.new.seen ≡ self.old.seen }
        ensures given { self.new.given ≡ self.old.given }
        ensures plan { self.new.plan ≡ self.old.plan }
        ensures mute { self.new.voice.mute ≡ self.old.voice.mute }
        ensures cause { HasCause SayFault.Failed self.old.voice.faults self.new.voice.faults result }
        ensures steady { OnOk result (self.new.voice.faults ≡ self.old.voice.faults) }
        ensures uncounted { IsErrOf result SayFault.NoMemory → self.new.voice.faults ≡ self.old.voice.faults }

        // It fails just where it is muted, and then says nothing.
        ensures fails { FailsIf (is_muted self.old.voice) result }
        ensures err { OnErr result (self.new.voice.said ≡ self.old.voice.said) }
    {
        let moment = self.dir.calls();
        self.voice.say(alloc, bytes, moment)
    }
}
