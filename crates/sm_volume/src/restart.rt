// The restart of a volume's disk.
ghost use Rattle.std.specs.Prelude.{◌≡◌, OnErr, IfOk, Err, IsTrue};
ghost use Rattle.sm_disk.specs.Disk.{Steps, IsSynced, IsCounted};
ghost use Rattle.sm_volume.specs.Mounted.{Mounted};
ghost use Rattle.sm_volume.specs.Restarted.{IsRestarted, IsStillDown};
ghost use Rattle.sm_volume.specs.Shown.{SelectsSide};

use crate::volume::Volume;
use sm_base::Side;
use sm_disk::Disk;
use volume_store::VolumeFault;

impl<D: Disk> Volume<D> {
    /// Restarts the disk and reads which of its two states is selected. `After` comes exactly where a
    /// commit failed since the volume was opened or restarted, and its state is the selected one. The
    /// volume is then that side's, with its stable image as the active one.
    pub fn restart(&mut self) -> Result<Side, VolumeFault>
        ensures ok { IfOk result (λ side. IsRestarted D.state self.old side self.new) }
        ensures side { IfOk result (λ side. IsTrue (D.state self.old.disk).told → SelectsSide side self.old (D.state self.new.disk).seen) }
        ensures fault { OnErr result (IsStillDown D.state self.old self.new) }
        ensures refused { OnErr result (result ≡ Err VolumeFault.DiskFault) }
        ensures counted { OnErr result (IsCounted (D.state self.old.disk) (D.state self.new.disk)) }
        ensures image { IsTrue (D.state self.old.disk).told → (D.state self.old.disk).may_leave (D.state self.new.disk).seen }
        ensures synced { IsSynced (D.state self.new.disk) }
        ensures time { Steps (D.state self.old.disk) (D.state self.new.disk) }
    {
        self.store.told();
        self.store.restart()
    }
}
