// The calls that commit.
ghost use Rattle.std.specs.Prelude.{◌≡◌, true, false, None, Err};
ghost use Rattle.sm_defs.specs.Volume.{Volume as Plain, has};
ghost use Rattle.sm_volume.specs.Mounted.{Mounted};
ghost use Rattle.sm_volume.specs.Seen.{image_of};
ghost use Rattle.sm_volume.specs.Assigned.{snapped, adopted, IsReverted, CanAdopt, snapshot_of};
ghost use Rattle.sm_defs.specs.Operations.{settled, removed, writable};
ghost use Rattle.volume_store.specs.Refusals.{Refuses};
ghost use Rattle.sm_volume.specs.Refusals.{revert_refusal, cp_refusal, snapshot_refusal, remove_refusal, adopt_refusal};
ghost use Rattle.sm_volume.specs.Commits.{Commits};

use crate::volume::Volume;
use sm_base::{Ident, Label, SnapName};
use sm_disk::Disk;
use std::alloc::Global;
use volume_store::{Head, VolumeFault};

impl<D: Disk> Volume<D> {
    /// A consistency point: the active image becomes the stable one.
    pub fn cp(&mut self, alloc: Global) -> Result<(), VolumeFault>
        requires up { self.old.up ≡ true }

        ensures refused { Refuses (cp_refusal self.old.volume) result }
        ensures commits { Commits D.state self.old (settled self.old.volume) result self.new }
    {
        self.store.cp(alloc)
    }

    /// Makes a destination a volume that clients write.
    pub fn make_writable(&mut self, alloc: Global) -> Result<(), VolumeFault>
        requires up { self.old.up ≡ true }

        ensures refused { Refuses None result }
        ensures commits { Commits D.state self.old (writable self.old.volume) result self.new }
    {
        self.store.make_writable(alloc)
    }

    /// A consistency point, and a snapshot of it. The volume has no snapshot of the identity.
    pub fn snapshot(
        &mut self,
        alloc: Global,
        ident: Ident,
        name: SnapName,
        label: Option<Label>,
        time: u64,
        made: u32,
    ) -> Result<(), VolumeFault>
        requires up { self.old.up ≡ true }
        requires new { has self.old.volume.snapshots ident ≡ false }

        ensures refused { Refuses (snapshot_refusal self.old.volume ident name) result }
        ensures commits { Commits D.state self.old (snapped self.old.volume (record { ident = ident; name = name; label = label; time = time; made = made })) result self.new }
    {
        self.store.snapshot(alloc, ident, name, label, time, made)
    }

    /// Drops these snapshots; `drops` is read as a set.
    pub fn remove(&mut self, alloc: Global, drops: &[Ident]) -> Result<(), VolumeFault>
        requires up { self.old.up ≡ true }

        ensures refused { Refuses (remove_refusal self.old.volume drops.now) result }
        ensures commits { Commits D.state self.old (removed self.old.volume drops.now) result self.new }
    {
        self.store.remove(alloc, drops)
    }

    /// Makes a destination of the volume, with the image of one of its snapshots as the active and the
    /// stable one. With `drop_newer` the snapshots behind that one go.
    pub fn revert(
        &mut self,
        alloc: Global,
        ident: Ident,
        drop_newer: bool,
        family: u64,
    ) -> Result<(), VolumeFault>
        requires up { self.old.up ≡ true }

        ensures refused { Refuses (revert_refusal self.old.volume ident) result }
        ensures unchanged { result ≡ Err VolumeFault.NoSnapshot → self.new ≡ self.old }
        ensures commits { has self.old.volume.snapshots ident ≡ true → (next : Plain) × IsReverted self.old.volume ident drop_newer family next × Commits D.state self.old next result self.new }
    {
        self.store.revert(alloc, ident, drop_newer, family)
    }

    /// Takes over an image whose blocks have landed at the numbers of `map`: a new snapshot behind the
    /// others, of which those in `drops` go. Its image becomes the active and the stable one.
    pub fn adopt(
        &mut self,
        alloc: Global,
        head: Head,
        map: Vec<u32>,
        family: u64,
        drops: &[Ident],
    ) -> Result<(), VolumeFault>
        requires up { self.old.up ≡ true }
        requires new { has self.old.volume.snapshots head.ident ≡ false }
        requires fits { CanAdopt self.old.volume map.items drops.now }

        ensures refused { Refuses (adopt_refusal self.old.volume (snapshot_of head (image_of (D.state self.old.disk).seen map.items)) drops.now) result }
        ensures commits { Commits D.state self.old (adopted self.old.volume (snapshot_of head (image_of (D.state self.old.disk).seen map.items)) family drops.now) result self.new }
    {
        self.store.told();
        self.store.adopt(alloc, head, map, family, drops)
    }
}
