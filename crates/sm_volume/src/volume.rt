// A volume, and what holds of it.
ghost use Rattle.std.specs.Prelude.{◌≡◌, ◌≤◌};

use sm_base::Ident;
use sm_bits::BitMap;
use sm_disk::Disk;
use sm_root::Root;
use sm_space::Space;
use std::marker::Model;
use volume_store::Store;

/// A write-anywhere volume on a disk.
#[derive(Drop)]
pub struct Volume<D: Disk> {
    pub(crate) store: Store<D>,
}

impl<D: Disk> Model for Volume<D> {
    ghost use Rattle.sm_volume.specs.Mounted.{Mounted, mounted};

    ghost Value = { Mounted D };

    ghost view = { λ s. mounted D.state s.store };
}

impl<D: Disk> Volume<D> {
    ghost use Rattle.sm_defs.specs.Volume.{has, used};
    ghost use Rattle.sm_volume.specs.Seen.{root_of};
    ghost use Rattle.sm_volume.specs.Kept.{IsKept};
    ghost use Rattle.sm_volume.specs.Numbers.{AreFreeOn, AreHeldOn};

    /// What holds of every volume, whenever it is asked.
    pub fn told(&self)
        ensures { IsKept D.state self.now }
    {
        self.store.told();
    }

    /// Whether no call has failed on the disk since the volume was made, opened or restarted: only
    /// then another call than a restart may be made.
    pub fn is_up(&self) -> bool
        ensures { result ≡ self.now.up }
    {
        self.store.is_up()
    }

    /// What the disk keeps of the volume beside its blocks.
    pub fn root(&self) -> &Root
        ensures { result.now ≡ root_of self.now.number self.now.volume }
    {
        self.store.root()
    }

    /// Whether the volume has a snapshot of the identity.
    pub fn has_snapshot(&self, ident: Ident) -> bool
        ensures { result ≡ has self.now.volume.snapshots ident }
    {
        self.store.has_snapshot(ident)
    }

    /// How many physical blocks the active image, the stable one and the snapshots use.
    pub fn used(&self) -> u32
        ensures value { result ≡ used self.now.volume }
        ensures within { result ≤ self.now.volume.physical }
    {
        self.store.used()
    }

    /// The numbers of the blocks that no image of the volume uses.
    pub fn space(&self) -> &Space
        ensures { AreFreeOn result.now self.now.volume }
    {
        self.store.space()
    }

    /// The numbers of the blocks that the volume's snapshots use, and 0.
    pub fn held(&self) -> &BitMap
        ensures { AreHeldOn result.now self.now.volume }
    {
        self.store.held()
    }

    /// How often the disk has failed.
    pub fn faults(&self) -> u64
        ensures { result ≡ (D.state self.now.disk).faults }
    {
        self.store.faults()
    }

    /// The disk.
    pub fn into_disk(self) -> D
        ensures { result ≡ self.disk }
    {
        self.store.into_disk()
    }
}
