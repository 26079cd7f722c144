// The calls that read and write blocks.
ghost use Rattle.std.specs.Prelude.{◌≡◌, ◌⊎◌, ℕ, ◌≤◌, true, false, slice_index_or, OnOk, OnErr, IfOk, Err, IsTrue, None, Some};
ghost use Rattle.sm_disk.specs.Disk.{GoesOn, Steps, IsQuiet, IsSynced, IsCounted};
ghost use Rattle.sm_defs.specs.Image.{Block as PlainBlock, Image as PlainImage, hole, stands};
ghost use Rattle.sm_defs.specs.Volume.{tags_of};
ghost use Rattle.volume_store.specs.Held.{block_at};
ghost use Rattle.volume_store.specs.Refusals.{RefusesOrFails};
ghost use Rattle.sm_volume.specs.Mounted.{Mounted, on_disk, fallen};
ghost use Rattle.sm_volume.specs.Shown.{Selects, KeepsBlocks};
ghost use Rattle.sm_volume.specs.Assigned.{HasBlock};
ghost use Rattle.sm_defs.specs.Operations.{IsLeastFree, least_free, written};
ghost use Rattle.sm_volume.specs.Refusals.{write_refusal, read_refusal, image_seen};

use crate::volume::Volume;
use sm_base::Block;
use sm_disk::Disk;
use volume_store::{View, VolumeFault};

impl<D: Disk> Volume<D> {
    /// Writes a block of the active image, at the least free number: no block in use is overwritten.
    pub fn write(&mut self, at: u32, block: &Block) -> Result<(), VolumeFault>
        requires up { self.old.up ≡ true }

        ensures refused { RefusesOrFails (write_refusal self.old.volume at) result }
        ensures ok { OnOk result ((b : PlainBlock) × IsLeastFree self.old.volume b.tag
            × (self.new ≡ record self.old { disk = self.new.disk; volume = written self.old.volume at b })
            × (IsTrue (D.state self.old.disk).told → b.bytes ≡ block.now.0)
            × (IsTrue (D.state self.old.disk).told → block_at (D.state self.new.disk).seen b.tag ≡ block.now.0)
            × (b.tag ≡ least_free self.old.volume)) }
        ensures fault { result ≡ Err VolumeFault.DiskFault → self.new ≡ fallen self.old self.new.disk }
        ensures counted { result ≡ Err VolumeFault.DiskFault → IsCounted (D.state self.old.disk) (D.state self.new.disk) }
        ensures unchanged { (fault : VolumeFault) → result ≡ Err fault → (fault ≡ VolumeFault.DiskFault → ⊥) → self.new ≡ self.old }

        // Where it is not refused there is a free number. Only the block of the least one is changed, at any moment.
        ensures free { write_refusal self.old.volume at ≡ None → IsLeastFree self.old.volume (least_free self.old.volume) }
        ensures blocks { (n : ℕ) → IsLeastFree self.old.volume n → KeepsBlocks (λ k. k ≡ n) (D.state self.old.disk) (D.state self.new.disk) }
        ensures any_moment { GoesOn (D.state self.old.disk) (D.state self.new.disk) (Selects self.old.selected self.old.number self.old.volume) }
    {
        self.store.told();
        self.store.write(at, block)
    }

    /// Reads a block of the active image or of a snapshot's.
    pub fn read(&mut self, view: View, at: u32, into: &mut Block) -> Result<(), VolumeFault>
        requires up { self.old.up ≡ true }

        ensures refused { RefusesOrFails (read_refusal self.old.volume view at) result }
        ensures ok { OnOk result (self.new ≡ on_disk self.old self.new.disk) }
        ensures bytes { OnOk result (IsTrue (D.state self.old.disk).told → (image : PlainImage) × (image_seen self.old.volume view ≡ Some image)
            × (into.new.0 ≡ (slice_index_or image at hole).bytes)) }
        ensures fault { result ≡ Err VolumeFault.DiskFault → self.new ≡ fallen self.old self.new.disk }
        ensures counted { result ≡ Err VolumeFault.DiskFault → IsCounted (D.state self.old.disk) (D.state self.new.disk) }
        ensures unchanged { (fault : VolumeFault) → result ≡ Err fault → (fault ≡ VolumeFault.DiskFault → ⊥) → self.new ≡ self.old }
        ensures quiet { IsQuiet (D.state self.old.disk) (D.state self.new.disk) }
        ensures time { GoesOn (D.state self.old.disk) (D.state self.new.disk) (D.state self.new.disk).may_leave }
    {
        self.store.read(view, at, into)
    }

    /// Writes a block at a number that is free.
    pub fn land(&mut self, number: u32, block: &Block) -> Result<(), VolumeFault>
        requires up { self.old.up ≡ true }
        requires from_one { 1 ≤ number }
        requires within { number ≤ self.old.volume.physical }
        requires free { stands number (tags_of self.old.volume) ≡ false }

        ensures refused { OnErr result (result ≡ Err VolumeFault.DiskFault) }
        ensures ok { OnOk result (self.new ≡ on_disk self.old self.new.disk) }
        ensures block { OnOk result (IsTrue (D.state self.old.disk).told → block_at (D.state self.new.disk).seen number ≡ block.now.0) }
        ensures fault { OnErr result (self.new ≡ fallen self.old self.new.disk) }
        ensures counted { OnErr result (IsCounted (D.state self.old.disk) (D.state self.new.disk)) }
        ensures blocks { KeepsBlocks (λ k. k ≡ number) (D.state self.old.disk) (D.state self.new.disk) }
        ensures any_moment { GoesOn (D.state self.old.disk) (D.state self.new.disk) (Selects self.old.selected self.old.number self.old.volume) }
    {
        self.store.told();
        self.store.land(number, block)
    }

    /// Reads the block of a number that is used.
    pub fn fetch(&mut self, number: u32, into: &mut Block) -> Result<(), VolumeFault>
        requires up { self.old.up ≡ true }
        requires from_one { 1 ≤ number }
        requires used { stands number (tags_of self.old.volume) ≡ true }

        ensures refused { OnErr result (result ≡ Err VolumeFault.DiskFault) }
        ensures ok { OnOk result (self.new ≡ on_disk self.old self.new.disk) }
        ensures bytes { OnOk result (IsTrue (D.state self.old.disk).told → HasBlock self.old.volume (record { tag = number; bytes = into.new.0 })) }
        ensures block { OnOk result (IsTrue (D.state self.old.disk).told → into.new.0 ≡ block_at (D.state self.old.disk).seen number) }
        ensures quiet { IsQuiet (D.state self.old.disk) (D.state self.new.disk) }
        ensures time { Steps (D.state self.old.disk) (D.state self.new.disk) }
        ensures fault { OnErr result (self.new ≡ fallen self.old self.new.disk) }
        ensures counted { OnErr result (IsCounted (D.state self.old.disk) (D.state self.new.disk)) }
    {
        self.store.fetch(number, into)
    }

    /// Puts onto the medium all that was written.
    pub fn sync(&mut self) -> Result<(), VolumeFault>
        requires up { self.old.up ≡ true }

        ensures refused { OnErr result (result ≡ Err VolumeFault.DiskFault) }
        ensures ok { OnOk result (self.new ≡ on_disk self.old self.new.disk) }
        ensures synced { OnOk result (IsSynced (D.state self.new.disk)) }
        ensures seen { (D.state self.new.disk).seen ≡ (D.state self.old.disk).seen }
        ensures images { (c : _) → (D.state self.new.disk).may_leave c → (D.state self.old.disk).may_leave c }
        ensures time { Steps (D.state self.old.disk) (D.state self.new.disk) }
        ensures fault { OnErr result (self.new ≡ fallen self.old self.new.disk) }
        ensures counted { OnErr result (IsCounted (D.state self.old.disk) (D.state self.new.disk)) }
    {
        self.store.sync()
    }
}
