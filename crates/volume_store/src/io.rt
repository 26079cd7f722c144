// The calls that read and write blocks.
ghost use Rattle.std.specs.Prelude.{◌≡◌, ◌⊎◌, ℕ, ◌+◌, ◌*◌, ◌<◌, ◌≤◌, true, false, Some, None, slice_index, slice_set, List, OnOk, OnErr, IfOk, IsTrue};
ghost use Rattle.sm_disk.specs.Image.{IsOutside};
ghost use Rattle.sm_disk.specs.Disk.{GoesOn, Steps, IsQuiet, IsSynced, IsCounted};
ghost use Rattle.sm_disk.specs.Spared.{Spares};
ghost use Rattle.volume_store.specs.Held.{Held, Shows, IsOpenBlock, on_disk, fallen, block_at, block_start, bytes_at};
ghost use Rattle.sm_defs.specs.Image.{hole};
ghost use Rattle.volume_store.specs.Maps.{IsLeastFree, AreFree, AreUsed, all_maps, held_maps, uses};
ghost use Rattle.volume_store.specs.Refusals.{RefusesOrFails, write_refusal, read_refusal, map_seen, used_of, has_snapshot};
ghost use Rattle.sm_defs.specs.Words.{Among};
ghost use Rattle.sm_root.specs.declared.root.RootSnapshot.{RootSnapshot};

use crate::calls::has_snapshot;
use crate::faults::VolumeFault;
use crate::held::Store;
use sm_base::{Block, Ident, Kind};
use sm_bits::BitMap;
use sm_disk::Disk;
use sm_root::Root;
use sm_space::Space;

/// Which image of a volume is read.
#[derive(Clone, Copy, Debug, PartialEq, Eq)]
pub enum View {
    /// What was written last.
    Active,
    /// That of a snapshot.
    Of(Ident),
}

impl<D: Disk> Store<D> {
    /// What the disk keeps of the volume beside its blocks.
    pub fn root(&self) -> &Root
        ensures { result.now ≡ self.now.maps.root }
    {
        self.state.root()
    }

    /// How many physical blocks the active image, the stable one and the snapshots use.
    pub fn used(&self) -> u32
        ensures value { result ≡ used_of self.now.maps }
        ensures within { result ≤ self.now.maps.root.physical }
    {
        self.state.used()
    }

    /// The numbers that no map uses: each from 1 to the physical size is in it or used.
    pub fn space(&self) -> &Space
        ensures { AreFree result.now self.now.maps.root.physical (all_maps self.now.maps.root self.now.maps.active) }
    {
        self.state.space()
    }

    /// The numbers that the snapshots use, and 0.
    pub fn held(&self) -> &BitMap
        ensures { AreUsed result.now self.now.maps.root.physical (held_maps self.now.maps.root) }
    {
        self.state.held()
    }

    /// Whether the volume has a snapshot of the identity.
    pub fn has_snapshot(&self, ident: Ident) -> bool
        ensures value { result ≡ has_snapshot self.now.maps.root.snapshots ident }
        ensures new { result ≡ false → (s : RootSnapshot) → Among self.now.maps.root.snapshots s → ¬ (s.ident ≡ ident) }
    {
        has_snapshot(self.state.root().snapshots.as_slice(), ident)
    }

    /// Writes a block of the active image, at the least free number: no block in use is overwritten.
    pub fn write(&mut self, at: u32, block: &Block) -> Result<(), VolumeFault>
        requires up { self.old.up ≡ true }

        ensures refused { RefusesOrFails (write_refusal self.old.maps at) result }
        ensures ok { OnOk result ((n : ℕ) × IsLeastFree self.old.maps n
            × (self.new ≡ record self.old { disk = self.new.disk; maps = record self.old.maps { active = slice_set self.old.maps.active at n } })
            × (IsTrue (D.state self.old.disk).told → block_at (D.state self.new.disk).seen n ≡ block.now.0)) }
        ensures fault { result ≡ Err VolumeFault.DiskFault → self.new ≡ fallen self.old self.new.disk }
        ensures counted { result ≡ Err VolumeFault.DiskFault → IsCounted (D.state self.old.disk) (D.state self.new.disk) }
        ensures unchanged { (fault : VolumeFault) → result ≡ Err fault → (fault ≡ VolumeFault.DiskFault → ⊥) → self.new ≡ self.old }

        // Where it is not refused there is a free number. Only the block of the least one is changed, at any moment.
        ensures free { write_refusal self.old.maps at ≡ None → (n : ℕ) × IsLeastFree self.old.maps n }
        ensures spared { (n : ℕ) → IsLeastFree self.old.maps n → Spares (IsOutside (block_start n) 4096) (D.state self.old.disk) (D.state self.new.disk) }
        ensures any_moment { GoesOn (D.state self.old.disk) (D.state self.new.disk)
            (Shows self.old.number self.old.maps.root (D.state self.old.disk).seen) }
    {
        if self.state.root.kind == Kind::Dp {
            return Err(VolumeFault::ReadOnly);
        }
        if at >= self.state.root.logical {
            return Err(VolumeFault::BadBlock);
        }
        let Some(number) = self.state.free_number() else {
            return Err(VolumeFault::NoSpace);
        };
        self.write_block(number, block)?;
        self.state.put(at, number);
        Ok(())
    }

    /// Reads a block of the active image or of a snapshot's.
    pub fn read(&mut self, view: View, at: u32, into: &mut Block) -> Result<(), VolumeFault>
        requires up { self.old.up ≡ true }

        ensures refused { RefusesOrFails (read_refusal self.old.maps view at) result }
        ensures ok { OnOk result (self.new ≡ on_disk self.old self.new.disk) }
        ensures bytes { OnOk result (IsTrue (D.state self.old.disk).told → (numbers : List ℕ) × (map_seen self.old.maps view ≡ Some numbers)
            × (into.new.0 ≡ bytes_at (D.state self.old.disk).seen (slice_index numbers at))) }
        ensures fault { result ≡ Err VolumeFault.DiskFault → self.new ≡ fallen self.old self.new.disk }
        ensures counted { result ≡ Err VolumeFault.DiskFault → IsCounted (D.state self.old.disk) (D.state self.new.disk) }
        ensures unchanged { (fault : VolumeFault) → result ≡ Err fault → (fault ≡ VolumeFault.DiskFault → ⊥) → self.new ≡ self.old }
        ensures quiet { IsQuiet (D.state self.old.disk) (D.state self.new.disk) }
        ensures time { GoesOn (D.state self.old.disk) (D.state self.new.disk) (D.state self.new.disk).may_leave }
    {
        let number = self.state.number_seen(view, at)?;
        if number == 0 {
            clear(into);
            return Ok(());
        }
        self.read_block(number, into)?;
        Ok(())
    }

    /// Writes a block at a number that is free.
    pub fn land(&mut self, number: u32, block: &Block) -> Result<(), VolumeFault>
        requires up { self.old.up ≡ true }
        requires from_one { 1 ≤ number }
        requires within { number ≤ self.old.maps.root.physical }
        requires free { uses (all_maps self.old.maps.root self.old.maps.active) number ≡ false }

        ensures refused { OnErr result (result ≡ Err VolumeFault.DiskFault) }
        ensures ok { OnOk result (self.new ≡ on_disk self.old self.new.disk) }
        ensures block { OnOk result (IsTrue (D.state self.old.disk).told → block_at (D.state self.new.disk).seen number ≡ block.now.0) }
        ensures fault { OnErr result (self.new ≡ fallen self.old self.new.disk) }
        ensures counted { OnErr result (IsCounted (D.state self.old.disk) (D.state self.new.disk)) }
        ensures spared { Spares (IsOutside (block_start number) 4096) (D.state self.old.disk) (D.state self.new.disk) }
        ensures any_moment { GoesOn (D.state self.old.disk) (D.state self.new.disk)
            (Shows self.old.number self.old.maps.root (D.state self.old.disk).seen) }
    {
        self.write_block(number, block)?;
        Ok(())
    }

    /// Reads the block of a number that is used.
    pub fn fetch(&mut self, number: u32, into: &mut Block) -> Result<(), VolumeFault>
        requires up { self.old.up ≡ true }
        requires from_one { 1 ≤ number }
        requires used { uses (all_maps self.old.maps.root self.old.maps.active) number ≡ true }

        ensures refused { OnErr result (result ≡ Err VolumeFault.DiskFault) }
        ensures ok { OnOk result (self.new ≡ on_disk self.old self.new.disk) }
        ensures bytes { OnOk result (IsTrue (D.state self.old.disk).told → into.new.0 ≡ block_at (D.state self.old.disk).seen number) }
        ensures quiet { IsQuiet (D.state self.old.disk) (D.state self.new.disk) }
        ensures time { Steps (D.state self.old.disk) (D.state self.new.disk) }
        ensures fault { OnErr result (self.new ≡ fallen self.old self.new.disk) }
        ensures counted { OnErr result (IsCounted (D.state self.old.disk) (D.state self.new.disk)) }
    {
        self.state.used_number(number);
        self.read_block(number, into)?;
        Ok(())
    }

    /// Puts onto the medium all that was written.
    pub fn sync(&mut self) -> Result<(), VolumeFault>
        requires up { self.old.up ≡ true }

        ensures refused { OnErr result (result ≡ Err VolumeFault.DiskFault) }
        ensures ok { OnOk result (self.new ≡ on_disk self.old self.new.disk) }
        ensures synced { OnOk result (IsSynced (D.state self.new.disk)) }
        ensures seen { (D.state self.new.disk).seen ≡ (D.state self.old.disk).seen }
        ensures images { (c : _) → (D.state self.new.disk).may_leave c → (D.state self.old.disk).may_leave c }
        ensures time { Steps (D.state self.old.disk) (D.state self.new.disk) }
        ensures fault { OnErr result (self.new ≡ fallen self.old self.new.disk) }
        ensures counted { OnErr result (IsCounted (D.state self.old.disk) (D.state self.new.disk)) }
    {
        let synced = self.disk.sync();
        self.up = synced.is_ok();
        synced?;
        Ok(())
    }

    /// How often the disk has failed.
    pub fn faults(&self) -> u64
        ensures { result ≡ (D.state self.now.disk).faults }
    {
        self.disk.faults()
    }

    /// The disk.
    pub fn into_disk(self) -> D
        ensures { result ≡ self.disk }
    {
        let Store {
            disk,
            slots: _,
            state: _,
            after: _,
            up: _,
        } = self;
        disk
    }
}

// Makes a block one of zeros.
fn clear(into: &mut Block)
    ensures { into.new.0 ≡ hole.bytes }
{
    into.0 = [0; 4096];
}
