// A volume on its disk: what each image shows of it.
ghost use Rattle.std.specs.Prelude.{◌≡◌, ◌⊎◌, ◌+◌, ◌*◌, ◌-◌, ◌≤◌, true, false, Some, OnOk, OnErr, IsTrue};
ghost use Rattle.sm_disk.specs.Disk.{GoesOn, Steps, IsQuiet, IsCounted};
ghost use Rattle.sm_disk.specs.Image.{IsOutside};
ghost use Rattle.sm_disk.specs.Spared.{Spares};
ghost use Rattle.sm_root.specs.Condition.{IsRoot};
ghost use Rattle.sm_slots.specs.Slots.{BehindSlots};
ghost use Rattle.volume_store.specs.Maps.{AreMapsOf, all_maps};
ghost use Rattle.volume_store.specs.Held.{Held, IsHeld, Shows, IsOpenBlock, on_disk, fallen, block_at, block_start};

use crate::blocks::{read_at, write_at};
use crate::faults::VolumeFault;
use crate::state::State;
use sm_base::{Block, Failed};
use sm_disk::Disk;
use sm_root::encode;
use sm_slots::Slots;
use std::alloc::Global;
use std::marker::Model;

/// A write-anywhere volume on a disk.
#[derive(Drop)]
pub struct Store<D: Disk> {
    pub(crate) disk: D,
    pub(crate) slots: Slots,
    pub(crate) state: State,
    // What a commit was to make of the volume that failed: one of the two is on the disk.
    pub(crate) after: Option<State>,
    pub(crate) up: bool,
}

impl<D: Disk> Model for Store<D> {
    ghost use Rattle.volume_store.specs.Held.{Held, IsHeld};

    ghost Value = { Held D };

    ghost view = { λ s. record { disk = s.disk; number = s.slots; maps = s.state; after = s.after; up = s.up } };

    ghost invariant = { λ s. IsHeld D.state (record { disk = s.disk; number = s.slots; maps = s.state; after = s.after; up = s.up }) };
}

impl<D: Disk> Store<D> {
    /// What holds of every volume, whenever it is asked.
    pub fn told(&self)
        ensures held { IsHeld D.state self.now }
        ensures good { IsRoot self.now.maps.root }
        ensures maps { AreMapsOf self.now.maps.root.logical self.now.maps.root.physical (all_maps self.now.maps.root self.now.maps.active) }
    {
        let _ = self.state.root();
    }

    /// Whether no call has failed on the disk since the volume was made, opened or restarted.
    pub fn is_up(&self) -> bool
        ensures { result ≡ self.now.up }
    {
        self.up
    }

    // Makes the next state the volume's, by one commit.
    pub(crate) fn commit(&mut self, alloc: Global, next: State) -> Result<(), VolumeFault>
        requires up { self.old.up ≡ true }
        requires good { IsRoot next.root }
        requires logical { next.root.logical ≡ self.old.maps.root.logical }
        requires physical { next.root.physical ≡ self.old.maps.root.physical }
        requires numbered { next.root.number ≡ self.old.maps.root.number }

        ensures ok { OnOk result (self.new ≡ record self.old { disk = self.new.disk; maps = next; number = 1 - self.old.number }) }
        ensures any_moment { GoesOn (D.state self.old.disk) (D.state self.new.disk) (λ c.
            Shows self.old.number self.old.maps.root (D.state self.old.disk).seen c
            ⊎ Shows (1 - self.old.number) next.root (D.state self.old.disk).seen c) }
        ensures spared { Spares BehindSlots (D.state self.old.disk) (D.state self.new.disk) }
        ensures causes { OnErr result ((result ≡ Err VolumeFault.NoMemory) ⊎ (result ≡ Err VolumeFault.DiskFault)) }
        ensures no_memory { result ≡ Err VolumeFault.NoMemory → self.new ≡ self.old }
        ensures fault { result ≡ Err VolumeFault.DiskFault → self.new ≡ record self.old { disk = self.new.disk; after = Some next; up = false } }
        ensures counted { result ≡ Err VolumeFault.DiskFault → IsCounted (D.state self.old.disk) (D.state self.new.disk) }
    {
        let bytes = encode(alloc, next.root())?;
        match self.slots.commit(&mut self.disk, &bytes) {
            Ok(()) => {
                self.state = next;
                Ok(())
            }
            Err(_) => {
                self.after = Some(next);
                self.up = false;
                Err(VolumeFault::DiskFault)
            }
        }
    }

    // Writes a block that no restart needs.
    pub(crate) fn write_block(&mut self, number: u32, block: &Block) -> Result<(), Failed>
        requires up { self.old.up ≡ true }
        requires open { IsOpenBlock self.old.maps number }

        ensures ok { OnOk result (self.new ≡ on_disk self.old self.new.disk) }
        ensures block { OnOk result (IsTrue (D.state self.old.disk).told → block_at (D.state self.new.disk).seen number ≡ block.now.0) }
        ensures spared { Spares (IsOutside (block_start number) 4096) (D.state self.old.disk) (D.state self.new.disk) }
        ensures any_moment { GoesOn (D.state self.old.disk) (D.state self.new.disk)
            (Shows self.old.number self.old.maps.root (D.state self.old.disk).seen) }
        ensures fault { OnErr result (self.new ≡ fallen self.old self.new.disk) }
        ensures counted { OnErr result (IsCounted (D.state self.old.disk) (D.state self.new.disk)) }
    {
        let written = write_at(&mut self.disk, number, &block.0);
        self.up = written.is_ok();
        written
    }

    // Reads a block.
    pub(crate) fn read_block(&mut self, number: u32, into: &mut Block) -> Result<(), Failed>
        requires up { self.old.up ≡ true }
        requires from_one { 1 ≤ number }
        requires within { number ≤ self.old.maps.root.physical }

        ensures ok { OnOk result (self.new ≡ on_disk self.old self.new.disk) }
        ensures bytes { OnOk result (IsTrue (D.state self.old.disk).told → into.new.0 ≡ block_at (D.state self.old.disk).seen number) }
        ensures quiet { IsQuiet (D.state self.old.disk) (D.state self.new.disk) }
        ensures time { Steps (D.state self.old.disk) (D.state self.new.disk) }
        ensures fault { OnErr result (self.new ≡ fallen self.old self.new.disk) }
        ensures counted { OnErr result (IsCounted (D.state self.old.disk) (D.state self.new.disk)) }
    {
        let read = read_at(&mut self.disk, number, &mut into.0);
        self.up = read.is_ok();
        read
    }
}
