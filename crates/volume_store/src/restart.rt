// The restart of a volume's disk.
ghost use Rattle.std.specs.Prelude.{◌≡◌, ◌-◌, ◌<◌, true, false, Some, None, OnOk, OnErr, IfOk, IsTrue};
ghost use Rattle.sm_disk.specs.Disk.{Steps, IsSynced, IsCounted};
ghost use Rattle.volume_store.specs.Held.{Held, fallen, restarted, taken_side, number_of, ShowsSide};
ghost use Rattle.volume_store.specs.Maps.{Maps};

use crate::faults::VolumeFault;
use crate::held::Store;
use crate::state::State;
use sm_base::Side;
use sm_disk::Disk;
use sm_slots::Slots;

// Takes the state of the side that the slot's number tells.
fn choose(state: &mut State, after: Option<State>, same: bool) -> Side
    ensures side { taken_side result state.old after ≡ Some state.new }
    ensures before { same ≡ true → result ≡ Side.Before }
    ensures after { same ≡ false → (next : Maps) → after ≡ Some next → result ≡ Side.After }
    ensures none { after ≡ None → result ≡ Side.Before }
{
    match after {
        Some(next) if !same => {
            *state = next;
            Side::After
        }
        _ => Side::Before,
    }
}

impl<D: Disk> Store<D> {
    /// Restarts the disk and reads which record is selected. `After` comes exactly where a commit
    /// failed since the volume was opened or restarted, and its record is the selected one. The volume
    /// is then that side's, with its stable image as the active one.
    #[tactic(auto, using(crate::proofs::Shown::restart_steps))]
    pub fn restart(&mut self) -> Result<Side, VolumeFault>
        ensures ok { IfOk result (λ side. (maps : Maps) × (taken_side side self.old.maps self.old.after ≡ Some maps)
            × (self.new ≡ record { disk = self.new.disk; number = self.new.number; maps = restarted maps; after = None; up = true })) }
        ensures side { IfOk result (λ side. IsTrue (D.state self.old.disk).told →
            ShowsSide side self.old.number self.old.maps self.old.after (D.state self.old.disk).seen (D.state self.new.disk).seen) }
        ensures selected { IfOk result (λ side. IsTrue (D.state self.old.disk).told → self.new.number ≡ number_of side self.old.number) }
        ensures fault { OnErr result (self.new ≡ fallen self.old self.new.disk) }
        ensures refused { OnErr result (result ≡ Err VolumeFault.DiskFault) }
        ensures counted { OnErr result (IsCounted (D.state self.old.disk) (D.state self.new.disk)) }
        ensures image { IsTrue (D.state self.old.disk).told → (D.state self.old.disk).may_leave (D.state self.new.disk).seen }
        ensures synced { IsSynced (D.state self.new.disk) }
        ensures time { Steps (D.state self.old.disk) (D.state self.new.disk) }
    {
        self.disk.restart();
        let slots = match Slots::open(&mut self.disk) {
            Ok(slots) => slots,
            Err(_) => {
                self.up = false;
                return Err(VolumeFault::DiskFault);
            }
        };
        let same = slots.slot() == self.slots.slot();
        let side = choose(&mut self.state, self.after.take(), same);
        self.state.restart();
        self.slots = slots;
        self.up = true;
        Ok(side)
    }
}
