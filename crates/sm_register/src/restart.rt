// The restart of a register's disk.
ghost use Rattle.std.specs.Prelude.{◌≡◌, true, false, Some, None};
ghost use Rattle.sm_register.specs.Restarted.{Restarts};
ghost use Rattle.sm_register.specs.Turned.{of_side};

use crate::record::Record;
use crate::register::Register;
use sm_base::{Failed, Side};
use sm_disk::Disk;
use sm_slots::Slots;

// Takes the value of the side that the slot's number tells.
fn choose<R: Drop>(held: &mut R, after: Option<R>, same: bool) -> Side
    ensures side { of_side result held.old after ≡ Some held.new }
    ensures before { same ≡ true → result ≡ Side.Before }
    ensures after { same ≡ false → (next : _) → after ≡ Some next → result ≡ Side.After }
    ensures none { after ≡ None → result ≡ Side.Before }
{
    match after {
        Some(next) if !same => {
            *held = next;
            Side::After
        }
        _ => Side::Before,
    }
}

impl<D: Disk, R: Record + Drop> Register<D, R> {
    /// Restarts the disk and reads which slot is selected. `After` comes exactly where a commit failed
    /// since the register was made, opened or restarted, and its value is the selected one. The value is
    /// then that side's. It takes no memory.
    ///
    /// # Errors
    ///
    /// Only where the disk's count of faults rose in this call. The disk was restarted, and the slot was not
    /// read: a further restart goes on.
    pub fn restart(&mut self) -> Result<Side, Failed>
        ensures { Restarts D.state self.old result self.new }
    {
        self.disk.restart();
        let Ok(slots) = Slots::open(&mut self.disk) else {
            self.up = false;
            return Err(Failed);
        };
        let same = slots.slot() == self.slots.slot();
        let side = choose(&mut self.held, self.after.take(), same);
        self.slots = slots;
        self.up = true;
        Ok(side)
    }
}
