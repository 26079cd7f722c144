// A volume is found on a disk, with all that its calls need, before anything is changed there.
ghost use Rattle.std.specs.Prelude.{◌≡◌, IfOk, IfErr, Err};
ghost use Rattle.sm_disk.specs.Disk.{GoesOn, IsQuiet, IsCounted};
ghost use Rattle.sm_root.specs.Condition.{IsRoot};
ghost use Rattle.volume_store.specs.Opened.{IsOpenFault, IsFoundOn, AnswersEachFault};

use crate::faults::VolumeFault;
use crate::finding::look;
use crate::state::State;
use sm_base::{NoMemory, VolNo};
use sm_disk::Disk;
use sm_root::Root;
use sm_slots::Slots;
use std::alloc::Global;
use std::marker::Model;

/// A volume that was found on a disk, of which nothing was changed yet.
#[derive(Debug, Drop)]
pub struct Found {
    pub(crate) slots: Slots,
    pub(crate) state: State,
}

impl Model for Found {
    ghost use Rattle.volume_store.specs.Opened.{FoundMaps};

    ghost Value = { FoundMaps };

    ghost view = { λ f. record { number = f.slots; maps = f.state } };
}

impl Found {
    /// What the disk keeps of the volume beside its blocks.
    pub fn root(&self) -> &Root
        ensures value { result.now ≡ self.now.maps.root }
        ensures good { IsRoot result.now }
    {
        self.state.root()
    }
}

/// Finds the volume of this number on a disk, and takes the memory that its calls need. Whatever it
/// answers, it changes neither what a read gives nor what a restart may leave, so several disks may be
/// looked at before one of them is changed.
///
/// # Errors
///
/// Those of [`look`]; [`VolumeFault::NoMemory`] also where there is no memory for the volume.
pub fn find<D: Disk>(alloc: Global, disk: &mut D, number: VolNo) -> Result<Found, VolumeFault>
    ensures found { IfOk result (λ f. IsFoundOn (D.state disk.new) f × (f.maps.root.number ≡ number)) }
    ensures faults { IfErr result (IsOpenFault (D.state disk.old) number) }
    ensures exact { AnswersEachFault (D.state disk.old) number result }
    ensures counted { result ≡ Err VolumeFault.DiskFault → IsCounted (D.state disk.old) (D.state disk.new) }
    ensures quiet { IsQuiet (D.state disk.old) (D.state disk.new) }
    ensures time { GoesOn (D.state disk.old) (D.state disk.new) (D.state disk.old).may_leave }
{
    let (slots, root) = look(alloc, disk, number)?;
    let state = found_state(alloc, root)?;
    Ok(Found { slots, state })
}

// The state of a root that was read from a disk.
fn found_state(alloc: Global, root: Root) -> Result<State, NoMemory>
    requires { IsRoot root }
    ensures { IfOk result (λ state. state ≡ record { root = root; active = root.stable }) }
{
    let active = root.stable.to_vec(alloc)?;
    State::new(alloc, root, active)
}
