// A catalogue is opened.
ghost use Rattle.std.specs.Prelude.{IfOk, IfErr};
ghost use Rattle.sm_opening.specs.Looked.{disks_of, AllTold, EachMoves, IsKeptOn, IsLookedAt, IsDamageOf, AnswersDamage, IsFaultCounted};
ghost use Rattle.sm_opening.specs.OnDisk.{Damage, IsDamage};
ghost use Rattle.sm_opening.specs.Judged.{IsNoDiskFault};
ghost use Rattle.sm_opening.specs.Opening.{without_disks};
ghost use Rattle.sm_core.specs.Opening.{OpensWhole};

use crate::catalogue::Catalogue;
use laws_blank::a_shaped_world_is_sound;
use sm_disk::Disk;
use sm_opening::{OpenFault, an_opened_node_has_its_shape, an_opened_node_is_spelled};
use std::alloc::Global;

impl<D: Disk + Drop> Catalogue<D> {
    /// Opens the node whose disks these are, each at the place of its number: disk 0 has the catalogue, or is blank
    /// for a node on which nothing was created. What was written before is put onto the media, once nothing else can
    /// refuse. The world is the one that the disks spell, and the history is empty.
    ///
    /// # Errors
    ///
    /// The disks come back, each in its place. [`OpenFault::Unopened`] with the disk and the kind of the first fault:
    /// disk 0, the volumes by number, the relationships by number, the shape of the whole; where the disks tell their
    /// content it comes exactly there, but for a failure of a disk and want of memory. No disk is changed then.
    /// [`OpenKind::Fault`](sm_model::OpenKind::Fault) only where that disk's count of faults rose in this call; no
    /// disk reads otherwise then, and a restart may leave nothing new. [`OpenFault::NoMemory`] where there is none
    /// for the node; no disk is changed.
    pub fn open(alloc: Global, disks: Vec<D>) -> Result<Catalogue<D>, (Vec<D>, OpenFault)>
        ensures opens { IfOk result (λ k. OpensWhole D.state disks.items k) }
        ensures moves { IfErr result (λ e. EachMoves D.state IsKeptOn disks.items e.0.items) }
        ensures quiet { IfErr result (λ e. IsNoDiskFault e.1 → EachMoves D.state IsLookedAt disks.items e.0.items) }
        ensures counted { IfErr result (λ e. IsFaultCounted D.state disks.items e.0.items e.1) }
        ensures faults { IfErr result (λ e. AllTold D.state disks.items → IsDamageOf (IsDamage (disks_of D.state disks.items)) e.1) }
        ensures exact { AllTold D.state disks.items → (f : Damage) → IsDamage (disks_of D.state disks.items) f → AnswersDamage f (without_disks result) }
    {
        a_shaped_world_is_sound();
        an_opened_node_has_its_shape::<D>();
        an_opened_node_is_spelled::<D>();
        match sm_opening::open(alloc, disks) {
            Ok(node) => {
                node.told();
                Ok(Catalogue::new(alloc, node))
            }
            Err(failed) => Err(failed),
        }
    }
}
