// Volumes, relationships and transfers with some of their parts changed.
ghost use Rattle.std.specs.Prelude.{◌≡◌, [], false, IfOk};
ghost use Rattle.sm_defs.specs.Volume.{numbers};

use crate::values::PlainVolume;
use oracle_lists::{PlainBlock, PlainSnapshot, copy_image, numbers_below};
use sm_base::{Ident, NoMemory, Reason};
use sm_model::{WorldRelation, WorldTransfer};
use std::alloc::Global;

impl PlainVolume {
    /// The same volume with other images and snapshots.
    pub fn with_images(
        &self,
        alloc: Global,
        active: Vec<PlainBlock>,
        stable: Vec<PlainBlock>,
        snapshots: Vec<PlainSnapshot>,
    ) -> Result<PlainVolume, NoMemory>
        ensures { IfOk result (λ next. next ≡ record self.now { active = active.items; stable = stable.items; snapshots = snapshots.items }) }
    {
        Ok(PlainVolume {
            path: self.path.copy(alloc)?,
            disk: self.disk,
            kind: self.kind,
            family: self.family,
            logical: self.logical,
            physical: self.physical,
            next: self.next,
            active,
            stable,
            snapshots,
        })
    }

    /// The same volume with other snapshots.
    pub fn with_snapshots(
        &self,
        alloc: Global,
        snapshots: Vec<PlainSnapshot>,
    ) -> Result<PlainVolume, NoMemory>
        ensures { IfOk result (λ next. next ≡ record self.now { snapshots = snapshots.items }) }
    {
        let active = copy_image(alloc, &self.active)?;
        let stable = copy_image(alloc, &self.stable)?;
        self.with_images(alloc, active, stable, snapshots)
    }
}

/// The same relationship with this base and this transfer.
pub fn with_base(
    relation: &WorldRelation,
    base: Option<Ident>,
    transfer: Option<WorldTransfer>,
) -> WorldRelation
    ensures { result ≡ record relation.now { base = base; transfer = transfer } }
{
    WorldRelation {
        number: relation.number,
        source: relation.source,
        destination: relation.destination,
        policy: relation.policy,
        source_half: relation.source_half,
        destination_half: relation.destination_half,
        quiesced: relation.quiesced,
        base,
        transfer,
    }
}

/// The same relationship with this transfer, or without one.
pub fn with_transfer(relation: &WorldRelation, transfer: Option<WorldTransfer>) -> WorldRelation
    ensures { result ≡ record relation.now { transfer = transfer } }
{
    with_base(relation, relation.base, transfer)
}

/// The same transfer.
pub fn copy_transfer(alloc: Global, transfer: &WorldTransfer) -> Result<WorldTransfer, NoMemory>
    ensures { IfOk result (λ copy. copy ≡ transfer.now) }
{
    Ok(WorldTransfer {
        number: transfer.number,
        kind: transfer.kind,
        reserved: transfer.reserved,
        checkpoint: transfer.checkpoint,
        legs: Vec::from_slice(alloc, &transfer.legs)?,
        stopped: transfer.stopped,
        landed: Vec::from_slice(alloc, &transfer.landed)?,
        pruned: transfer.pruned,
    })
}

/// The same transfer with other legs, of which nothing has landed.
pub fn with_legs(
    alloc: Global,
    transfer: &WorldTransfer,
    legs: &[Ident],
) -> Result<WorldTransfer, NoMemory>
    ensures { IfOk result (λ next. next ≡ record transfer.now { legs = legs.now; checkpoint = 0; landed = [] }) }
{
    Ok(WorldTransfer {
        checkpoint: 0,
        legs: Vec::from_slice(alloc, legs)?,
        landed: Vec::new(alloc),
        ..copy_transfer(alloc, transfer)?
    })
}

/// The transfer back at a checkpoint: what landed past it is forgotten. It runs, or is stopped for a
/// reason.
pub fn back_at(
    alloc: Global,
    transfer: &WorldTransfer,
    checkpoint: u32,
    stopped: Option<Reason>,
) -> Result<WorldTransfer, NoMemory>
    ensures { IfOk result (λ next. next ≡ record transfer.now { checkpoint = checkpoint; landed = numbers 0 checkpoint; stopped = stopped; pruned = false }) }
{
    Ok(WorldTransfer {
        checkpoint,
        stopped,
        landed: numbers_below(alloc, checkpoint)?,
        pruned: false,
        ..copy_transfer(alloc, transfer)?
    })
}
