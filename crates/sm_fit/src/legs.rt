//! The test that what of the legs of transfers was shipped still fits.

ghost use Rattle.std.specs.Prelude.{◌≡◌, ◌↔◌, true, false, IsTrue, IfOk};
ghost use Rattle.sm_defs.specs.Relationship.{Relationship, is_mirror};
ghost use Rattle.sm_defs.specs.Words.{Among};
ghost use Rattle.sm_defs.specs.World.{policy_at};
ghost use Rattle.sm_model.specs.LegsFit.{LegsFit, LegsFitFor};
ghost use Rattle.sm_model.specs.Running.{running_in};
ghost use Rattle.sm_model.specs.TagsFit.{TagsFit};
ghost use Rattle.sm_shape.specs.Blank.{blank};
ghost use Rattle.sm_fit.specs.Shipped.{ShippedFits, OwnLegsFit};

use crate::mirrors::mirror_fits;
use crate::reading::{base_map, is_mirror_at, physical_at, snapshots_at};
use crate::tables::snapshots_table;
use crate::vaults::{first_fits, free_at};
use crate::window::window_fits;
use sm_base::NoMemory;
use sm_model::{World, WorldRelation, WorldTransfer};
use std::alloc::Global;

/// Whether what a mirror's transfer shipped fits its volumes.
fn mirror_transfer_fits(
    alloc: Global,
    world: &World,
    relation: &WorldRelation,
    transfer: &WorldTransfer,
) -> Result<bool, NoMemory>
    requires tags { TagsFit (blank world.now) }
    requires kind { is_mirror (policy_at (blank world.now) relation.now.policy).kind ≡ true }
    ensures { IfOk result (λ fits. IsTrue fits ↔ ShippedFits (running_in (blank world.now) relation.now transfer.now)) }
{
    let source = snapshots_at(&world.volumes, relation.source.0);
    let destination = snapshots_at(&world.volumes, relation.destination.0);
    let physical = physical_at(&world.volumes, relation.destination.0);
    let table = snapshots_table(alloc, physical, destination)?;
    let fits = mirror_fits(&table, transfer, source, destination);
    Ok(fits)
}

/// The same of a vault's.
fn vault_transfer_fits(
    alloc: Global,
    world: &World,
    relation: &WorldRelation,
    transfer: &WorldTransfer,
) -> Result<bool, NoMemory>
    requires tags { TagsFit (blank world.now) }
    requires kind { is_mirror (policy_at (blank world.now) relation.now.policy).kind ≡ false }
    ensures { IfOk result (λ fits. IsTrue fits ↔ ShippedFits (running_in (blank world.now) relation.now transfer.now)) }
{
    let source = snapshots_at(&world.volumes, relation.source.0);
    let destination = snapshots_at(&world.volumes, relation.destination.0);
    let base = base_map(source, relation.base);
    let free = free_at(alloc, &world.volumes, relation.destination.0)?;
    let fits = first_fits(base, free, transfer, source, destination, &transfer.legs);
    Ok(fits)
}

fn shipped_fits(
    alloc: Global,
    world: &World,
    relation: &WorldRelation,
    transfer: &WorldTransfer,
) -> Result<bool, NoMemory>
    requires { TagsFit (blank world.now) }
    ensures { IfOk result (λ fits. IsTrue fits ↔ ShippedFits (running_in (blank world.now) relation.now transfer.now)) }
{
    if is_mirror_at(&world.policies, relation.policy) {
        mirror_transfer_fits(alloc, world, relation, transfer)
    } else {
        vault_transfer_fits(alloc, world, relation, transfer)
    }
}

fn transfer_fits(
    alloc: Global,
    world: &World,
    relation: &WorldRelation,
    transfer: &WorldTransfer,
) -> Result<bool, NoMemory>
    requires { TagsFit (blank world.now) }
    ensures { IfOk result (λ fits. IsTrue fits ↔ LegsFitFor (running_in (blank world.now) relation.now transfer.now)) }
{
    if !window_fits(transfer) {
        return Ok(false);
    }
    let fits = shipped_fits(alloc, world, relation, transfer)?;
    Ok(fits)
}

/// Whether the relationship's transfer fits, if it has one.
fn own_legs_fit(alloc: Global, world: &World, relation: &WorldRelation) -> Result<bool, NoMemory>
    requires { TagsFit (blank world.now) }
    ensures { IfOk result (λ fits. IsTrue fits ↔ OwnLegsFit (blank world.now) relation.now) }
{
    match &relation.transfer {
        Some(transfer) => transfer_fits(alloc, world, relation, transfer),
        None => Ok(true),
    }
}

fn all_legs_fit(alloc: Global, world: &World, relations: &[WorldRelation]) -> Result<bool, NoMemory>
    requires { TagsFit (blank world.now) }
    ensures { IfOk result (λ fit. IsTrue fit ↔ ((r : Relationship) → Among relations.now r → OwnLegsFit (blank world.now) r)) }
{
    for relation in relations {
        let fits = own_legs_fit(alloc, world, relation)?;
        if !fits {
            return Ok(false);
        }
    }
    Ok(true)
}

/// Whether what of the legs was shipped still fits: of each transfer its source, its destination and its window.
/// The volumes' numbers fit by `tags_fit` before. `NoMemory` where a table of a volume's numbers finds no room.
pub fn legs_fit(alloc: Global, world: &World) -> Result<bool, NoMemory>
    requires { TagsFit (blank world.now) }
    ensures { IfOk result (λ fit. IsTrue fit ↔ LegsFit (blank world.now)) }
{
    let fit = all_legs_fit(alloc, world, &world.relations)?;
    Ok(fit)
}
