// What of a leg is to be shipped, and what it becomes.
ghost use Rattle.std.specs.Prelude.{◌≡◌, ◌<◌, ◌+◌, ◌^◌, IfOk, MatchOption, None, Some};
ghost use Rattle.std.specs.List.{filter, list_all};
ghost use Rattle.sm_defs.specs.Image.{stands};
ghost use Rattle.sm_defs.specs.Volume.{numbers};
ghost use Rattle.sm_model.specs.Steps.{snapshot_of, image_or_none, bases, cost, landing, may_ship, all_landed, at_checkpoint};
ghost use Rattle.sm_model.specs.Choice.{shippable};
ghost use Rattle.oracle_steps.specs.Seen.{running_of};

use crate::values::PlainRunning;
use oracle_lists::{
    PlainBases, PlainBlock, PlainSnapshot, copy_image, is_same, landed_prefix, mirror_cost, stands,
    vault_cost, vault_landing,
};
use oracle_world::{PlainFault, free_tags, small};
use sm_base::limits::WINDOW;
use sm_base::{Ident, NoMemory, PolicyKind};
use std::alloc::Global;

fn with_ident(snapshots: &[PlainSnapshot], ident: Ident) -> Option<&PlainSnapshot>
    ensures { MatchOption result (snapshot_of snapshots.now (Some ident) ≡ None) (λ s. snapshot_of snapshots.now (Some ident) ≡ Some s.now) }
{
    match snapshots {
        [] => None,
        [snapshot, others @ ..] => {
            if is_same(snapshot.ident, ident) {
                Some(snapshot)
            } else {
                with_ident(others, ident)
            }
        }
    }
}

/// The snapshot of an identity, where one is given and stands.
pub fn snapshot_of(snapshots: &[PlainSnapshot], ident: Option<Ident>) -> Option<&PlainSnapshot>
    ensures { MatchOption result (snapshot_of snapshots.now ident ≡ None) (λ s. snapshot_of snapshots.now ident ≡ Some s.now) }
{
    match ident {
        None => None,
        Some(ident) => with_ident(snapshots, ident),
    }
}

fn image_of(
    alloc: Global,
    snapshots: &[PlainSnapshot],
    ident: Option<Ident>,
) -> Result<Vec<PlainBlock>, NoMemory>
    ensures { IfOk result (λ image. image.items ≡ image_or_none (snapshot_of snapshots.now ident)) }
{
    match snapshot_of(snapshots, ident) {
        None => Ok(Vec::new(alloc)),
        Some(snapshot) => copy_image(alloc, &snapshot.image),
    }
}

/// The base as both sides have it; an image without a block where a side has none.
pub fn bases(alloc: Global, x: &PlainRunning) -> Result<PlainBases, NoMemory>
    ensures { IfOk result (λ both. both ≡ bases (running_of x.now)) }
{
    let relation = x.relation;
    let source = x.source;
    let destination = x.destination;
    let base = relation.base;
    Ok(PlainBases {
        at_source: image_of(alloc, &source.snapshots, base)?,
        at_destination: image_of(alloc, &destination.snapshots, base)?,
    })
}

fn length_of_cost(alloc: Global, x: &PlainRunning, leg: &PlainSnapshot) -> Result<usize, NoMemory>
    ensures { IfOk result (λ count. count ≡ cost (running_of x.now) leg.now) }
{
    let policy = x.policy;
    let destination = x.destination;
    match policy.kind() {
        PolicyKind::AsyncMirror => mirror_cost(alloc, &leg.image, &destination.snapshots),
        PolicyKind::Vault => {
            let bases = bases(alloc, x)?;
            vault_cost(alloc, &leg.image, &bases)
        }
    }
}

/// How many blocks of a leg are to be shipped.
pub fn cost(alloc: Global, x: &PlainRunning, leg: &PlainSnapshot) -> Result<u32, PlainFault>
    ensures { IfOk result (λ count. count ≡ cost (running_of x.now) leg.now) }
{
    small(length_of_cost(alloc, x, leg)?)
}

/// What a leg becomes at the destination.
pub fn landing(
    alloc: Global,
    x: &PlainRunning,
    leg: &PlainSnapshot,
) -> Result<Vec<PlainBlock>, NoMemory>
    ensures { IfOk result (λ image. image.items ≡ landing (running_of x.now) leg.now) }
{
    let policy = x.policy;
    match policy.kind() {
        PolicyKind::AsyncMirror => copy_image(alloc, &leg.image),
        PolicyKind::Vault => {
            let bases = bases(alloc, x)?;
            let free = free_tags(alloc, x.destination)?;
            vault_landing(alloc, &leg.image, &bases, &free)
        }
    }
}

fn may_ship(x: &PlainRunning, cost: u32, index: u64) -> bool
    ensures { result ≡ may_ship (running_of x.now) cost index }
{
    let transfer = x.transfer;
    !stands(&transfer.landed, index)
        && index < u64::from(cost)
        && index < u64::from(transfer.checkpoint) + u64::from(WINDOW)
}

fn shippable_from(
    alloc: Global,
    x: &PlainRunning,
    cost: u32,
    from: u64,
    count: u64,
) -> Result<Vec<u32>, NoMemory>
    requires { from + count < 2 ^ 64 }
    ensures { IfOk result (λ all. all.items ≡ filter (may_ship (running_of x.now) cost) (numbers from count)) }
{
    if count == 0 {
        return Ok(Vec::new(alloc));
    }
    let mut all = shippable_from(alloc, x, cost, from + 1, count - 1)?;
    if may_ship(x, cost, from) {
        all.insert(0, from as u32)?;
    }
    Ok(all)
}

/// The indexes that may be shipped, ascending.
pub fn shippable(alloc: Global, x: &PlainRunning, cost: u32) -> Result<Vec<u32>, NoMemory>
    ensures { IfOk result (λ all. all.items ≡ shippable (running_of x.now) cost) }
{
    let transfer = x.transfer;
    shippable_from(
        alloc,
        x,
        cost,
        0,
        u64::from(transfer.checkpoint) + u64::from(WINDOW),
    )
}

fn all_stand(landed: &[u32], from: u64, count: u64) -> bool
    requires { from + count < 2 ^ 64 }
    ensures { result ≡ list_all (λ k. stands k landed.now) (numbers from count) }
{
    if count == 0 {
        return true;
    }
    stands(landed, from) && all_stand(landed, from + 1, count - 1)
}

/// Whether all of so many indexes have landed.
pub fn all_landed(x: &PlainRunning, cost: u32) -> bool
    ensures { result ≡ all_landed (running_of x.now) cost }
{
    let transfer = x.transfer;
    all_stand(&transfer.landed, 0, u64::from(cost))
}

/// Whether all that may be shipped has landed, and there is more.
pub fn at_checkpoint(x: &PlainRunning, cost: u32) -> bool
    ensures { result ≡ at_checkpoint (running_of x.now) cost }
{
    let transfer = x.transfer;
    let prefix = landed_prefix(&transfer.landed) as u64;
    prefix == u64::from(transfer.checkpoint) + u64::from(WINDOW) && prefix < u64::from(cost)
}
