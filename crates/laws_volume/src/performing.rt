ghost use Rattle.std.specs.Prelude.{◌≡◌, true, IfOk};
ghost use Rattle.laws_volume.specs.Assigned.{plain, IsReady, AreReady};
ghost use Rattle.laws_volume.specs.Answered.{IsDone, AreDone};
ghost use Rattle.laws_volume.specs.declared.call.Call.TheVariants.{Write, ConsistencyPoint, Snapshot, Remove, MakeWritable, Revert, Land, Adopt, Sync, Fetch, Read, Restart};

use crate::call::Call;
use sm_base::{Block, Ident, NoMemory};
use sm_disk::Disk;
use sm_volume::{Head, View, Volume, VolumeFault};
use std::alloc::Global;

fn write<D: Disk>(v: &mut Volume<D>, at: u32, block: &Block) -> Result<(), VolumeFault>
    requires up { v.old.up ≡ true }
    ensures { IsDone D.state (Write at block.now) v.old result v.new }
{
    v.write(at, block)
}

fn consistency_point<D: Disk>(alloc: Global, v: &mut Volume<D>) -> Result<(), VolumeFault>
    requires up { v.old.up ≡ true }
    ensures { IsDone D.state ConsistencyPoint v.old result v.new }
{
    v.cp(alloc)
}

fn make_writable<D: Disk>(alloc: Global, v: &mut Volume<D>) -> Result<(), VolumeFault>
    requires up { v.old.up ≡ true }
    ensures { IsDone D.state MakeWritable v.old result v.new }
{
    v.make_writable(alloc)
}

fn remove<D: Disk>(alloc: Global, v: &mut Volume<D>, drops: &Vec<Ident>) -> Result<(), VolumeFault>
    requires up { v.old.up ≡ true }
    ensures { IsDone D.state (Remove drops.now) v.old result v.new }
{
    v.remove(alloc, drops)
}

fn revert<D: Disk>(
    alloc: Global,
    v: &mut Volume<D>,
    ident: Ident,
    drop_newer: bool,
    family: u64,
) -> Result<(), VolumeFault>
    requires up { v.old.up ≡ true }
    ensures { IsDone D.state (Revert ident drop_newer family) v.old result v.new }
{
    v.revert(alloc, ident, drop_newer, family)
}

fn land<D: Disk>(v: &mut Volume<D>, number: u32, block: &Block) -> Result<(), VolumeFault>
    requires up { v.old.up ≡ true }
    requires ready { IsReady (Land number block.now) v.old.volume }
    ensures { IsDone D.state (Land number block.now) v.old result v.new }
{
    v.land(number, block)
}

fn sync<D: Disk>(v: &mut Volume<D>) -> Result<(), VolumeFault>
    requires up { v.old.up ≡ true }
    ensures { IsDone D.state Sync v.old result v.new }
{
    v.sync()
}

// What is read is no part of the law: it is told by the call itself.
fn fetch<D: Disk>(v: &mut Volume<D>, number: u32) -> Result<(), VolumeFault>
    requires up { v.old.up ≡ true }
    requires ready { IsReady (Fetch number) v.old.volume }
    ensures { IsDone D.state (Fetch number) v.old result v.new }
{
    let mut block = Block([0; 4096]);
    v.fetch(number, &mut block)
}

fn read<D: Disk>(v: &mut Volume<D>, view: View, at: u32) -> Result<(), VolumeFault>
    requires up { v.old.up ≡ true }
    ensures { IsDone D.state (Read view at) v.old result v.new }
{
    let mut block = Block([0; 4096]);
    v.read(view, at, &mut block)
}

fn restart<D: Disk>(v: &mut Volume<D>) -> Result<(), VolumeFault>
    requires up { v.old.up ≡ true }
    ensures { IsDone D.state Restart v.old result v.new }
{
    v.told();
    match v.restart() {
        Ok(_) => Ok(()),
        Err(fault) => Err(fault),
    }
}

fn copy_map(alloc: Global, map: &[u32]) -> Result<Vec<u32>, NoMemory>
    ensures { IfOk result (λ copy. copy.items ≡ map.now) }
{
    Ok(Vec::from_slice(alloc, map)?)
}

fn copy_leg(alloc: Global, head: &Head, map: &[u32]) -> Result<(Head, Vec<u32>), NoMemory>
    ensures head { IfOk result (λ copy. copy.0 ≡ head.now) }
    ensures map { IfOk result (λ copy. copy.1.items ≡ map.now) }
{
    Ok((head.copy(alloc)?, copy_map(alloc, map)?))
}

fn take<D: Disk>(alloc: Global, v: &mut Volume<D>, head: &Head) -> Result<(), VolumeFault>
    requires up { v.old.up ≡ true }
    ensures { IsDone D.state (Snapshot head.now) v.old result v.new }
{
    if v.has_snapshot(head.ident) {
        return Err(VolumeFault::NameTaken);
    }
    match head.copy(alloc) {
        Ok(head) => v.snapshot(
            alloc, head.ident, head.name, head.label, head.time, head.made,
        ),
        Err(NoMemory) => Err(VolumeFault::NoMemory),
    }
}

fn adopt<D: Disk>(
    alloc: Global,
    v: &mut Volume<D>,
    head: &Head,
    map: &Vec<u32>,
    family: u64,
    drops: &Vec<Ident>,
) -> Result<(), VolumeFault>
    requires up { v.old.up ≡ true }
    requires ready { IsReady (Adopt head.now map.now family drops.now) v.old.volume }
    ensures { IsDone D.state (Adopt head.now map.now family drops.now) v.old result v.new }
{
    match copy_leg(alloc, head, map) {
        Ok((head, map)) => v.adopt(alloc, head, map, family, drops),
        Err(NoMemory) => Err(VolumeFault::NoMemory),
    }
}

/// Makes one call. A snapshot of an identity that stands is refused as `NameTaken`.
pub fn perform<D: Disk>(alloc: Global, v: &mut Volume<D>, call: &Call) -> Result<(), VolumeFault>
    requires up { v.old.up ≡ true }
    requires ready { IsReady call.now v.old.volume }
    ensures { IsDone D.state call.now v.old result v.new }
{
    match call {
        Call::Write { at, block } => write(v, *at, block),
        Call::ConsistencyPoint => consistency_point(alloc, v),
        Call::Snapshot { head } => take(alloc, v, head),
        Call::Remove { drops } => remove(alloc, v, drops),
        Call::MakeWritable => make_writable(alloc, v),
        Call::Revert {
            ident,
            drop_newer,
            family,
        } => revert(alloc, v, *ident, *drop_newer, *family),
        Call::Land { number, block } => land(v, *number, block),
        Call::Adopt {
            head,
            map,
            family,
            drops,
        } => adopt(alloc, v, head, map, *family, drops),
        Call::Sync => sync(v),
        Call::Fetch { number } => fetch(v, *number),
        Call::Read { view, at } => read(v, *view, *at),
        Call::Restart => restart(v),
    }
}

/// Makes calls one after another, up to the first that is refused or fails. Where all answer Ok, the
/// volume is the one that the same plain assignments make, one after another.
pub fn perform_all<D: Disk>(
    alloc: Global,
    v: &mut Volume<D>,
    calls: &[Call],
) -> Result<(), VolumeFault>
    requires up { v.old.up ≡ true }
    requires ready { AreReady (D.state v.old.disk).told calls.now (plain D.state v.old) }
    ensures { AreDone D.state calls.now v.old result v.new }
{
    for call in calls {
        perform(alloc, v, call)?;
    }
    Ok(())
}
