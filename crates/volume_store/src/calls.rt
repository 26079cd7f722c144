// The calls that commit.
ghost use Rattle.std.specs.Prelude.{◌≡◌, ◌⊎◌, ◌-◌, ◌+◌, ◌<◌, ◌≤◌, ◌∷◌, ◌++◌, [], length, true, false, Some, None, IfOk};
ghost use Rattle.sm_disk.specs.Disk.{GoesOn, IsCounted};
ghost use Rattle.sm_disk.specs.Spared.{Spares};
ghost use Rattle.sm_defs.specs.Words.{Among};
ghost use Rattle.sm_root.specs.declared.TheConstants.{RECORD_SNAPSHOTS};
ghost use Rattle.sm_root.specs.declared.root.RootSnapshot.{RootSnapshot};
ghost use Rattle.sm_slots.specs.Slots.{BehindSlots};
ghost use Rattle.std.specs.List.{list_all};
ghost use Rattle.volume_store.specs.Held.{Held, Shows};
ghost use Rattle.volume_store.specs.Maps.{Maps, AreMapsOf};
ghost use Rattle.sm_root.specs.Condition.{snapshot_of};
ghost use Rattle.volume_store.specs.Next.{staying, map_maps, settled, snapped, without, adopted, writable, reverted, IsReverted};
ghost use Rattle.volume_store.specs.Refusals.{Refuses, revert_refusal, cp_refusal, snapshot_refusal, remove_refusal, adopt_refusal, has_name, has_snapshot};
ghost use Rattle.volume_store.specs.Commits.{Commits};

use crate::faults::VolumeFault;
use crate::held::Store;
use crate::next::{is_among, same, staying_of};
use sm_base::limits::MOST_SNAPSHOTS;
use sm_base::{Ident, Kind, Label, NoMemory, SnapName};
use sm_disk::Disk;
use sm_root::{BlockMap, Head, RootSnapshot};
use std::alloc::Global;

impl<D: Disk> Store<D> {
    /// A consistency point: the active image becomes the stable one.
    pub fn cp(&mut self, alloc: Global) -> Result<(), VolumeFault>
        requires up { self.old.up ≡ true }

        ensures refused { Refuses (cp_refusal self.old.maps) result }
        ensures commits { Commits D.state self.old (settled self.old.maps) result self.new }
    {
        if self.state.root.kind == Kind::Dp {
            return Err(VolumeFault::ReadOnly);
        }
        let next = self.state.settled(alloc)?;
        self.commit(alloc, next)
    }

    /// Makes a destination a volume that clients write.
    pub fn make_writable(&mut self, alloc: Global) -> Result<(), VolumeFault>
        requires up { self.old.up ≡ true }

        ensures refused { Refuses None result }
        ensures commits { Commits D.state self.old (writable self.old.maps) result self.new }
    {
        let next = self.state.writable(alloc)?;
        self.commit(alloc, next)
    }

    /// A consistency point, and a snapshot of it. The volume has no snapshot of the identity.
    pub fn snapshot(
        &mut self,
        alloc: Global,
        ident: Ident,
        name: SnapName,
        label: Option<Label>,
        time: u64,
        made: u32,
    ) -> Result<(), VolumeFault>
        requires up { self.old.up ≡ true }
        requires new { (s : RootSnapshot) → Among self.old.maps.root.snapshots s → ¬ (s.ident ≡ ident) }

        ensures refused { Refuses (snapshot_refusal self.old.maps ident name) result }
        ensures commits { Commits D.state self.old (snapped self.old.maps (record { ident = ident; name = name; label = label; time = time; made = made; map = self.old.maps.active })) result self.new }
    {
        if self.state.root.kind == Kind::Dp {
            return Err(VolumeFault::ReadOnly);
        }
        if has_name(self.state.root.snapshots.as_slice(), name.text()) {
            return Err(VolumeFault::NameTaken);
        }
        if self.state.is_full(ident) {
            return Err(VolumeFault::SnapFull);
        }
        let head = Head {
            ident,
            name,
            label,
            time,
            made,
        };
        let next = self.state.snapped(alloc, head)?;
        self.commit(alloc, next)
    }

    /// Drops these snapshots; `drops` is read as a set.
    pub fn remove(&mut self, alloc: Global, drops: &[Ident]) -> Result<(), VolumeFault>
        requires up { self.old.up ≡ true }

        ensures refused { Refuses (remove_refusal self.old.maps drops.now) result }
        ensures commits { Commits D.state self.old (without self.old.maps drops.now) result self.new }
    {
        if !has_all(self.state.root.snapshots.as_slice(), drops) {
            return Err(VolumeFault::NoSnapshot);
        }
        let next = self.state.without(alloc, drops)?;
        self.commit(alloc, next)
    }

    /// Makes a destination of the volume, with the image of one of its snapshots as the active and the
    /// stable one. With `drop_newer` the snapshots behind that one go.
    pub fn revert(
        &mut self,
        alloc: Global,
        ident: Ident,
        drop_newer: bool,
        family: u64,
    ) -> Result<(), VolumeFault>
        requires up { self.old.up ≡ true }

        ensures refused { Refuses (revert_refusal self.old.maps ident) result }
        ensures unchanged { result ≡ Err VolumeFault.NoSnapshot → self.new ≡ self.old }
        ensures commits { has_snapshot self.old.maps.root.snapshots ident ≡ true → (next : Maps) × IsReverted self.old.maps ident drop_newer family next × Commits D.state self.old next result self.new }
    {
        match self.state.reverted_to(alloc, ident, drop_newer, family) {
            Ok(next) => self.commit(alloc, next),
            Err(fault) => Err(fault),
        }
    }

    /// Takes over an image whose blocks have landed: a new snapshot behind the others, of which those
    /// in `drops` go. The map becomes the active and the stable one.
    pub fn adopt(
        &mut self,
        alloc: Global,
        head: Head,
        map: Vec<u32>,
        family: u64,
        drops: &[Ident],
    ) -> Result<(), VolumeFault>
        requires up { self.old.up ≡ true }
        requires new { (s : RootSnapshot) → Among self.old.maps.root.snapshots s → ¬ (s.ident ≡ head.ident) }
        requires fits { AreMapsOf self.old.maps.root.logical self.old.maps.root.physical (map.items ∷ map_maps (staying drops.now self.old.maps.root.snapshots)) }

        ensures refused { Refuses (adopt_refusal self.old.maps (snapshot_of head map.items) drops.now) result }
        ensures commits { Commits D.state self.old (adopted self.old.maps (snapshot_of head map.items) family drops.now) result self.new }
    {
        let snapshots = self.state.root.snapshots.as_slice();
        if count_with_new(drops, snapshots, head.ident) > MOST_SNAPSHOTS {
            return Err(VolumeFault::SnapFull);
        }
        let stable = BlockMap::from_vec(map)?;
        let list = with_new(alloc, drops, snapshots, &head, &stable)?;
        let next = self
            .state
            .adopted(alloc, head, stable, family, list, drops)?;
        self.commit(alloc, next)
    }
}

// Whether a snapshot has the name.
fn has_name(snapshots: &[RootSnapshot], name: &[u8]) -> bool
    ensures { result ≡ has_name snapshots.now name.now }
{
    snapshots
        .iter()
        .any(|snapshot| snapshot.name.text() == name)
}

// Whether a snapshot has the identity.
pub(crate) fn has_snapshot(snapshots: &[RootSnapshot], ident: Ident) -> bool
    ensures { result ≡ has_snapshot snapshots.now ident }
{
    snapshots.iter().any(|snapshot| same(snapshot.ident, ident))
}

// Whether each of these is the identity of a snapshot.
fn has_all(snapshots: &[RootSnapshot], idents: &[Ident]) -> bool
    ensures { result ≡ list_all (has_snapshot snapshots.now) idents.now }
{
    idents.iter().all(|ident| has_snapshot(snapshots, *ident))
}

// How many snapshots are not among these.
fn count_staying(drops: &[Ident], snapshots: &[RootSnapshot]) -> usize
    ensures { result ≡ length (staying drops.now snapshots.now) }
{
    snapshots
        .iter()
        .filter(|snapshot| !is_among(drops, snapshot.ident))
        .count()
}

// How many there are with a new one of this identity.
fn count_with_new(drops: &[Ident], snapshots: &[RootSnapshot], ident: Ident) -> usize
    requires { length snapshots.now ≤ RECORD_SNAPSHOTS }
    ensures { (s : RootSnapshot) → s.ident ≡ ident → result ≡ length (staying drops.now (snapshots.now ++ s ∷ [])) }
{
    let count = count_staying(drops, snapshots);
    if is_among(drops, ident) {
        count
    } else {
        count + 1
    }
}

// The snapshots that stay, and the new one where it does. It shares the map.
fn with_new(
    alloc: Global,
    drops: &[Ident],
    snapshots: &[RootSnapshot],
    head: &Head,
    map: &BlockMap,
) -> Result<Vec<RootSnapshot>, NoMemory>
    ensures { IfOk result (λ list. list.items ≡ staying drops.now (snapshots.now ++ snapshot_of head.now map.now ∷ [])) }
{
    let mut list = staying_of(alloc, drops, snapshots)?;
    if !is_among(drops, head.ident) {
        list.push(head.copy(alloc)?.with_map(map.copy()?))?;
    }
    Ok(list)
}
