// The state that a call makes, before its commit.
ghost use Rattle.std.specs.Prelude.{◌≡◌, ◌≢◌, ℕ, ◌<◌, ◌≤◌, ◌*◌, ◌==◌, suc, cond, ◌^◌, not, true, false, length, map, position, replicate, List, ◌∷◌, ◌++◌, [], take, Some, IfOk, OnErr, MatchOption};
ghost use Rattle.std.specs.List.{filter};
ghost use Rattle.sm_base.specs.declared.limits.TheConstants.{MOST_SNAPSHOTS, MOST_LOGICAL, MOST_PHYSICAL, LAST_NUMBER};
ghost use Rattle.sm_root.specs.declared.TheConstants.{RECORD_SNAPSHOTS};
ghost use Rattle.sm_root.specs.declared.root.RootSnapshot.{RootSnapshot};
ghost use Rattle.volume_store.specs.Opened.{empty_maps};
ghost use Rattle.sm_defs.specs.Words.{Among, same_ident, has_ident, up_to, KeysDiffer};
ghost use Rattle.sm_root.specs.Condition.{IsRoot, IsSnapshot, ident_of, map_of, snapshot_of};
ghost use Rattle.volume_store.specs.Maps.{all_maps, kept_maps, AreMapsOf, AreMarks};
ghost use Rattle.volume_store.specs.Next.{map_maps, settled, snapped, next_after, staying, without, adopted, writable, reverted, IsReverted, IsWith};
ghost use Rattle.volume_store.specs.Refusals.{revert_refusal};

use crate::faults::VolumeFault;
use crate::marks::{Marks, held_numbers, map_numbers, united};
use crate::state::{State, snapshot_of_ident};
use sm_base::{Ident, Kind, NoMemory, VolNo};
use sm_root::{BlockMap, Head, Root, RootSnapshot, Snapshots};
use std::alloc::Global;

// Whether two identities are one.
pub(crate) fn same(one: Ident, other: Ident) -> bool
    ensures { result ≡ same_ident one other }
{
    one.origin == other.origin && one.seq == other.seq
}

// Whether the identity is among these.
pub(crate) fn is_among(idents: &[Ident], ident: Ident) -> bool
    ensures { result ≡ has_ident idents.now ident }
{
    idents.iter().any(|one| same(*one, ident))
}

// Copies of the snapshots that are not among these.
pub(crate) fn staying_of(
    alloc: Global,
    drops: &[Ident],
    snapshots: &[RootSnapshot],
) -> Result<Vec<RootSnapshot>, NoMemory>
    ensures { IfOk result (λ list. list.items ≡ staying drops.now snapshots.now) }
{
    let mut list = Vec::new(alloc);
    for snapshot in snapshots {
        if !is_among(drops, snapshot.ident) {
            list.push(snapshot.copy(alloc)?)?;
        }
    }
    Ok(list)
}

impl State {
    // A new volume: only holes.
    pub(crate) fn empty(
        alloc: Global,
        number: VolNo,
        kind: Kind,
        logical: u32,
        physical: u32,
    ) -> Result<State, NoMemory>
        requires some { 1 ≤ logical }
        requires few { logical ≤ MOST_LOGICAL }
        requires room { logical ≤ physical }
        requires places { physical ≤ MOST_PHYSICAL }
        ensures { IfOk result (λ state. state ≡ empty_maps number kind logical physical) }
    {
        let root = Root {
            number,
            kind,
            family: number.0 as u64,
            logical,
            physical,
            next: 1,
            stable: BlockMap::from_vec(holes(alloc, logical)?)?,
            snapshots: Snapshots::from_vec(Vec::new(alloc)),
        };
        State::new(alloc, root, holes(alloc, logical)?)
    }

    // The active map as one that a root shares.
    fn active_map(&self, alloc: Global) -> Result<BlockMap, NoMemory>
        ensures { IfOk result (λ map. map ≡ self.now.active) }
    {
        BlockMap::from_vec(self.active_copy(alloc)?)
    }

    // A copy of the active map.
    fn active_copy(&self, alloc: Global) -> Result<Vec<u32>, NoMemory>
        ensures { IfOk result (λ map. map.items ≡ self.now.active) }
    {
        Ok(Vec::from_slice(alloc, &self.active)?)
    }

    // The root with these lists.
    fn root_with(&self, stable: BlockMap, snapshots: Vec<RootSnapshot>) -> Root
        ensures { result ≡ record self.now.root { stable = stable; snapshots = snapshots.items } }
    {
        Root {
            number: self.root.number,
            kind: self.root.kind,
            family: self.root.family,
            logical: self.root.logical,
            physical: self.root.physical,
            next: self.root.next,
            stable,
            snapshots: Snapshots::from_vec(snapshots),
        }
    }

    // A consistency point.
    pub(crate) fn settled(&self, alloc: Global) -> Result<State, NoMemory>
        ensures { IfOk result (λ next. next ≡ settled self.now) }
    {
        let snapshots = self.root.snapshots.copy(alloc)?.into_vec();
        let root = self.root_with(self.active_map(alloc)?, snapshots);
        let marks = self.marks.settled(alloc)?;
        self.following(alloc, root, self.active_copy(alloc)?, marks)
    }

    // Clients may write it.
    pub(crate) fn writable(&self, alloc: Global) -> Result<State, NoMemory>
        ensures { IfOk result (λ next. next ≡ writable self.now) }
    {
        let mut root = self.root.copy(alloc)?;
        root.kind = Kind::Rw;
        let marks = self.marks.copy(alloc)?;
        self.following(alloc, root, self.active_copy(alloc)?, marks)
    }

    // Without these snapshots.
    pub(crate) fn without(&self, alloc: Global, drops: &[Ident]) -> Result<State, NoMemory>
        ensures { IfOk result (λ next. next ≡ without self.now drops.now) }
    {
        let list = staying_of(alloc, drops, self.root.snapshots.as_slice())?;
        let root = self.root_with(self.root.stable.copy()?, list);
        let held = held_numbers(alloc, &root, &self.marks.settled)?;
        let marks = self.marks.with_held(alloc, held)?;
        self.following(alloc, root, self.active_copy(alloc)?, marks)
    }

    // A consistency point, and a snapshot of it behind the others.
    pub(crate) fn snapped(&self, alloc: Global, head: Head) -> Result<State, NoMemory>
        requires new { (s : RootSnapshot) → Among self.now.root.snapshots s → ¬ (s.ident ≡ head.ident) }
        requires room { length self.now.root.snapshots < MOST_SNAPSHOTS }
        requires counted { next_after self.now.root head.ident ≤ LAST_NUMBER }
        ensures { IfOk result (λ next. next ≡ snapped self.now (snapshot_of head self.now.active)) }
    {
        head.told();
        let next = next_after_of(self.root.next, head.ident);
        let mut list = self.root.snapshots.copy(alloc)?.into_vec();
        let map = self.active_map(alloc)?;
        list.push(head.with_map(map.copy()?))?;
        let mut root = self.root_with(map, list);
        root.next = next;
        let marks = self.marks.snapped(alloc)?;
        self.following(alloc, root, self.active_copy(alloc)?, marks)
    }

    // Another map, which a new snapshot has, and without the snapshots that are among these.
    pub(crate) fn adopted(
        &self,
        alloc: Global,
        head: Head,
        map: BlockMap,
        family: u64,
        list: Vec<RootSnapshot>,
        drops: &[Ident],
    ) -> Result<State, NoMemory>
        requires new { (s : RootSnapshot) → Among self.now.root.snapshots s → ¬ (s.ident ≡ head.ident) }
        requires list { list.items ≡ staying drops.now (self.now.root.snapshots ++ snapshot_of head map ∷ []) }
        requires room { length list.items ≤ MOST_SNAPSHOTS }
        requires fits { AreMapsOf self.now.root.logical self.now.root.physical (map ∷ map_maps (staying drops.now self.now.root.snapshots)) }
        ensures { IfOk result (λ next. next ≡ adopted self.now (snapshot_of head map) family drops.now) }
    {
        head.told();
        let active = map.to_vec(alloc)?;
        let root = Root {
            number: self.root.number,
            kind: self.root.kind,
            family,
            logical: self.root.logical,
            physical: self.root.physical,
            next: self.root.next,
            stable: map,
            snapshots: Snapshots::from_vec(list),
        };
        let marks = self.adopted_marks(alloc, &root, drops)?;
        self.following(alloc, root, active, marks)
    }

    // The marks of a root with another map, which a snapshot behind the others has. Where none of those goes,
    // that map alone is marked.
    fn adopted_marks(&self, alloc: Global, root: &Root, drops: &[Ident]) -> Result<Marks, NoMemory>
        requires maps { AreMapsOf root.now.logical root.now.physical (kept_maps root.now) }
        requires good { IsRoot root.now }
        requires same { root.now.physical ≡ self.now.root.physical }
        requires behind { drops.now ≡ [] → IsWith self.now.root root.now }
        ensures { IfOk result (λ marks. AreMarks marks.held marks.settled marks.live root.now root.now.stable) }
    {
        if !drops.is_empty() {
            return Marks::restarted(alloc, root);
        }
        let live = map_numbers(alloc, root.physical, root.stable.as_slice())?;
        let held = united(alloc, &self.marks.held, &live)?;
        Ok(Marks {
            held,
            settled: live.copy(alloc)?,
            live,
        })
    }

    // A destination with the map of the snapshot of this identity, and with all snapshots or with those
    // up to that one.
    pub(crate) fn reverted_to(
        &self,
        alloc: Global,
        ident: Ident,
        drop_newer: bool,
        family: u64,
    ) -> Result<State, VolumeFault>
        ensures ok { IfOk result (λ next. IsReverted self.now ident drop_newer family next) }
        ensures refused { MatchOption (revert_refusal self.now ident) (OnErr result (result ≡ Err VolumeFault.NoMemory)) (λ fault. result ≡ Err fault) }
    {
        let snapshot = match snapshot_of_ident(self.root.snapshots.as_slice(), ident) {
            Some(found) => found.copy(alloc)?,
            None => return Err(VolumeFault::NoSnapshot),
        };
        let count = count_kept(self.root.snapshots.as_slice(), ident, drop_newer);
        Ok(self.reverted(alloc, &snapshot, count, family)?)
    }

    // A destination with the map of one of its snapshots, and with its first `count` snapshots.
    pub(crate) fn reverted(
        &self,
        alloc: Global,
        snapshot: &RootSnapshot,
        count: usize,
        family: u64,
    ) -> Result<State, NoMemory>
        requires { Among self.now.root.snapshots snapshot.now }
        ensures { IfOk result (λ next. next ≡ reverted self.now snapshot.now.map family (take count self.now.root.snapshots)) }
    {
        let active = snapshot.map.to_vec(alloc)?;
        let mut list = self.root.snapshots.copy(alloc)?.into_vec();
        list.truncate(count);
        let mut root = self.root_with(snapshot.map.copy()?, list);
        root.kind = Kind::Dp;
        root.family = family;
        self.remade(alloc, root, active)
    }
}

// The next client number, once a snapshot of this identity is taken.
fn next_after_of(next: u64, ident: Ident) -> u64
    requires { 2 * next < 2 ^ 64 }
    ensures { result ≡ cond (ident.seq == 2 * next) (suc next) next }
{
    if ident.seq == 2 * next {
        next + 1
    } else {
        next
    }
}

// Where the snapshot of an identity stands.
fn place_of(snapshots: &[RootSnapshot], ident: Ident) -> Option<usize>
    ensures { result ≡ position (λ t. same_ident t.ident ident) snapshots.now }
{
    snapshots
        .iter()
        .position(|snapshot| same(snapshot.ident, ident))
}

// How many snapshots there are up to the one of this identity.
fn count_up_to(snapshots: &[RootSnapshot], ident: Ident) -> usize
    requires { length snapshots.now ≤ RECORD_SNAPSHOTS }
    ensures { take result snapshots.now ≡ up_to (λ t. same_ident t.ident ident) snapshots.now }
{
    match place_of(snapshots, ident) {
        Some(at) => at + 1,
        None => snapshots.len(),
    }
}

// How many of the first snapshots stay: all, or those up to the one of this identity.
fn count_kept(snapshots: &[RootSnapshot], ident: Ident, drop_newer: bool) -> usize
    requires { length snapshots.now ≤ RECORD_SNAPSHOTS }
    ensures { take result snapshots.now ≡ cond drop_newer (up_to (λ t. same_ident t.ident ident) snapshots.now) snapshots.now }
{
    if drop_newer {
        count_up_to(snapshots, ident)
    } else {
        snapshots.len()
    }
}

// A map of holes.
fn holes(alloc: Global, logical: u32) -> Result<Vec<u32>, NoMemory>
    ensures { IfOk result (λ map. map.items ≡ replicate logical 0) }
{
    Ok(vec![in alloc; 0; logical as usize]?)
}
