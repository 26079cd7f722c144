// The maps of a volume and what is known of their numbers, without a disk.
ghost use Rattle.std.specs.Prelude.{◌≡◌, ◌≢◌, true, false, ℕ, ◌+◌, ◌<◌, ◌≤◌, ◌∷◌, length, slice_index, slice_set, IfOk, IfNone, OnSome, IfSome, OnOk, OnErr, IsOk, Some, None, List, find, MatchOption};
ghost use Rattle.std.specs.Option.{option_copied};
ghost use Rattle.sm_defs.specs.Words.{same_ident, Among};
ghost use Rattle.sm_base.specs.declared.limits.TheConstants.{MOST_SNAPSHOTS, LAST_NUMBER};
ghost use Rattle.volume_store.specs.Refusals.{is_full, used_of, read_refusal, map_seen, has_snapshot};
ghost use Rattle.volume_store.specs.Next.{next_after};
ghost use Rattle.sm_root.specs.Condition.{IsRoot};
ghost use Rattle.volume_store.specs.Maps.{Maps, all_maps, held_maps, AreFree, AreMapsOf, AreMarks, AreUsed, uses, IsLeastFree};

use crate::faults::VolumeFault;
use crate::io::View;
use crate::marks::{Marks, exchange, remark, united};
use crate::next::same;
use sm_base::limits::{LAST_NUMBER, MOST_SNAPSHOTS};
use sm_base::{Ident, NoMemory};
use sm_bits::BitMap;
use sm_root::{Root, RootSnapshot};
use sm_space::Space;
use std::alloc::Global;
use std::marker::Model;

/// The root of a volume with its active map.
#[derive(Debug, Drop)]
pub(crate) struct State {
    pub(crate) root: Root,
    pub(crate) active: Vec<u32>,
    pub(crate) marks: Marks,
    // What the stable map and the snapshots use: a restart needs it.
    pub(crate) kept: BitMap,
    pub(crate) space: Space,
}

impl Model for State {
    ghost use Rattle.volume_store.specs.Maps.{Maps, AreKept};

    ghost Value = { Maps };

    ghost view = { λ s. record { root = s.root; active = s.active.items } };

    ghost invariant = { λ s. AreKept s.root s.active.items s.marks.held s.marks.settled s.marks.live s.kept s.space };
}

impl State {
    /// A root whose stable map is the active one.
    pub(crate) fn new(alloc: Global, root: Root, active: Vec<u32>) -> Result<State, NoMemory>
        requires maps { AreMapsOf root.logical root.physical (all_maps root active.items) }
        requires good { IsRoot root }
        requires settled { active.items ≡ root.stable }
        ensures { IfOk result (λ state. state ≡ record { root = root; active = active.items }) }
    {
        let marks = Marks::restarted(alloc, &root)?;
        let kept = united(alloc, &marks.held, &marks.settled)?;
        let used = united(alloc, &kept, &marks.live)?;
        let space = Space::new(alloc, root.physical, &used)?;
        Ok(State {
            root,
            active,
            marks,
            kept,
            space,
        })
    }

    // The state of another root of the same disk, where it is known what its maps use.
    pub(crate) fn following(
        &self,
        alloc: Global,
        root: Root,
        active: Vec<u32>,
        marks: Marks,
    ) -> Result<State, NoMemory>
        requires maps { AreMapsOf root.logical root.physical (all_maps root active.items) }
        requires good { IsRoot root }
        requires marks { AreMarks marks.held marks.settled marks.live root active.items }
        requires same { root.physical ≡ self.now.root.physical }
        ensures { IfOk result (λ state. state ≡ record { root = root; active = active.items }) }
    {
        let kept = united(alloc, &marks.held, &marks.settled)?;
        let used = united(alloc, &kept, &marks.live)?;
        let mut space = self.space.copy(alloc)?;
        space.reset(&used);
        Ok(State {
            root,
            active,
            marks,
            kept,
            space,
        })
    }

    // The same where another map comes, which is the stable and the active one.
    pub(crate) fn remade(
        &self,
        alloc: Global,
        root: Root,
        active: Vec<u32>,
    ) -> Result<State, NoMemory>
        requires maps { AreMapsOf root.logical root.physical (all_maps root active.items) }
        requires good { IsRoot root }
        requires settled { active.items ≡ root.stable }
        requires same { root.physical ≡ self.now.root.physical }
        ensures { IfOk result (λ state. state ≡ record { root = root; active = active.items }) }
    {
        let marks = Marks::restarted(alloc, &root)?;
        self.following(alloc, root, active, marks)
    }

    pub(crate) fn root(&self) -> &Root
        ensures value { result.now ≡ self.now.root }
        ensures good { IsRoot result.now }
        ensures maps { AreMapsOf self.now.root.logical self.now.root.physical (all_maps self.now.root self.now.active) }
    {
        &self.root
    }

    /// Whether there is no room for a client's snapshot, or none for one of this identity.
    pub(crate) fn is_full(&self, ident: Ident) -> bool
        ensures value { result ≡ is_full self.now.root ident }
        ensures room { result ≡ false → length self.now.root.snapshots < MOST_SNAPSHOTS }
        ensures counted { result ≡ false → next_after self.now.root ident ≤ LAST_NUMBER }
    {
        let next = self.root.next;
        self.root.snapshots.as_slice().len() == MOST_SNAPSHOTS
            || (ident.seq == 2 * next && next == LAST_NUMBER)
    }

    // A number that a map uses is one of the disk's blocks.
    pub(crate) fn used_number(&self, number: u32)
        requires { uses (all_maps self.now.root self.now.active) number ≡ true }
        ensures { number ≤ self.now.root.physical }
    {
        let physical = self.root.physical;
        prove!(number <= physical);
    }

    /// The number at a place of the image that is seen.
    pub(crate) fn number_seen(&self, view: View, at: u32) -> Result<u32, VolumeFault>
        ensures refused { MatchOption (read_refusal self.now view at) (IsOk result) (λ fault. result ≡ Err fault) }
        ensures seen { IfOk result (λ n. (numbers : List ℕ) × (map_seen self.now view ≡ Some numbers) × (n ≡ slice_index numbers at)) }
        ensures within { IfOk result (λ n. n ≤ self.now.root.physical) }
    {
        match view {
            View::Active => number_in(&self.active, at),
            View::Of(ident) => match snapshot_of_ident(self.root.snapshots.as_slice(), ident) {
                None => Err(VolumeFault::NoSnapshot),
                Some(snapshot) => number_in(snapshot.map.as_slice(), at),
            },
        }
    }

    /// How many different numbers the maps use.
    pub(crate) fn used(&self) -> u32
        ensures value { result ≡ used_of self.now }
        ensures within { result ≤ self.now.root.physical }
    {
        self.space.used()
    }

    /// The numbers that no map uses.
    pub(crate) fn space(&self) -> &Space
        ensures { AreFree result.now self.now.root.physical (all_maps self.now.root self.now.active) }
    {
        &self.space
    }

    /// The numbers that the snapshots use.
    pub(crate) fn held(&self) -> &BitMap
        ensures { AreUsed result.now self.now.root.physical (held_maps self.now.root) }
    {
        &self.marks.held
    }

    /// The least free number, if there is one.
    pub(crate) fn free_number(&self) -> Option<u32>
        ensures none { IfNone result (used_of self.now ≡ self.now.root.physical) }
        ensures some { OnSome result (used_of self.now ≢ self.now.root.physical) }
        ensures least { IfSome result (IsLeastFree self.now) }
    {
        self.space.next_free(1)
    }

    /// Puts the least free number at a place of the active map. The number that stood there is free
    /// from then on, where no other map uses it.
    pub(crate) fn put(&mut self, at: u32, number: u32)
        requires place { at < length self.old.active }
        requires least { IsLeastFree self.old number }
        ensures { self.new ≡ record self.old { active = slice_set self.old.active at number } }
    {
        let before = self.active[at as usize];
        let _ = self.space.take();
        self.active[at as usize] = number;
        exchange(&mut self.marks.live, before, number);
        if before != 0 && !self.kept.test(before) {
            self.space.give(before);
        }
    }

    /// The active map becomes the stable one, as a restart leaves it.
    pub(crate) fn restart(&mut self)
        ensures { self.new ≡ record self.old { active = self.old.root.stable } }
    {
        let stable = self.root.stable.as_slice();
        remark(&mut self.marks.live, &self.active, stable);
        self.active.copy_from_slice(stable);
        self.space.reset(&self.kept);
    }
}

// The number at a place of a map.
fn number_in(numbers: &[u32], at: u32) -> Result<u32, VolumeFault>
    ensures ok { IfOk result (λ n. n ≡ slice_index numbers.now at) }
    ensures inside { OnOk result (at < length numbers.now) }
    ensures bad { OnErr result ((result ≡ Err VolumeFault.BadBlock) × (length numbers.now ≤ at)) }
{
    match numbers.get(at as usize) {
        Some(number) => Ok(*number),
        None => Err(VolumeFault::BadBlock),
    }
}

fn find_snapshot(snapshots: &[RootSnapshot], ident: Ident) -> Option<&RootSnapshot>
    ensures { option_copied result ≡ find (λ s. same_ident s.ident ident) snapshots.now }
{
    snapshots
        .iter()
        .find(|snapshot| same(snapshot.ident, ident))
}

// The snapshot of an identity.
pub(crate) fn snapshot_of_ident(snapshots: &[RootSnapshot], ident: Ident) -> Option<&RootSnapshot>
    ensures some { IfSome result (λ s. find (λ t. same_ident t.ident ident) snapshots.now ≡ Some s.now) }
    ensures among { IfSome result (λ s. Among snapshots.now s.now) }
    ensures has { OnSome result (has_snapshot snapshots.now ident ≡ true) }
    ensures none { IfNone result (has_snapshot snapshots.now ident ≡ false) }
    ensures seen_none { IfNone result (find (λ t. same_ident t.ident ident) snapshots.now ≡ None) }
{
    match find_snapshot(snapshots, ident) {
        Some(snapshot) => Some(snapshot),
        None => None,
    }
}
