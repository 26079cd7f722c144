// Which physical numbers the maps of a root use.
ghost use Rattle.std.specs.Prelude.{◌≡◌, ◌≢◌, ◌⊎◌, [], ◌∷◌, ℕ, ◌+◌, ◌^◌, ◌++◌, ◌<◌, ◌≤◌, ◌||◌, ◌&&◌, ◌==◌, not, true, false, length, map, take, slice_index, slice_set, IfOk};
ghost use Rattle.sm_bits.specs.Places.{has, union_of};
ghost use Rattle.sm_defs.specs.Image.{stands};
ghost use Rattle.sm_base.specs.declared.limits.TheConstants.{MOST_PHYSICAL};
ghost use Rattle.sm_defs.specs.Words.{Among};
ghost use Rattle.sm_root.specs.Condition.{IsRoot, map_of};
ghost use Rattle.volume_store.specs.Maps.{kept_maps, held_maps, OnePlace, AreMapsOf, AreUsed, AreMarks};

use sm_base::NoMemory;
use sm_bits::BitMap;
use sm_root::{Root, RootSnapshot};
use std::alloc::Global;

/// Which numbers each part of a volume uses, so that a commit need not read the maps for it.
#[derive(Debug, Drop)]
pub(crate) struct Marks {
    // Those of the snapshots.
    pub(crate) held: BitMap,
    // Those of the stable map.
    pub(crate) settled: BitMap,
    // Those of the active map.
    pub(crate) live: BitMap,
}

impl Marks {
    // The marks of a root whose stable map is the active one.
    pub(crate) fn restarted(alloc: Global, root: &Root) -> Result<Marks, NoMemory>
        requires maps { AreMapsOf root.now.logical root.now.physical (kept_maps root.now) }
        requires good { IsRoot root.now }
        ensures { IfOk result (λ marks. AreMarks marks.held marks.settled marks.live root.now root.now.stable) }
    {
        let live = map_numbers(alloc, root.physical, root.stable.as_slice())?;
        let held = held_numbers(alloc, root, &live)?;
        Ok(Marks {
            held,
            settled: live.copy(alloc)?,
            live,
        })
    }

    // Equal marks.
    pub(crate) fn copy(&self, alloc: Global) -> Result<Marks, NoMemory>
        ensures { IfOk result (λ marks. marks ≡ self.now) }
    {
        self.with_held(alloc, self.held.copy(alloc)?)
    }

    // The marks where the snapshots use these numbers.
    pub(crate) fn with_held(&self, alloc: Global, held: BitMap) -> Result<Marks, NoMemory>
        ensures { IfOk result (λ marks. marks ≡ record self.now { held = held }) }
    {
        Ok(Marks {
            held,
            settled: self.settled.copy(alloc)?,
            live: self.live.copy(alloc)?,
        })
    }

    // The marks where the active map is the stable one too.
    pub(crate) fn settled(&self, alloc: Global) -> Result<Marks, NoMemory>
        ensures { IfOk result (λ marks. marks ≡ record self.now { settled = self.now.live }) }
    {
        self.settled_with(alloc, self.held.copy(alloc)?)
    }

    // The same with a snapshot of the active map.
    pub(crate) fn snapped(&self, alloc: Global) -> Result<Marks, NoMemory>
        requires { length self.now.live ≡ length self.now.held }
        ensures { IfOk result (λ marks. marks ≡ record self.now { held = union_of self.now.held self.now.live; settled = self.now.live }) }
    {
        self.settled_with(alloc, united(alloc, &self.held, &self.live)?)
    }

    fn settled_with(&self, alloc: Global, held: BitMap) -> Result<Marks, NoMemory>
        ensures { IfOk result (λ marks. marks ≡ record { held = held; settled = self.now.live; live = self.now.live }) }
    {
        Ok(Marks {
            held,
            settled: self.live.copy(alloc)?,
            live: self.live.copy(alloc)?,
        })
    }
}

// The numbers of two sets.
pub(crate) fn united(alloc: Global, one: &BitMap, other: &BitMap) -> Result<BitMap, NoMemory>
    requires { length other.now ≡ length one.now }
    ensures { IfOk result (λ set. set ≡ union_of one.now other.now) }
{
    let mut set = one.copy(alloc)?;
    set.union(other);
    Ok(set)
}

// No numbers, but for the hole.
fn no_numbers(alloc: Global, physical: u32) -> Result<BitMap, NoMemory>
    requires { physical ≤ MOST_PHYSICAL }
    ensures { IfOk result (λ set. AreUsed set physical []) }
{
    let mut set = BitMap::new(alloc, physical + 1)?;
    set.set(0);
    Ok(set)
}

// The numbers of one map.
pub(crate) fn map_numbers(alloc: Global, physical: u32, map: &[u32]) -> Result<BitMap, NoMemory>
    requires room { physical ≤ MOST_PHYSICAL }
    requires inside { (i : ℕ) → slice_index map.now i ≤ physical }
    ensures { IfOk result (λ set. AreUsed set physical (map.now ∷ [])) }
{
    let mut set = no_numbers(alloc, physical)?;
    mark(&mut set, map, &[]);
    Ok(set)
}

// One number goes, if it is none of a hole, and another comes.
pub(crate) fn exchange(set: &mut BitMap, before: u32, number: u32)
    requires before { before < length set.old }
    requires number { number < length set.old }
    requires some { 1 ≤ number }
    ensures long { length set.new ≡ length set.old }
    ensures hole { has set.new 0 ≡ has set.old 0 }
    ensures comes { has set.new number ≡ true }
    ensures goes { 1 ≤ before → before ≢ number → has set.new before ≡ false }
    ensures others { (n : ℕ) → n ≢ before → n ≢ number → has set.new n ≡ has set.old n }
{
    if before != 0 {
        set.clear(before);
    }
    set.set(number);
}

// Takes out a number, if it is none of a hole.
fn take(set: &mut BitMap, number: u32)
    requires { number < length set.old }
    ensures long { length set.new ≡ length set.old }
    ensures hole { has set.new 0 ≡ has set.old 0 }
    ensures each { (n : ℕ) → 1 ≤ n → has set.new n ≡ (has set.old n && not (number == n)) }
{
    if number != 0 {
        set.clear(number);
    }
}

// Takes out the numbers of a map.
fn take_all(set: &mut BitMap, map: &[u32])
    requires { (i : ℕ) → slice_index map.now i < length set.old }
    ensures long { length set.new ≡ length set.old }
    ensures hole { has set.new 0 ≡ has set.old 0 }
    ensures each { (n : ℕ) → 1 ≤ n → has set.new n ≡ (has set.old n && not (stands n map.now)) }
{
    for number in map {
        take(set, *number);
    }
}

// Adds a number. One that is there is only looked at: a store would hold up the next number of its word.
fn put(set: &mut BitMap, number: u32)
    requires { number < length set.old }
    ensures { set.new ≡ slice_set set.old number true }
{
    if !set.test(number) {
        set.set(number);
    }
}

// Adds the numbers of a part of a map, and 0 where it has a hole.
fn put_all(set: &mut BitMap, part: &[u32])
    requires { (i : ℕ) → slice_index part.now i < length set.old }
    ensures long { length set.new ≡ length set.old }
    ensures each { (n : ℕ) → has set.new n ≡ (has set.old n || stands n part.now) }
{
    for number in part {
        put(set, *number);
    }
}

// Adds them, where they are not known to be there.
fn put_unless(known: bool, set: &mut BitMap, part: &[u32])
    requires inside { (i : ℕ) → slice_index part.now i < length set.old }
    requires known { known ≡ true → (n : ℕ) → stands n part.now ≡ true → has set.old n ≡ true }
    ensures long { length set.new ≡ length set.old }
    ensures each { (n : ℕ) → has set.new n ≡ (has set.old n || stands n part.now) }
{
    if !known {
        put_all(set, part);
    }
}

// Whether the part stands in a map, from a place on.
fn stands_in(part: &[u32], map: &[u32], from: usize) -> bool
    requires { from + length part.now < 2 ^ 64 }
    ensures { result ≡ true → (n : ℕ) → stands n part.now ≡ true → stands n map.now ≡ true }
{
    let to = from + part.len();
    to <= map.len() && &map[from..to] == part
}

// How many numbers of two maps are compared at once.
const RUN: usize = 64;

// The first numbers, and those behind them.
fn first_run(rest: &[u32]) -> (&[u32], &[u32])
    ensures parts { rest.now ≡ result.0.now ++ result.1.now }
    ensures some { 0 < length rest.now → 0 < length result.0.now }
{
    rest.split_at(rest.len().min(RUN))
}

// Adds the numbers of a map, and 0 where it has a hole. The numbers of `beside` are there: maps differ at
// few places, so most numbers need no look at the set.
pub(crate) fn mark(set: &mut BitMap, map: &[u32], beside: &[u32])
    requires inside { (i : ℕ) → slice_index map.now i < length set.old }
    requires known { (i : ℕ) → i < length beside.now → has set.old (slice_index beside.now i) ≡ true }
    ensures long { length set.new ≡ length set.old }
    ensures each { (n : ℕ) → has set.new n ≡ (has set.old n || stands n map.now) }
{
    let mut rest = map;
    let mut at = 0;
    while !rest.is_empty() {
        let (part, more) = first_run(rest);
        put_unless(stands_in(part, beside, at), set, part);
        at += part.len();
        rest = more;
    }
}

// Marks the numbers of a part of a map in place of those at the same places of another map.
fn remark_part(set: &mut BitMap, before: &[u32], part: &[u32])
    requires before { (i : ℕ) → slice_index before.now i < length set.old }
    requires inside { (i : ℕ) → slice_index part.now i < length set.old }
    requires marked { (n : ℕ) → 1 ≤ n → stands n before.now ≡ true → has set.old n ≡ true }
    requires hole { has set.old 0 ≡ true }
    ensures long { length set.new ≡ length set.old }
    ensures hole { has set.new 0 ≡ true }
    ensures each { (n : ℕ) → 1 ≤ n → has set.new n ≡ ((has set.old n && not (stands n before.now)) || stands n part.now) }
{
    if part != before {
        take_all(set, before);
        put_all(set, part);
    }
}

// Marks the numbers of a map in place of those of another. Only where the maps differ is the set looked at.
pub(crate) fn remark(set: &mut BitMap, before: &[u32], map: &[u32])
    requires long { length before.now ≡ length map.now }
    requires before { (i : ℕ) → slice_index before.now i < length set.old }
    requires inside { (i : ℕ) → slice_index map.now i < length set.old }
    requires place { OnePlace (before.now ∷ map.now ∷ []) }
    requires marked { (n : ℕ) → 1 ≤ n → n < length set.old → has set.old n ≡ stands n before.now }
    requires hole { has set.old 0 ≡ true }
    ensures long { length set.new ≡ length set.old }
    ensures hole { has set.new 0 ≡ true }
    ensures each { (n : ℕ) → 1 ≤ n → n < length set.old → has set.new n ≡ stands n map.now }
{
    let mut at = 0;
    while at < map.len() {
        let to = map.len().min(at + RUN);
        remark_part(set, &before[at..to], &map[at..to]);
        at = to;
    }
}

// Whether two maps differ at few places. It tells only which way of marking is quicker.
fn are_alike(one: &[u32], other: &[u32]) -> bool {
    let differing = one
        .chunks(RUN)
        .zip(other.chunks(RUN))
        .filter(|(part, beside)| part != beside)
        .count();
    differing <= one.len() / (2 * RUN)
}

// The numbers of a snapshot's map, where those of the stable map are marked already.
fn snapshot_numbers(
    alloc: Global,
    root: &Root,
    settled: &BitMap,
    map: &[u32],
) -> Result<BitMap, NoMemory>
    requires maps { AreMapsOf root.now.logical root.now.physical (kept_maps root.now) }
    requires good { IsRoot root.now }
    requires settled { AreUsed settled.now root.now.physical (root.now.stable ∷ []) }
    requires among { Among (held_maps root.now) map.now }
    ensures { IfOk result (λ set. AreUsed set root.now.physical (map.now ∷ [])) }
{
    let stable = root.stable.as_slice();
    if !are_alike(stable, map) {
        return map_numbers(alloc, root.physical, map);
    }
    let mut set = settled.copy(alloc)?;
    remark(&mut set, stable, map);
    Ok(set)
}

// The numbers of the first snapshot, if there is one.
fn first_numbers(alloc: Global, root: &Root, settled: &BitMap) -> Result<BitMap, NoMemory>
    requires maps { AreMapsOf root.now.logical root.now.physical (kept_maps root.now) }
    requires good { IsRoot root.now }
    requires settled { AreUsed settled.now root.now.physical (root.now.stable ∷ []) }
    ensures { IfOk result (λ set. AreUsed set root.now.physical (map map_of (take 1 root.now.snapshots))) }
{
    match root.snapshots.as_slice() {
        [] => no_numbers(alloc, root.physical),
        [first, ..] => snapshot_numbers(alloc, root, settled, first.map.as_slice()),
    }
}

// The map of the last of these snapshots, or an empty one.
pub(crate) fn last_map(snapshots: &[RootSnapshot]) -> &[u32]
    ensures { (result.now ≡ []) ⊎ Among (map map_of snapshots.now) result.now }
{
    match snapshots.last() {
        Some(snapshot) => snapshot.map.as_slice(),
        None => &[],
    }
}

// The numbers that the snapshots use, where those of the stable map are marked already.
pub(crate) fn held_numbers(alloc: Global, root: &Root, settled: &BitMap) -> Result<BitMap, NoMemory>
    requires maps { AreMapsOf root.now.logical root.now.physical (kept_maps root.now) }
    requires good { IsRoot root.now }
    requires settled { AreUsed settled.now root.now.physical (root.now.stable ∷ []) }
    ensures { IfOk result (λ set. AreUsed set root.now.physical (held_maps root.now)) }
{
    let mut set = first_numbers(alloc, root, settled)?;
    let snapshots = root.snapshots.as_slice();
    for at in 1..snapshots.len() {
        mark(
            &mut set,
            snapshots[at].map.as_slice(),
            last_map(&snapshots[..at]),
        );
    }
    Ok(set)
}
